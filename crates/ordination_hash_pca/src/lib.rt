// Section 4 of document 01: coordinates of samples from their sets of hashes, `hash_pca`.
#![tactic(auto)]

ghost use Rattle.std.specs.Prelude.{◌≡◌, false, ◌≤◌, length};
ghost use Rattle.ordination_coordinates.specs.inner.Lengths.{Lent};
ghost use Rattle.ordination_hash_pca.specs.Call.{called, judged_call, hash_pca_call};

use ordination_coordinates::checks::{self, Lengths};
use ordination_pcoa::Work;
use outcome::Refusal;

// The coordinates on k components, where no line of the table holds.
fn ordinate_sets(
    hashes: &[u64],
    offsets: &[usize],
    n: usize,
    k: usize,
    short: bool,
    beyond: bool,
    out: &mut [f64],
    b: &mut [f64],
    w: &mut [f64],
    m: &mut [f64],
    v: &mut [f64],
    words: &mut [u64],
) -> Result<usize, Refusal>
    requires k_le_n { (k ≤ n) × (beyond ≡ false → k ≤ 16) }
    requires lent { short ≡ false → Lent k n (length out.old) (length b.old) (length w.old) (length m.old) (length v.old) (length words.old) }
    ensures { called result out.new b.new w.new m.new v.new words.new
        ≡ judged_call k n hashes.now offsets.now short beyond out.old b.old w.old m.old v.old words.old }
{
    let features = ordination_gram::matrix(b, words, hashes, offsets, n, short, beyond)?;
    ordination_pcoa::ordinate_front(n, k, out, b, Work { w, m, v })?;
    Ok(features)
}

// The coordinates of n samples on the leading components, by their sets of hashes: the set i has the hashes from offsets[i] to offsets[i + 1]. `out` gets k
// values, k variance shares and coordinates n by k, where k is `components`, or n if that is less. The other slices are work: `gram`, `rotated` and
// `vectors` of n * n entries, `eigenpairs` of n + n * n, `words` of 16 * n. The answer is the number of selected hashes.
pub fn hash_pca(
    hashes: &[u64],
    offsets: &[usize],
    n: usize,
    components: usize,
    out: &mut [f64],
    gram: &mut [f64],
    eigenpairs: &mut [f64],
    rotated: &mut [f64],
    vectors: &mut [f64],
    words: &mut [u64],
) -> Result<usize, Refusal>
    ensures { called result out.new gram.new eigenpairs.new rotated.new vectors.new words.new
        ≡ hash_pca_call components n hashes.now offsets.now out.old gram.old eigenpairs.old rotated.old vectors.old words.old }
{
    let k = eigen_top::checks::components_used(components, n);
    let lengths = Lengths {
        out: out.len(),
        b: gram.len(),
        w: eigenpairs.len(),
        m: rotated.len(),
        v: vectors.len(),
    };
    let short = checks::is_lacking(n, k, lengths, words.len());
    let beyond = checks::bad_components(components);
    ordinate_sets(
        hashes, offsets, n, k, short, beyond, out, gram, eigenpairs, rotated, vectors, words,
    )
}
