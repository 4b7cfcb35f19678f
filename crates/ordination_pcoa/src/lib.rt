// Section 4 of document 01: coordinates of samples from their distances, `pcoa`.
#![tactic(auto)]

ghost use Rattle.std.specs.Prelude.{◌≡◌, ◌+◌, ◌*◌, ◌≤◌, length, take};
ghost use Rattle.limits.specs.Limits.{most_components, most_samples};
ghost use Rattle.ordination_coordinates.specs.Pcoa.{ordinate};
ghost use Rattle.ordination_coordinates.specs.Pcoa as meaning;
ghost use Rattle.ordination_pcoa.specs.inner.Given.{given, gives};
ghost use Rattle.ordination_pcoa.specs.Call.{called, leaves, pcoa_call};

use eigen_matrix::square;
use ordination_coordinates::checks::{self, Lengths};
use ordination_coordinates::gower;
use outcome::Refusal;

// The work slices of the eigenpairs.
#[derive(Drop)]
pub struct Work<'a> {
    pub w: &'a mut [f64],
    pub m: &'a mut [f64],
    pub v: &'a mut [f64],
}

// ---- from a matrix

// The coordinates of an n by n matrix b, on slices of just the lengths that n and k ask. On acceptance `out` holds k values, k shares and n rows of k, on
// 11 zeros. `pairs` takes the eigenpairs.
fn ordinate_in(
    b: &[f64],
    n: usize,
    k: usize,
    out: &mut [f64],
    pairs: &mut [f64],
    work: Work<'_>,
) -> Result<(), Refusal>
    requires b_len { (length b.now ≡ n * n) × (n ≤ most_samples) × (k ≤ n) × (k ≤ most_components) }
    requires out_len { (length out.old ≡ k + k + n * k) × (length pairs.old ≡ k + k * n) × (length work.w.now ≡ n + n * n) × (length work.m.now ≡ n * n) × (length work.v.now ≡ n * n) }
    ensures { given k result out.new ≡ gives k n (ordinate k n b.now) out.old }
{
    let Work { w, m, v } = work;
    match eigen_top::top_pairs(b, n, k, pairs, w, m, v) {
        Ok(()) => {
            let total = square::trace(b, n);
            ordination_coordinates::finish(out, pairs, total, n, k);
            Ok(())
        }
        Err(e) => {
            out.fill(0.0);
            Err(e)
        }
    }
}

// The same with room for the eigenpairs, 33 KiB of stack.
pub fn ordinate(
    b: &[f64],
    n: usize,
    k: usize,
    out: &mut [f64],
    work: Work<'_>,
) -> Result<(), Refusal>
    requires b_len { (length b.now ≡ n * n) × (n ≤ most_samples) × (k ≤ n) × (k ≤ most_components) }
    requires out_len { (length out.old ≡ k + k + n * k) × (length work.w.now ≡ n + n * n) × (length work.m.now ≡ n * n) × (length work.v.now ≡ n * n) }
    ensures { given k result out.new ≡ gives k n (ordinate k n b.now) out.old }
{
    let mut pairs = [0.0; 4112];
    ordinate_in(b, n, k, out, &mut pairs[..k + k * n], work)
}

// ---- from distances

// The coordinates of n by n distances d, without the table: for any values, on slices of just the lengths that n and k ask. `b` takes the centred matrix;
// it and `w`, `m` and `v` are work, left as it falls: the caller clears its own.
pub fn coordinates_of(
    d: &[f64],
    n: usize,
    k: usize,
    out: &mut [f64],
    b: &mut [f64],
    w: &mut [f64],
    m: &mut [f64],
    v: &mut [f64],
) -> Result<(), Refusal>
    requires d_len { (length d.now ≡ n * n) × (n ≤ most_samples) × (k ≤ n) × (k ≤ most_components) }
    requires out_len { (length out.old ≡ k + k + n * k) × (length b.old ≡ n * n) × (length w.old ≡ n + n * n) × (length m.old ≡ n * n) × (length v.old ≡ n * n) }
    ensures { given k result out.new ≡ gives k n (meaning.pcoa k n d.now) out.old }
{
    gower::centre(b, d, n);
    ordinate(b, n, k, out, Work { w, m, v })
}

// ---- the operation

// The same as `ordinate` on slices that may be longer, of a matrix in front of `b`, with the work cleared.
pub fn ordinate_front(
    n: usize,
    k: usize,
    out: &mut [f64],
    b: &mut [f64],
    work: Work<'_>,
) -> Result<(), Refusal>
    requires n_le_most_samples { (n ≤ most_samples) × (k ≤ n) × (k ≤ most_components) }
    requires k_in_bounds { (k + k + n * k ≤ length out.old) × (n * n ≤ length b.old) × (n + n * n ≤ length work.w.now) × (n * n ≤ length work.m.now) × (n * n ≤ length work.v.now) }
    ensures { called result out.new b.new work.exit.0.now work.exit.1.0.now work.exit.1.1.0.now
        ≡ leaves k n (ordinate k n (take (n * n) b.old)) out.old b.old work.entry.w.now work.entry.m.now work.entry.v.now }
{
    let s = n * n;
    let Work { w, m, v } = work;
    let fronts = Work {
        w: &mut w[..n + s],
        m: &mut m[..s],
        v: &mut v[..s],
    };
    let r = ordinate(&b[..s], n, k, &mut out[..k + k + n * k], fronts);
    b.fill(0.0);
    w.fill(0.0);
    m.fill(0.0);
    v.fill(0.0);
    r
}

// The same as `coordinates_of` on slices that may be longer, with the work cleared. The work comes as three slices: what a `Work` that is handed on whole
// holds at the end was not to be proved.
fn solve(
    d: &[f64],
    n: usize,
    k: usize,
    out: &mut [f64],
    b: &mut [f64],
    w: &mut [f64],
    m: &mut [f64],
    v: &mut [f64],
) -> Result<(), Refusal>
    requires d_len { (length d.now ≡ n * n) × (n ≤ most_samples) × (k ≤ n) × (k ≤ most_components) }
    requires k_in_bounds { (k + k + n * k ≤ length out.old) × (n * n ≤ length b.old) × (n + n * n ≤ length w.old) × (n * n ≤ length m.old) × (n * n ≤ length v.old) }
    ensures { called result out.new b.new w.new m.new v.new
        ≡ leaves k n (meaning.pcoa k n d.now) out.old b.old w.old m.old v.old }
{
    gower::centre(&mut b[..n * n], d, n);
    ordinate_front(n, k, out, b, Work { w, m, v })
}

// The coordinates of n samples, by their n by n distances, on the leading components. `out` gets k values, k variance shares and coordinates n by k, where
// k is `components`, or n if that is less. The other slices are work: `centred`, `rotated` and `vectors` of n * n entries, `eigenpairs` of n + n * n.
pub fn pcoa(
    distances: &[f64],
    n: usize,
    components: usize,
    out: &mut [f64],
    centred: &mut [f64],
    eigenpairs: &mut [f64],
    rotated: &mut [f64],
    vectors: &mut [f64],
) -> Result<(), Refusal>
    ensures { called result out.new centred.new eigenpairs.new rotated.new vectors.new
        ≡ pcoa_call components n distances.now out.old centred.old eigenpairs.old rotated.old vectors.old }
{
    let k = eigen_top::checks::components_used(components, n);
    let lengths = Lengths {
        out: out.len(),
        b: centred.len(),
        w: eigenpairs.len(),
        m: rotated.len(),
        v: vectors.len(),
    };
    checks::check(distances, n, components, k, lengths)?;
    solve(distances, n, k, out, centred, eigenpairs, rotated, vectors)
}
