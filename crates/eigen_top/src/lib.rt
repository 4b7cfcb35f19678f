// Section 4 of document 01: the eigenpairs of the largest values of a symmetric matrix.
#![tactic(auto)]

pub mod checks;
pub mod leading;
pub mod subspace;

ghost use Rattle.std.specs.Prelude.{◌≡◌, ◌+◌, ◌*◌, ◌≤◌, length};
ghost use Rattle.limits.specs.Limits.{most_components, most_samples};
ghost use Rattle.eigen_ritz.specs.inner.Given.{given, gives};
ghost use Rattle.eigen_top.specs.TopEigs.{top_eigs};
ghost use Rattle.eigen_top.specs.Call.{leaves, top_call, called};

use eigen_matrix::square::Square;
use outcome::Refusal;

// ---- the pairs, for any n by n entries

// On slices of just the lengths that n and k ask: k values and k rows of n go to `out`, zeros on 11. `w`, `m` and `v` are work, left as it falls.
pub fn top_pairs(
    a: &[f64],
    n: usize,
    k: usize,
    out: &mut [f64],
    w: &mut [f64],
    m: &mut [f64],
    v: &mut [f64],
) -> Result<(), Refusal>
    requires a_len { (length a.now ≡ n * n) × (length out.old ≡ k + k * n) × (length w.old ≡ n + n * n) × (length m.old ≡ n * n) × (length v.old ≡ n * n) }
    requires n_le_most_samples { (n ≤ most_samples) × (k ≤ n) × (k ≤ most_components) }
    ensures { given k result out.new ≡ gives k n (top_eigs k n a.now) out.old }
{
    if n <= 64 {
        return leading::by_jacobi(out, w, m, v, a, n, k);
    }
    let b = k + 8;
    let a = Square { entries: a, n };
    subspace::by_block(out, &mut w[..b * n], &mut m[..b * n], a, b, k)
}

// ---- the operation

// The same on slices that may be longer, with the work cleared.
fn solve(
    out: &mut [f64],
    w: &mut [f64],
    m: &mut [f64],
    v: &mut [f64],
    a: &[f64],
    n: usize,
    k: usize,
) -> Result<(), Refusal>
    requires n_in_bounds { (k + k * n ≤ length out.old) × (n + n * n ≤ length w.old) × (n * n ≤ length m.old) × (n * n ≤ length v.old) }
    requires a_len { (length a.now ≡ n * n) × (n ≤ most_samples) × (k ≤ n) × (k ≤ most_components) }
    ensures { called result out.new w.new m.new v.new
        ≡ leaves k n (top_eigs k n a.now) out.old w.old m.old v.old }
{
    let s = n * n;
    let r = top_pairs(
        a,
        n,
        k,
        &mut out[..k + k * n],
        &mut w[..n + s],
        &mut m[..s],
        &mut v[..s],
    );
    w.fill(0.0);
    m.fill(0.0);
    v.fill(0.0);
    r
}

// The eigenpairs of the k largest values of the n by n matrix a, k being the components or n: k values in descending order, then k rows of n.
// `eigenpairs`, of n + n * n entries, and `rotated` and `vectors`, of n * n each, are work.
pub fn top_eigs(
    a: &[f64],
    n: usize,
    components: usize,
    out: &mut [f64],
    eigenpairs: &mut [f64],
    rotated: &mut [f64],
    vectors: &mut [f64],
) -> Result<(), Refusal>
    ensures { called result out.new eigenpairs.new rotated.new vectors.new
        ≡ top_call components n a.now out.old eigenpairs.old rotated.old vectors.old }
{
    let k = checks::components_used(components, n);
    checks::check(
        a,
        n,
        components,
        k,
        out.len(),
        eigenpairs.len(),
        rotated.len(),
        vectors.len(),
    )?;
    solve(out, eigenpairs, rotated, vectors, a, n, k)
}
