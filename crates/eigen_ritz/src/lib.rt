// Section 4 of document 01: the Rayleigh-Ritz step of `top_eigs`. A block q of b columns of n entries is lent as one slice, its product with the matrix as another.
#![tactic(auto)]

pub mod projected;
pub mod ritz_vectors;

ghost use Rattle.std.specs.Prelude.{◌≡◌, ◌+◌, ◌*◌, ◌≤◌, length};
ghost use Rattle.eigen_jacobi.specs.Eigen.{jacobi};
ghost use Rattle.eigen_jacobi.specs.inner.Call.{eigen_of};
ghost use Rattle.eigen_matrix.specs.Symmetric.{symmetrised};
ghost use Rattle.eigen_ritz.specs.Projected.{projected_matrix};
ghost use Rattle.eigen_ritz.specs.Ritz.{rayleigh_ritz};
ghost use Rattle.eigen_ritz.specs.inner.Given.{given, gives};

use eigen_matrix::square;
use outcome::Refusal;

// The eigenpairs of the small matrix: b values, and then b rows of b, go to `pairs`. t, m and v are work.
fn decompose(
    pairs: &mut [f64],
    t: &mut [f64],
    m: &mut [f64],
    v: &mut [f64],
    q: &[f64],
    aq: &[f64],
    n: usize,
    b: usize,
) -> Result<usize, Refusal>
    requires pairs_len { (length pairs.old ≡ b + b * b) × (length t.old ≡ b * b) × (length m.old ≡ b * b) × (length v.old ≡ b * b) }
    requires q_len { (length q.now ≡ b * n) × (length aq.now ≡ b * n) × (b ≤ 24) }
    ensures { eigen_of b result pairs.new ≡ jacobi b (symmetrised b (projected_matrix n b q.now aq.now)) }
{
    projected::fill_projected(t, q, aq, n, b);
    square::symmetrise(t, b);
    eigen_jacobi::eigen_within::<24>(t, b, pairs, m, v)
}

// By what Jacobi answers; `pairs` is room for the small matrix's eigenpairs, and t, m and v are work.
fn rayleigh_ritz_in(
    out: &mut [f64],
    pairs: &mut [f64],
    t: &mut [f64],
    m: &mut [f64],
    v: &mut [f64],
    q: &[f64],
    aq: &[f64],
    n: usize,
    b: usize,
    k: usize,
) -> Result<(), Refusal>
    requires pairs_len { (length pairs.old ≡ b + b * b) × (length t.old ≡ b * b) × (length m.old ≡ b * b) × (length v.old ≡ b * b) }
    requires out_len { (length out.old ≡ k + k * n) × (length q.now ≡ b * n) × (length aq.now ≡ b * n) × (k ≤ b) × (b ≤ 24) }
    ensures { given k result out.new ≡ gives k n (rayleigh_ritz n b k q.now aq.now) out.old }
{
    match decompose(pairs, t, m, v, q, aq, n, b) {
        Ok(_) => {
            ritz_vectors::turn_back(out, pairs, q, n, b, k);
            Ok(())
        }
        Err(e) => {
            out.fill(0.0);
            Err(e)
        }
    }
}

// The first k pairs that the block q with its product aq tells: k values, then k rows of n; zeros on 11.
pub fn rayleigh_ritz(
    out: &mut [f64],
    q: &[f64],
    aq: &[f64],
    n: usize,
    b: usize,
    k: usize,
) -> Result<(), Refusal>
    requires { (length out.old ≡ k + k * n) × (length q.now ≡ b * n) × (length aq.now ≡ b * n) × (k ≤ b) × (b ≤ 24) }
    ensures { given k result out.new ≡ gives k n (rayleigh_ritz n b k q.now aq.now) out.old }
{
    let s = b * b;
    let mut pairs = [0.0; 600];
    let mut t = [0.0; 576];
    let mut m = [0.0; 576];
    let mut v = [0.0; 576];
    rayleigh_ritz_in(
        out,
        &mut pairs[..b + s],
        &mut t[..s],
        &mut m[..s],
        &mut v[..s],
        q,
        aq,
        n,
        b,
        k,
    )
}
