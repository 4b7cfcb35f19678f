// Section 4 of document 01: the eigenpairs of the largest values up to n = 64, by Jacobi.
ghost use Rattle.std.specs.Prelude.{◌≡◌, ◌++◌, ◌+◌, ◌*◌, ◌≤◌, length, take, drop};
ghost use Rattle.eigen_ritz.specs.inner.Given.{given, gives};
ghost use Rattle.eigen_top.specs.Leading.{leading};

use eigen_matrix::entrywise;
use outcome::Refusal;

// The first k values and the first k rows of n, of all the eigenpairs.
fn copy_leading(out: &mut [f64], pairs: &[f64], n: usize, k: usize)
    requires { (length out.old ≡ k + k * n) × (length pairs.now ≡ n + n * n) × (k ≤ n) }
    ensures { out.new ≡ take k pairs.now ++ take (k * n) (drop n pairs.now) }
{
    entrywise::copy(&mut out[..k], &pairs[..k]);
    entrywise::copy(&mut out[k..], &pairs[n..n + k * n]);
}

// `pairs`, `m` and `v` are work.
pub fn by_jacobi(
    out: &mut [f64],
    pairs: &mut [f64],
    m: &mut [f64],
    v: &mut [f64],
    a: &[f64],
    n: usize,
    k: usize,
) -> Result<(), Refusal>
    requires { (length out.old ≡ k + k * n) × (length pairs.old ≡ n + n * n) × (length m.old ≡ n * n) × (length v.old ≡ n * n) × (length a.now ≡ n * n) × (n ≤ 64) × (k ≤ n) }
    ensures { given k result out.new ≡ gives k n (leading k n a.now) out.old }
{
    match eigen_jacobi::eigen_within::<64>(a, n, pairs, m, v) {
        Ok(_) => {
            copy_leading(out, pairs, n, k);
            Ok(())
        }
        Err(e) => {
            out.fill(0.0);
            Err(e)
        }
    }
}
