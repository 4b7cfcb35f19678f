// Section 5: the inverse of a lower triangle on both sides of a matrix.
ghost use Rattle.std.specs.Prelude.{◌≡◌, ◌*◌, length, replicate};
ghost use Rattle.float.specs.Floats.{zero⁺};
ghost use Rattle.dapc_cholesky.specs.Whitened.{whitened};

use crate::triangular;
use eigen_matrix::square;

// The inverse of l on both sides of b, from zeros; `half` takes what is between.
pub fn whiten(m: &mut [f64], half: &mut [f64], l: &[f64], b: &[f64], p: usize)
    requires { (m.old ≡ replicate (p * p) zero⁺) × (half.old ≡ replicate (p * p) zero⁺) × (length l.now ≡ p * p) × (length b.now ≡ p * p) }
    ensures { m.new ≡ whitened p l.now b.now }
{
    triangular::solve_columns(half, l, b, p);
    triangular::solve_columns(m, l, half, p);
    square::symmetrise(m, p);
}
