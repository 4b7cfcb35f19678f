// The bound of the spectral radius of a symmetric n by n matrix, by power steps (section 4 of document 01).
ghost use Rattle.std.specs.Prelude.{◌≡◌, length};
ghost use Rattle.float.specs.Floats.{zero⁺};
ghost use Rattle.eigen_vectors.specs.Vectors.{norm};
ghost use Rattle.eigen_vectors.specs.Products.{times};
ghost use Rattle.eigen_block.specs.Power.{power_bound};

use eigen_matrix::square::Square;
use eigen_vectors::products;

// a times x goes to y; its length is returned.
fn power_step(y: &mut [f64], a: Square<'_>, x: &[f64]) -> f64
    requires { (length y.old ≡ a.n) × (length x.now ≡ a.n) }
    ensures { (y.new ≡ times a.entry.n a.entry.entries.now x.now) × (result ≡ norm (times a.entry.n a.entry.entries.now x.now)) }
{
    products::matvec(y, a, x);
    eigen_vectors::norm(y)
}

// At most 30 power steps from x. x and y are worked in.
pub fn power_bound(x: &mut [f64], y: &mut [f64], a: Square<'_>) -> f64
    requires { (length x.old ≡ a.n) × (length y.old ≡ a.n) }
    ensures { result ≡ power_bound 30 a.entry.n a.entry.entries.now zero⁺ x.old }
{
    let mut rho = 0.0;
    for _k in 0..30usize {
        rho = power_step(y, a, x);
        if rho == 0.0 {
            return rho;
        }
        eigen_vectors::put_divided(x, y, rho);
    }
    rho
}
