// An n by n matrix times columns of n entries (section 4 of document 01). A block of b columns is lent as one slice.
ghost use Rattle.std.specs.Prelude.{◌≡◌, ◌+◌, ◌*◌, ◌<◌, ◌≤◌, length, set};
ghost use Rattle.lists.specs.Loops.{from_to};
ghost use Rattle.lists.specs.Rows.{row};
ghost use Rattle.eigen_vectors.specs.Vectors.{dot};
ghost use Rattle.eigen_vectors.specs.inner.Vectors.{dot_four};
ghost use Rattle.eigen_vectors.specs.Products.{times, times_block};

use eigen_matrix::square::Square;

// The inner products of x with four rows of a, from row i on.
fn dot_four_rows(a: &[f64], n: usize, i: usize, x: &[f64]) -> [f64; 4]
    requires { (i + 4 ≤ n) × ((i + 4) * n ≤ length a.now) × (length x.now ≡ n) }
    ensures { result ≡ dot_four (row n i a.now) (row n (i + 1) a.now) (row n (i + 2) a.now) (row n (i + 3) a.now) x.now }
{
    let j = i + 1;
    let k = i + 2;
    let l = i + 3;
    crate::dot_four(
        &a[i * n..i * n + n],
        &a[j * n..j * n + n],
        &a[k * n..k * n + n],
        &a[l * n..l * n + n],
        x,
    )
}

// The entries of the product from one on.
fn last_products(y: &mut [f64], a: &[f64], n: usize, x: &[f64], from: usize)
    requires { (length y.old ≡ n) × (length a.now ≡ n * n) × (length x.now ≡ n) × (from ≤ n) }
    ensures { y.new ≡ from_to (λ k l. set l k (dot (row n k a.now) x.now)) from n y.old }
{
    for i in from..n {
        y[i] = crate::dot(&a[i * n..i * n + n], x);
    }
}

// a times x goes to y: four entries at a time, and then the last.
pub fn matvec(y: &mut [f64], a: Square<'_>, x: &[f64])
    requires { (length y.old ≡ a.n) × (length x.now ≡ a.n) }
    ensures { y.new ≡ times a.entry.n a.entry.entries.now x.now }
{
    let n = a.n;
    for k in 0..n / 4 {
        let i = 4 * k;
        y[i..i + 4].copy_from_slice(&dot_four_rows(a.entries, n, i, x));
    }
    last_products(y, a.entries, n, x, n / 4 * 4);
}

// a times each column of q goes to z.
pub fn matvec_block(z: &mut [f64], a: Square<'_>, q: &[f64], b: usize)
    requires { (length z.old ≡ b * a.n) × (length q.now ≡ b * a.n) }
    ensures { z.new ≡ times_block a.entry.n a.entry.entries.now b q.now }
{
    let n = a.n;
    eigen_matrix::fill_rows(z, b, n, |c, column| matvec(column, a, &q[c * n..c * n + n]));
}
