// Section 4 of document 01, `jacobi_eigen`: the sweeps from a matrix and the identity, and the diagonal that they leave.
ghost use Rattle.std.specs.Prelude.{◌≡◌, ◌*◌, ◌<◌, length};
ghost use Rattle.lists.specs.Ranges.{table};
ghost use Rattle.lists.specs.Sums.{sum_from};
ghost use Rattle.eigen_rotations.specs.Rotation.{turned};
ghost use Rattle.eigen_rotations.specs.Sweeps.{squares_but, off_diagonal, swept, sweeps_from};
ghost use Rattle.eigen_rotations.specs.Diagonal.{unit, identity, diagonal};

use crate::sweep;
use eigen_matrix::entrywise;

// ---- the sweeps

// The squares of a row but for entry i, added to `sum`.
fn off_in_row(row: &[f64], i: usize, sum: f64) -> f64
    ensures { result ≡ sum_from sum (squares_but i row.now) }
{
    let mut t = sum;
    for (j, e) in row.iter().enumerate() {
        if j != i {
            t = t + e * e;
        }
    }
    t
}

// The sum of squared off-diagonal entries.
fn off_diagonal(m: &[f64], n: usize) -> f64
    requires { length m.now ≡ n * n }
    ensures { result ≡ off_diagonal n m.now }
{
    let mut t = -0.0;
    for i in 0..n {
        t = off_in_row(&m[i * n..i * n + n], i, t);
    }
    t
}

// At most 100 sweeps; none once the off-diagonal sum is below 1e-22. x and y are scratch rows. Gives how many sweeps were made.
fn sweep_all(m: &mut [f64], v: &mut [f64], x: &mut [f64], y: &mut [f64], n: usize) -> usize
    requires { (length m.old ≡ n * n) × (length v.old ≡ n * n) × (length x.old ≡ n) × (length y.old ≡ n) }
    ensures { swept result (turned m.new v.new) ≡ sweeps_from 100 n 0 (turned m.old v.old) }
{
    for made in 0..100 {
        if off_diagonal(m, n) < 1e-22 {
            return made;
        }
        sweep::sweep(m, v, x, y, n);
    }
    100
}

// ---- the start and the end

// Row i of the identity.
fn fill_unit(row: &mut [f64], i: usize)
    requires { i < length row.old }
    ensures { row.new ≡ table (length row.old) (unit i) }
{
    row.fill(0.0);
    row[i] = 1.0;
}

// The vectors at the start.
fn fill_identity(v: &mut [f64], n: usize)
    requires { length v.old ≡ n * n }
    ensures { v.new ≡ identity n }
{
    eigen_matrix::fill_rows(v, n, n, |i, row| fill_unit(row, i));
}

// The diagonal goes to d.
fn gather_diagonal(d: &mut [f64], m: &[f64], n: usize)
    requires { (length d.old ≡ n) × (length m.now ≡ n * n) }
    ensures { d.new ≡ diagonal n m.now }
{
    for i in 0..n {
        d[i] = m[i * n + i];
    }
}

// All the sweeps, from a and the identity. The diagonal goes to x. Gives how many sweeps were made.
pub fn diagonalise(
    m: &mut [f64],
    v: &mut [f64],
    x: &mut [f64],
    y: &mut [f64],
    a: &[f64],
    n: usize,
) -> usize
    requires { (length m.old ≡ n * n) × (length v.old ≡ n * n) × (length x.old ≡ n) × (length y.old ≡ n) × (length a.now ≡ n * n) }
    ensures { (swept result (turned m.new v.new) ≡ sweeps_from 100 n 0 (turned a.now (identity n)))
        × (x.new ≡ diagonal n m.new) }
{
    entrywise::copy(m, a);
    fill_identity(v, n);
    let made = sweep_all(m, v, x, y, n);
    gather_diagonal(x, m, n);
    made
}
