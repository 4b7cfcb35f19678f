// Section 4 of document 01, `jacobi_eigen`: a sweep, one rotation for each pair.
ghost use Rattle.std.specs.Prelude.{◌≡◌, ◌+◌, ◌*◌, ◌<◌, ◌≤◌, length};
ghost use Rattle.eigen_rotations.specs.Rotation.{turned};
ghost use Rattle.eigen_rotations.specs.inner.Rotation.{held};
ghost use Rattle.eigen_rotations.specs.Pairs as Pairs;
ghost use Rattle.eigen_rotations.specs.Pairs.{sweep_row};

// The rows p, held in x and y, against each later row.
fn sweep_held(m: &mut [f64], v: &mut [f64], x: &mut [f64], y: &mut [f64], n: usize, p: usize)
    requires { (length m.old ≡ n * n) × (length v.old ≡ n * n) × (length x.old ≡ n) × (length y.old ≡ n) × (p < n) }
    ensures { held n p m.new v.new x.new y.new
        ≡ sweep_row n p (held n p m.old v.old x.old y.old) }
{
    for q in p + 1..n {
        crate::rotate(m, v, x, y, n, p, q);
    }
}

// Row p against each later row. Two parts of one slice are not lent at a time, so x and y hold the rows p meanwhile.
fn sweep_row(m: &mut [f64], v: &mut [f64], x: &mut [f64], y: &mut [f64], n: usize, p: usize)
    requires { (length m.old ≡ n * n) × (length v.old ≡ n * n) × (length x.old ≡ n) × (length y.old ≡ n) × (p < n) × (p * n + n ≤ n * n) }
    ensures { turned m.new v.new ≡ sweep_row n p (turned m.old v.old) }
{
    eigen_matrix::copy_row(x, m, n, p);
    eigen_matrix::copy_row(y, v, n, p);
    sweep_held(m, v, x, y, n, p);
    eigen_matrix::put_row(m, x, n, p);
    eigen_matrix::put_row(v, y, n, p);
}

// Every pair p < q, row by row.
pub fn sweep(m: &mut [f64], v: &mut [f64], x: &mut [f64], y: &mut [f64], n: usize)
    requires { (length m.old ≡ n * n) × (length v.old ≡ n * n) × (length x.old ≡ n) × (length y.old ≡ n) }
    ensures { turned m.new v.new ≡ Pairs.sweep n (turned m.old v.old) }
{
    for p in 0..n {
        sweep_row(m, v, x, y, n, p);
    }
}
