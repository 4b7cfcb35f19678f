// A square matrix lent as one slice, row by row: its trace, and made symmetric; the struct that says so of one that is read.
ghost use Rattle.std.specs.Prelude.{◌≡◌, ◌+◌, ◌*◌, ◌<◌, length};
ghost use Rattle.eigen_matrix.specs.Trace.{trace};
ghost use Rattle.eigen_matrix.specs.Symmetric.{symmetrised};
ghost use Rattle.eigen_matrix.specs.inner.Symmetric.{evened, evened_row};

// One that is read: n rows of n entries.
#[derive(Clone, Copy)]
pub struct Square<'a> {
    pub entries: &'a [f64],
    pub n: usize,
    pub ghost sized: { length entries.now ≡ n * n },
}

// The sum of the diagonal.
pub fn trace(b: &[f64], n: usize) -> f64
    requires { length b.now ≡ n * n }
    ensures { result ≡ trace n b.now }
{
    let mut s = -0.0;
    for i in 0..n {
        s = s + b[i * n + i];
    }
    s
}

// Entries i, j and j, i become their mean.
fn even(t: &mut [f64], p: usize, i: usize, j: usize)
    requires { (i * p + j < length t.old) × (j * p + i < length t.old) }
    ensures { t.new ≡ evened p i j t.old }
{
    let x = (t[i * p + j] + t[j * p + i]) / 2.0;
    t[i * p + j] = x;
    t[j * p + i] = x;
}

// Those of row i, right of the diagonal.
fn even_row(m: &mut [f64], p: usize, i: usize)
    requires { (length m.old ≡ p * p) × (i < p) }
    ensures { m.new ≡ evened_row p i m.old }
{
    for j in i + 1..p {
        even(m, p, i, j);
    }
}

// All of them.
pub fn symmetrise(m: &mut [f64], p: usize)
    requires { length m.old ≡ p * p }
    ensures { m.new ≡ symmetrised p m.old }
{
    for i in 0..p {
        even_row(m, p, i);
    }
}
