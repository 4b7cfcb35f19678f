// Vectors lent as slices, and as rows of a matrix that is lent whole (section 4 of document 01).
#![tactic(auto)]

pub mod products;

ghost use Rattle.std.specs.Prelude.{◌≡◌, ◌+◌, ◌*◌, ◌≤◌, length};
ghost use Rattle.lists.specs.Rows.{row};
ghost use Rattle.eigen_vectors.specs.Vectors.{dot, norm, less_times, divided, projected_off, unit};
ghost use Rattle.eigen_vectors.specs.inner.Vectors.{dot_four};

use eigen_matrix::entrywise;

// ---- inner products

pub fn dot(x: &[f64], y: &[f64]) -> f64
    requires { length x.now ≡ length y.now }
    ensures { result ≡ dot x.now y.now }
{
    let mut s = -0.0;
    for (a, b) in x.iter().zip(y) {
        s = s + a * b;
    }
    s
}

// The inner products of a, b, c, d with x. Each has its own order of additions; together they do not wait on each other.
// (By places: a zip of five slices is no plainer.)
pub fn dot_four(a: &[f64], b: &[f64], c: &[f64], d: &[f64], x: &[f64]) -> [f64; 4]
    requires { (length a.now ≡ length x.now) × (length b.now ≡ length x.now) × (length c.now ≡ length x.now) × (length d.now ≡ length x.now) }
    ensures { result ≡ dot_four a.now b.now c.now d.now x.now }
{
    let mut t = -0.0;
    let mut u = -0.0;
    let mut v = -0.0;
    let mut w = -0.0;
    for k in 0..x.len() {
        let e = x[k];
        t = t + a[k] * e;
        u = u + b[k] * e;
        v = v + c[k] * e;
        w = w + d[k] * e;
    }
    [t, u, v, w]
}

pub fn norm(x: &[f64]) -> f64
    ensures { result ≡ norm x.now }
{
    square_root::sqrt(dot(x, x))
}

// Row i of a matrix and row j of another.
pub fn dot_rows(a: &[f64], b: &[f64], n: usize, i: usize, j: usize) -> f64
    requires { (i * n + n ≤ length a.now) × (j * n + n ≤ length b.now) }
    ensures { result ≡ dot (row n i a.now) (row n j b.now) }
{
    dot(&a[i * n..i * n + n], &b[j * n..j * n + n])
}

// ---- writing over a vector

pub fn less_times(x: &mut [f64], d: f64, y: &[f64])
    requires { length x.old ≡ length y.now }
    ensures { x.new ≡ less_times d x.old y.now }
{
    entrywise::rewrite(x, |i, u| u - d * y[i]);
}

// x without its part along y.
pub fn project_off(x: &mut [f64], y: &[f64])
    requires { length x.old ≡ length y.now }
    ensures { x.new ≡ projected_off y.now x.old }
{
    let d = dot(y, x);
    less_times(x, d, y);
}

// y divided by d goes to x.
pub fn put_divided(x: &mut [f64], y: &[f64], d: f64)
    requires { length x.old ≡ length y.now }
    ensures { x.new ≡ divided d y.now }
{
    entrywise::rewrite(x, |i, _| y[i] / d);
}

// y at length 1 goes to x.
pub fn put_unit(x: &mut [f64], y: &[f64])
    requires { length x.old ≡ length y.now }
    ensures { x.new ≡ unit y.now }
{
    let d = float::max(norm(y), 1e-300);
    put_divided(x, y, d);
}
