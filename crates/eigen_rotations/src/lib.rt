// Section 4 of document 01, `jacobi_eigen`: one rotation.
#![tactic(auto)]

pub mod diagonal;
pub mod sweep;

ghost use Rattle.std.specs.Prelude.{◌≡◌, ◌+◌, ◌*◌, ◌<◌, ◌≤◌, length};
ghost use mathlib.Core.List.{zip_with};
ghost use Rattle.lists.specs.Rows.{row, put_row};
ghost use Rattle.eigen_rotations.specs.Rotation as Rotation;
ghost use Rattle.eigen_rotations.specs.Rotation.{turn_first, turn_second, turn_entries, turn_columns, turn_pair};
ghost use Rattle.eigen_rotations.specs.inner.Rotation.{held};

// A rotation of the pair p, q, by its cosine c and its sine s.
#[derive(Clone, Copy)]
struct PlaneRotation {
    p: usize,
    q: usize,
    c: f64,
    s: f64,
}

// Entries p and q of one row.
fn rotate_in_row(row: &mut [f64], r: PlaneRotation)
    requires { (r.p < length row.old) × (r.q < length row.old) }
    ensures { row.new ≡ turn_entries r.p r.q r.c r.s row.old }
{
    let x = row[r.p];
    let y = row[r.q];
    row[r.p] = r.c * x - r.s * y;
    row[r.q] = r.s * x + r.c * y;
}

// Columns p and q: those entries of each row.
fn rotate_columns(m: &mut [f64], n: usize, r: PlaneRotation)
    requires { (length m.old ≡ n * n) × (r.p < n) × (r.q < n) }
    ensures { m.new ≡ turn_columns n r.p r.q r.c r.s m.old }
{
    for i in 0..n {
        rotate_in_row(&mut m[i * n..i * n + n], r);
    }
}

// Each entry of x against that of y.
fn rotate_pair(x: &mut [f64], y: &mut [f64], r: PlaneRotation)
    requires { length x.old ≡ length y.old }
    ensures { (x.new ≡ zip_with (turn_first r.c r.s) x.old y.old)
        × (y.new ≡ zip_with (turn_second r.c r.s) x.old y.old) }
{
    for k in 0..x.len() {
        let a = x[k];
        let b = y[k];
        x[k] = r.c * a - r.s * b;
        y[k] = r.s * a + r.c * b;
    }
}

// A row that is held apart against row q.
fn rotate_rows(x: &mut [f64], m: &mut [f64], n: usize, r: PlaneRotation)
    requires { (length x.old ≡ n) × (r.q * n + n ≤ length m.old) }
    ensures { (x.new ≡ zip_with (turn_first r.c r.s) x.old (row n r.q m.old))
        × (m.new ≡ put_row n r.q (zip_with (turn_second r.c r.s) x.old (row n r.q m.old)) m.old) }
{
    rotate_pair(x, &mut m[r.q * n..r.q * n + n], r);
}

// Columns and rows p and q of the matrix, and rows p and q of the vectors. x and y hold the rows p.
// (m, v, x and y stay four parameters: parts of what a caller lends as `&mut`, and a struct of them would have to say at each step that they stay its own.)
fn turn(m: &mut [f64], v: &mut [f64], x: &mut [f64], y: &mut [f64], n: usize, r: PlaneRotation)
    requires { (length m.old ≡ n * n) × (length v.old ≡ n * n) × (length x.old ≡ n) × (length y.old ≡ n) × (r.p < r.q) × (r.q < n) }
    ensures { held n r.p m.new v.new x.new y.new
        ≡ turn_pair n r.p r.q r.c r.s (held n r.p m.old v.old x.old y.old) }
{
    rotate_columns(m, n, r);
    rotate_in_row(x, r);
    rotate_rows(x, m, n, r);
    rotate_rows(y, v, n, r);
}

// The tangent of the angle that makes the entry apq zero.
fn tangent(app: f64, aqq: f64, apq: f64) -> f64
    ensures { result ≡ Rotation.tangent app aqq apq }
{
    let theta = (aqq - app) / (2.0 * apq);
    if theta == 0.0 {
        return 1.0;
    }
    float::signum(theta) / (float::abs(theta) + square_root::sqrt(theta * theta + 1.0))
}

// The cosine of the angle with tangent t.
fn cosine(t: f64) -> f64
    ensures { result ≡ Rotation.cosine t }
{
    1.0 / square_root::sqrt(t * t + 1.0)
}

// The rotation of the pair p, q. x and y hold the rows p.
pub fn rotate(
    m: &mut [f64],
    v: &mut [f64],
    x: &mut [f64],
    y: &mut [f64],
    n: usize,
    p: usize,
    q: usize,
)
    requires { (length m.old ≡ n * n) × (length v.old ≡ n * n) × (length x.old ≡ n) × (length y.old ≡ n) × (p < q) × (q < n) }
    ensures { held n p m.new v.new x.new y.new
        ≡ Rotation.rotate n p q (held n p m.old v.old x.old y.old) }
{
    let apq = x[q];
    if float::abs(apq) < 1e-300 {
        return;
    }
    let t = tangent(x[p], m[q * n + q], apq);
    let c = cosine(t);
    let r = PlaneRotation { p, q, c, s: t * c };
    turn(m, v, x, y, n, r);
}
