// Section 5: solving with a lower triangle, and with its transpose.
ghost use Rattle.std.specs.Prelude.{◌≡◌, ◌+◌, ◌*◌, ◌<◌, ◌≤◌, length, replicate};
ghost use Rattle.float.specs.Floats.{zero⁺};
ghost use Rattle.lists.specs.Ranges.{table};
ghost use Rattle.lists.specs.Rows.{entry};
ghost use Rattle.dapc_cholesky.specs.Triangular.{lower_at, solve_lower, upper_at, solve_upper, solve_rows, solve_columns};

use lists::cell;

// ---- solving from above

fn lower_at(l: &[f64], b: &[f64], p: usize, c: usize, x: &[f64], i: usize) -> f64
    requires { (length l.now ≡ p * p) × (length b.now ≡ p * p) × (length x.now ≡ p) × (c < p) × (i < p) }
    ensures { result ≡ lower_at p l.now (table p (λ k. entry p b.now k c)) i x.now }
{
    let mut s = cell(b, p, i, c);
    for k in 0..i {
        s = s - cell(l, p, i, k) * x[k];
    }
    s / cell(l, p, i, i)
}

// l x = column c of b, from zeros.
fn solve_lower(x: &mut [f64], l: &[f64], b: &[f64], p: usize, c: usize)
    requires { (length l.now ≡ p * p) × (length b.now ≡ p * p) × (x.old ≡ replicate p zero⁺) × (c < p) }
    ensures { x.new ≡ solve_lower p l.now (table p (λ k. entry p b.now k c)) }
{
    for i in 0..p {
        let v = lower_at(l, b, p, c, x, i);
        x[i] = v;
    }
}

// Each column of b so, as a row, from zeros.
pub fn solve_columns(dst: &mut [f64], l: &[f64], b: &[f64], p: usize)
    requires { (dst.old ≡ replicate (p * p) zero⁺) × (length l.now ≡ p * p) × (length b.now ≡ p * p) }
    ensures { dst.new ≡ solve_columns p l.now b.now }
{
    for c in 0..p {
        solve_lower(&mut dst[c * p..c * p + p], l, b, p, c);
    }
}

// ---- solving from below

fn upper_at(l: &[f64], b: &[f64], p: usize, x: &[f64], i: usize) -> f64
    requires { (length l.now ≡ p * p) × (length b.now ≡ p) × (length x.now ≡ p) × (i < p) }
    ensures { result ≡ upper_at p l.now b.now i x.now }
{
    let mut s = b[i];
    for k in i + 1..p {
        s = s - cell(l, p, k, i) * x[k];
    }
    s / cell(l, p, i, i)
}

// The transpose of l times x = b, from zeros.
fn solve_upper(x: &mut [f64], l: &[f64], b: &[f64], p: usize)
    requires { (length l.now ≡ p * p) × (length b.now ≡ p) × (x.old ≡ replicate p zero⁺) }
    ensures { x.new ≡ solve_upper p l.now b.now }
{
    for i in (0..p).rev() {
        let v = upper_at(l, b, p, x, i);
        x[i] = v;
    }
}

// The first k rows of b so, from zeros.
pub fn solve_rows(dst: &mut [f64], k: usize, l: &[f64], b: &[f64], p: usize)
    requires { (dst.old ≡ replicate (k * p) zero⁺) × (length l.now ≡ p * p) × (length b.now ≡ p * p) × (k ≤ p) }
    ensures { dst.new ≡ solve_rows k p l.now b.now }
{
    for c in 0..k {
        solve_upper(&mut dst[c * p..c * p + p], l, &b[c * p..c * p + p], p);
    }
}
