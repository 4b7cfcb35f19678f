// Section 5: the Cholesky factor of a small matrix.
#![tactic(auto)]

pub mod triangular;
pub mod whitening;

ghost use Rattle.std.specs.Prelude.{◌≡◌, cond, ◌+◌, ◌*◌, ◌<◌, length, replicate};
ghost use Rattle.float.specs.Floats.{zero⁺};
ghost use Rattle.lists.specs.Loops.{in_turn};
ghost use Rattle.outcome.specs.Outcome.{passed, refused};
ghost use Rattle.outcome.specs.Numbers.{told};
ghost use Rattle.dapc_cholesky.specs.Cholesky.{reduced, chol_entry, chol_row, factor, pivot_fails};

use lists::cell;
use outcome::Refusal;

// a(i, j) less the products of row i and row j of l before column j.
fn reduce(a: &[f64], l: &[f64], p: usize, i: usize, j: usize) -> f64
    requires { (length a.now ≡ p * p) × (length l.now ≡ p * p) × (i < p) × (j < p) }
    ensures { result ≡ reduced p a.now l.now i j }
{
    let mut s = cell(a, p, i, j);
    for k in 0..j {
        s = s - cell(l, p, i, k) * cell(l, p, j, k);
    }
    s
}

// Row i of the factor below the diagonal.
fn factor_below(l: &mut [f64], a: &[f64], p: usize, i: usize)
    requires { (length a.now ≡ p * p) × (length l.old ≡ p * p) × (i < p) }
    ensures { l.new ≡ in_turn (chol_entry p a.now i) i l.old }
{
    for j in 0..i {
        let s = reduce(a, l, p, i, j);
        let d = cell(l, p, j, j);
        l[i * p + j] = s / d;
    }
}

// The root of pivot i goes on the diagonal; the pivot is returned.
fn factor_pivot(l: &mut [f64], a: &[f64], p: usize, i: usize) -> f64
    requires { (length a.now ≡ p * p) × (length l.old ≡ p * p) × (i < p) }
    ensures { (l.new ≡ chol_entry p a.now i i l.old) × (result ≡ reduced p a.now l.old i i) }
{
    let s = reduce(a, l, p, i, i);
    let r = square_root::sqrt(s);
    l[i * p + i] = r;
    s
}

// Row i of the factor; its pivot is returned.
fn factor_row(l: &mut [f64], a: &[f64], p: usize, i: usize) -> f64
    requires { (length a.now ≡ p * p) × (length l.old ≡ p * p) × (i < p) }
    ensures { (l.new ≡ chol_row p a.now i l.old) × (result ≡ reduced p a.now l.new i i) }
{
    factor_below(l, a, p, i);
    factor_pivot(l, a, p, i)
}

// The factor of a, from zeros. It is refused, with all of it in `l`, where a pivot is not above 0.
pub fn factor(l: &mut [f64], a: &[f64], p: usize) -> Result<(), Refusal>
    requires { (length a.now ≡ p * p) × (l.old ≡ replicate (p * p) zero⁺) }
    ensures { (l.new ≡ factor p a.now) × (told result ≡ cond (pivot_fails p a.now (factor p a.now)) (refused 10) passed) }
{
    let mut fails = false;
    for i in 0..p {
        let s = factor_row(l, a, p, i);
        if !(0.0 < s) {
            fails = true;
        }
    }
    if fails {
        return Err(Refusal::Pivot);
    }
    Ok(())
}
