// Lines 1 to 5 of the table, and 14, in three groups: sizes, which the ordination shares, the matrix, which it shares too, and labels with their weights.
#![tactic(auto)]

ghost use Rattle.std.specs.Prelude.{◌≡◌, ◌*◌, ◌<◌, ◌&&◌, ◌||◌, not, is_some, eqb, ltb, length, get_or};
ghost use Rattle.std.specs.Float.Ieee.{le};
ghost use Rattle.lists.specs.Filters.{any, first_at};
ghost use Rattle.outcome.specs.Numbers.{told};
ghost use Rattle.outcome.specs.Refusals.{first};
ghost use Rattle.limits.specs.Limits.{none};
ghost use Rattle.lot.specs.Given.{held_by, lot_given};
ghost use Rattle.lot.specs.Kept as spec;
ghost use Rattle.lot.specs.Mirror as mirror;
ghost use Rattle.lot.specs.inner.Mirror.{row_unmirrored};
ghost use Rattle.lot.specs.Lines.{bad_weight, misfits, size_lines, matrix_lines, label_lines, test_lines};

use lot::Lot;
use lot_design::kept;
use outcome::Refusal;

// The least weight, 2 ^ -20, and the most that a weight or a distance may be, 2 ^ 20.
const LEAST: f64 = 0.00000095367431640625;

pub const MOST: f64 = 1048576.0;

// Whether a length is n times n, which may be past what a `usize` holds.
pub fn is_square(len: usize, n: usize) -> bool
    ensures { result ≡ eqb len (n * n) }
{
    if n >= 4294967296 {
        return false;
    }
    len == n * n
}

// Whether an argument that is given does not have n entries.
fn unfit<T>(given: Option<&[T]>, n: usize) -> bool
    ensures { result ≡ (is_some given.entry && not (eqb (length (held_by given.entry)) n)) }
{
    given.is_some_and(|l| l.len() != n)
}

// Whether the parts of a lot do not fit n, or a lent slice is short.
fn misfits(lot: Lot<'_>, short: bool) -> bool
    ensures { result ≡ (misfits (lot_given lot.entry) || short) }
{
    let n = lot.n;
    if !is_square(lot.distances.len(), n) {
        return true;
    }
    if lot.labels.len() != n {
        return true;
    }
    if unfit(lot.strata, n) {
        return true;
    }
    if unfit(lot.weights, n) {
        return true;
    }
    short
}

// Whether x is not within lo to hi, which a NaN is not.
fn outside(lo: f64, hi: f64, x: f64) -> bool
    ensures { result ≡ not (le lo x && le x hi) }
{
    if lo <= x {
        return !(x <= hi);
    }
    true
}

// Whether some entry is not within lo to hi.
pub fn any_outside(lo: f64, hi: f64, xs: &[f64]) -> bool
    ensures { result ≡ any (λ x. not (le lo x && le x hi)) xs.now }
{
    xs.iter().any(|x| outside(lo, hi, *x))
}

// ---- the matrix and its mirror

// Whether an entry of row i left of the diagonal differs from its mirror, or the one on the diagonal from zero. As numbers: -0.0 is 0.0.
fn row_unmirrored(distances: &[f64], n: usize, i: usize) -> bool
    requires { (length distances.now ≡ n * n) × (i < n) }
    ensures { result ≡ row_unmirrored n distances.now i }
{
    for j in 0..i {
        if lists::cell(distances, n, i, j) != lists::cell(distances, n, j, i) {
            return true;
        }
    }
    lists::cell(distances, n, i, i) != 0.0
}

// Whether some entry differs from its mirror, or some entry of the diagonal from zero. Each pair of mirrors is looked at once.
fn unmirrored(distances: &[f64], n: usize) -> bool
    requires { length distances.now ≡ n * n }
    ensures { result ≡ mirror.unmirrored n distances.now }
{
    for i in 0..n {
        if row_unmirrored(distances, n, i) {
            return true;
        }
    }
    false
}

// ---- labels and weights

// The first label that two samples have, other than l; where there is no such label, the number that the samples without a label hold.
fn other_label(labels: &[u16], l: u16) -> u16
    requires { length labels.now < 65536 }
    ensures { result ≡ get_or labels.now (first_at (λ x. not (eqb x l) && spec.twice labels.now x) labels.now) none }
{
    let first = labels
        .iter()
        .position(|x| *x != l && kept::twice(labels, *x));
    match first {
        Some(i) => labels[i],
        None => limits::NONE,
    }
}

// Whether fewer than two labels are held by two samples.
pub fn few_labels(labels: &[u16]) -> bool
    requires { length labels.now < 65536 }
    ensures { result ≡ ltb (spec.group_count labels.now) 2 }
{
    let a = other_label(labels, limits::NONE);
    other_label(labels, a) == limits::NONE
}

// Whether a weight that is given is not within 2 ^ -20 to 2 ^ 20.
fn bad_weights(weights: Option<&[f64]>) -> bool
    ensures { result ≡ (is_some weights.entry && any bad_weight (held_by weights.entry)) }
{
    weights.is_some_and(|w| any_outside(LEAST, MOST, w))
}

// ---- the groups

// Lines 1 and 2, for n samples. `misfit` says that a length does not fit n or a lent slice is short, `beyond` that another argument is beyond its limit.
pub fn check_sizes(misfit: bool, n: usize, beyond: bool) -> Result<(), Refusal>
    ensures { told result ≡ first (size_lines misfit n beyond) }
{
    if misfit {
        return Err(Refusal::Length);
    }
    if n > limits::MOST_SAMPLES {
        return Err(Refusal::Limit);
    }
    if beyond {
        return Err(Refusal::Limit);
    }
    Ok(())
}

// Lines 3 and 14, by n by n distances alone.
pub fn check_matrix(distances: &[f64], n: usize) -> Result<(), Refusal>
    requires { length distances.now ≡ n * n }
    ensures { told result ≡ first (matrix_lines n distances.now) }
{
    if any_outside(0.0, MOST, distances) {
        return Err(Refusal::Value);
    }
    if unmirrored(distances, n) {
        return Err(Refusal::Mirror);
    }
    Ok(())
}

// Lines 4 and 5.
fn check_labels(labels: &[u16], weights: Option<&[f64]>) -> Result<(), Refusal>
    requires { length labels.now < 65536 }
    ensures { told result ≡ first (label_lines labels.now (is_some weights.entry) (held_by weights.entry)) }
{
    if bad_weights(weights) {
        return Err(Refusal::Weight);
    }
    if few_labels(labels) {
        return Err(Refusal::Labels);
    }
    Ok(())
}

// The line by which the tests turn a lot away. `short` says that an output or work slice is short, `beyond` that another argument is beyond its limit.
pub fn check_lot(lot: Lot<'_>, short: bool, beyond: bool) -> Result<(), Refusal>
    ensures { told result ≡ first (test_lines (lot_given lot.entry) short beyond) }
{
    check_sizes(misfits(lot, short), lot.n, beyond)?;
    check_matrix(lot.distances, lot.n)?;
    check_labels(lot.labels, lot.weights)
}
