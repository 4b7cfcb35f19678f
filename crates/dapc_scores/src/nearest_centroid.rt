// Section 5: the nearest centroid of each sample, and how many samples were found to be in their own group.
ghost use Rattle.std.specs.Prelude.{◌≡◌, ◌||◌, cond, ◌+◌, ◌*◌, ◌<◌, ◌≤◌, eqb, length};
ghost use Rattle.std.specs.Float.Ieee.{lt, is_nan};
ghost use Rattle.outcome.specs.Outcome.{passed, refused};
ghost use Rattle.outcome.specs.Numbers.{told};
ghost use Rattle.lists.specs.Filters.{any};
ghost use Rattle.lists.specs.Rows.{entry};
ghost use Rattle.dapc_scores.specs.Assigned.{gap, gaps, nearest_of, assigned_of, unordered, right_of};

use dapc_scatter::samples::Samples;
use outcome::Refusal;

// The squared distance of two rows.
fn gap_between(x: &[f64], y: &[f64]) -> f64
    requires { length y.now ≡ length x.now }
    ensures { result ≡ gap (length x.now) x.now y.now 0 0 }
{
    let mut s = -0.0;
    // By an index: rows are short, and with a zip `dapc` of many groups takes a third longer.
    for k in 0..x.len() {
        let d = x[k] - y[k];
        s = s + d * d;
    }
    s
}

// The nearest group so far, its distance, and whether a distance was a NaN. The group is told in both cases, since `assign` writes it in both.
#[derive(Clone, Copy)]
struct Best {
    group: usize,
    gap: f64,
    unordered: bool,
}

// Group j, at distance d, is nearer only if d is less.
fn nearer(b: Best, j: usize, d: f64) -> Best
    ensures { (result.group ≡ cond (lt d b.gap) j b.group) × (result.gap ≡ cond (lt d b.gap) d b.gap) × (result.unordered ≡ (b.unordered || is_nan d)) }
{
    let unordered = b.unordered || d.is_nan();
    if d < b.gap {
        Best {
            group: j,
            gap: d,
            unordered,
        }
    } else {
        Best { unordered, ..b }
    }
}

// The nearest of g centroids to a row of scores.
fn nearest(row: &[f64], cen: &[f64], axes: usize, g: usize) -> Best
    requires { (length row.now ≡ axes) × (length cen.now ≡ g * axes) × (0 < g) }
    ensures { (result.group ≡ nearest_of (gaps axes g row.now cen.now 0)) × (result.group < g) × (result.unordered ≡ any is_nan (gaps axes g row.now cen.now 0)) }
{
    let first = gap_between(row, &cen[..axes]);
    let mut b = Best {
        group: 0,
        gap: first,
        unordered: first.is_nan(),
    };
    for j in 1..g {
        let d = gap_between(row, &cen[j * axes..j * axes + axes]);
        b = nearer(b, j, d);
    }
    b
}

// How many samples were found to be in their own group, and a refusal where a distance is a NaN.
#[derive(Clone, Copy)]
pub struct Tally {
    pub right: usize,
    pub ordered: Result<(), Refusal>,
}

// The nearest group of each sample that has a group goes to `found`, and none of the others. All of `found` is written and counted where a distance is a
// NaN too.
pub fn assign(found: &mut [u16], scores: &[f64], cen: &[f64], samples: Samples) -> Tally
    requires { (length found.old ≡ length samples.groups.now) × (length scores.now ≡ length samples.groups.now * samples.sizes.axes)
        × (length cen.now ≡ samples.sizes.groups * samples.sizes.axes) }
    ensures { let s = samples.entry in (found.new ≡ assigned_of (length s.groups.now) s.sizes.axes s.sizes.groups s.groups.now scores.now cen.now)
        × (result.right ≡ right_of s.groups.now found.new)
        × (told result.ordered ≡ cond (unordered s.sizes.axes s.sizes.groups s.groups.now scores.now cen.now) (refused 11) passed) }
{
    let axes = samples.sizes.axes;
    let mut right = 0;
    let mut unordered = false;
    for i in 0..samples.groups.len() {
        match samples.group(i) {
            None => found[i] = limits::NONE,
            Some(j) => {
                let row = &scores[i * axes..i * axes + axes];
                let b = nearest(row, cen, axes, samples.sizes.groups);
                let k = b.group;
                found[i] = k as u16;
                right += usize::from(k == j);
                unordered |= b.unordered;
            }
        }
    }
    let ordered = if unordered {
        Err(Refusal::Unordered)
    } else {
        Ok(())
    };
    Tally { right, ordered }
}
