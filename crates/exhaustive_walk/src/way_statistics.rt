// Section 6: the three statistics of one way, from what is worked out once for all ways.
ghost use Rattle.std.specs.Prelude.{◌≡◌, List, ℕ, length};
ghost use Rattle.lists.specs.inner.Numbers.{Below};
ghost use Rattle.grouping.specs.inner.Parts.{Parts, Grouped};
ghost use Rattle.outcome.specs.Numbers.{outcome_of};
ghost use Rattle.exhaustive_hits.specs.inner.WayHits.{hits_of};
ghost use Rattle.exhaustive_hits.specs.Assignments.{right_count};
ghost use Rattle.exhaustive_walk.specs.inner.WayStatistics.{barred_by, HasRoom};
ghost use Rattle.exhaustive_walk.specs.inner.OnBasis.{kept_on, location_on, dispersion_on, assignment_on, statistics_on, JudgedOn};

use crate::basis::Basis;
use dapc::checks;
use dapc_discriminant::{Separation, analysis};
use exhaustive_hits::{Hits, Seen};
use grouping::Groups;
use lot_design::kept;
use outcome::Refusal;
use permanova_dispersion::anova;
use permanova_p_values::{Both, Statistic};

// What is the same for every way: how many samples there are, in how many groups, on how many columns, of which some lead; whether `dapc` refuses these
// coordinates whatever the way; and the total.
#[derive(Clone, Copy)]
pub struct Frame {
    pub n: usize,
    pub groups: usize,
    pub columns: usize,
    pub lead: usize,
    pub barred: bool,
    pub total: f64,
}

// ---- location and dispersion

// Location of the way whose groups these are.
fn location_of(b: Basis<'_>, groups: &Groups) -> Statistic
    requires { Parts (kept_on b) b.frame.groups groups.now.starts groups.now.members }
    ensures { (way : List ℕ) → Grouped way (kept_on b.entry) b.entry.frame.groups groups.now.starts groups.now.members → result ≡ location_on b.entry way }
{
    let m = b.samples.len();
    let g = b.frame.groups;
    let inside = permanova_location::within(b.pair_terms, b.weights, m, g, groups);
    permanova_p_values::statistic_of(permanova_location::pseudo_f(b.frame.total, inside, m, g))
}

// Its dispersion, with z worked out anew. `gw`, `gi` and `z` lend room.
fn dispersion_of(
    b: Basis<'_>,
    way: &[u16],
    groups: &Groups,
    gw: &mut [f64; limits::MOST_SAMPLES],
    gi: &mut [f64; limits::MOST_SAMPLES],
    z: &mut [f64],
) -> Statistic
    requires way { (length way.now ≡ kept_on b) × Below b.frame.groups way.now }
    requires grouped { Grouped way.now (kept_on b) b.frame.groups groups.now.starts groups.now.members × (length z.old ≡ kept_on b) }
    ensures { result ≡ dispersion_on b.entry way.now }
{
    let m = b.samples.len();
    let g = b.frame.groups;
    permanova_dispersion::fill_z(
        b.weighted_squares,
        b.pair_terms,
        b.weights,
        way,
        m,
        g,
        groups,
        gw,
        gi,
        z,
    );
    permanova_p_values::statistic_of(anova::anova_f(z, way, m, g, groups, gw))
}

// Both of a way.
fn both_of(b: Basis<'_>, way: &[u16]) -> Both<Statistic>
    requires { (length way.now ≡ kept_on b) × Below b.frame.groups way.now }
    ensures { (result.location ≡ location_on b.entry way.now) × (result.dispersion ≡ dispersion_on b.entry way.now) }
{
    let m = b.samples.len();
    let mut groups = Groups::new();
    let mut gw = [0.0f64; limits::MOST_SAMPLES];
    let mut gi = [0.0f64; limits::MOST_SAMPLES];
    let mut z = [0.0f64; limits::MOST_SAMPLES];
    groups.sort(way, b.frame.groups);
    let location = location_of(b, &groups);
    let dispersion = dispersion_of(b, way, &groups, &mut gw, &mut gi, &mut z[..m]);
    Both {
        location,
        dispersion,
    }
}

// ---- assignment

// The right count of what `dapc` answers.
#[tactic(auto, unfolding(exhaustive_hits::specs::Assignments::right_count))]
fn right_of(r: Result<Separation, Refusal>) -> Option<usize>
    ensures { result ≡ right_count (outcome_of r) }
{
    r.ok().map(|s| s.right)
}

// Whether `dapc` refuses these coordinates whatever the way.
#[tactic(auto, unfolding(crate::specs::inner::WayStatistics::barred_by))]
pub fn is_barred(x: &[f64], lead: usize) -> bool
    ensures { result ≡ barred_by x.now lead }
{
    checks::beyond(x) || lead < 2
}

// The assignment of a way. `scores` lends room.
pub fn assignment_of(scores: &mut [f64], b: Basis<'_>, way: &[u16]) -> Option<usize>
    requires judged { JudgedOn b way.now }
    requires room { HasRoom b.frame (length scores.old) }
    ensures { result ≡ assignment_on b.entry way.now }
{
    let f = b.frame;
    if f.barred {
        return None;
    }
    let n = f.n;
    let mut assigned = [0u16; limits::MOST_SAMPLES];
    let mut each = [limits::NONE; limits::MOST_SAMPLES];
    kept::groups::place(&mut each[..n], b.samples, way);
    let r = analysis::discriminate(
        scores,
        &mut assigned,
        b.coords,
        &each[..n],
        f.columns,
        f.lead,
        b.samples.len(),
        f.groups,
    );
    right_of(r)
}

// ---- all three

// The three statistics of a way.
fn statistics_of(scores: &mut [f64], b: Basis<'_>, way: &[u16]) -> Seen
    requires judged { JudgedOn b way.now }
    requires room { HasRoom b.frame (length scores.old) }
    ensures { result ≡ statistics_on b.entry way.now }
{
    let both = both_of(b, way);
    let assignment = assignment_of(scores, b, way);
    Seen {
        location: both.location,
        dispersion: both.dispersion,
        assignment,
    }
}

// Whether a way is a hit of each that was observed.
pub fn hits_of_way(scores: &mut [f64], b: Basis<'_>, way: &[u16], observed: Seen) -> Hits
    requires judged { JudgedOn b way.now }
    requires room { HasRoom b.frame (length scores.old) }
    ensures { result ≡ hits_of observed (statistics_on b.entry way.now) }
{
    let found = statistics_of(scores, b, way);
    exhaustive_hits::hits_of(observed, found)
}
