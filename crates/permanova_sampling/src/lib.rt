// Both p of a lot, and what the sampled test answers (document 01, section 8).
#![tactic(auto)]

pub mod hits;

ghost use Rattle.std.specs.Prelude.{◌≡◌, ℕ, ◌≤◌, length};
ghost use Rattle.limits.specs.Limits.{most_shuffles};
ghost use Rattle.lot.specs.Lot.{Lot};
ghost use Rattle.lot_design.specs.inner.Designs.{Sound};
ghost use Rattle.permanova_sampling.specs.inner.Drawn.{drawn};
ghost use Rattle.permanova_sampling.specs.inner.Hits.{Drawing};
ghost use Rattle.permanova_sampling.specs.inner.Neither.{neither, both};
ghost use Rattle.permanova_sampling.specs.Tested.{tested};
ghost use Rattle.permanova_sampling.specs.inner.Tested.{p_values_of};
ghost use Rattle.permanova_sampling.specs.inner.Measurement as room;

use crate::hits::{Draws, Terms};
use lot_design::Design;
use permanova_p_values::{Both, Statistic};
use permanova_statistics::observation;
use permanova_statistics::observation::Observed;
use permanova_statistics::summary::Summary;

// What the test answers.
#[derive(Clone, Copy)]
pub struct TestResult {
    // kept samples, groups, r2, the informative fraction, warnings
    pub summary: Summary,
    // PERMANOVA: F and p
    pub f: f64,
    pub p: Option<f64>,
    // PERMDISP: F and p
    pub disp_f: f64,
    pub disp_p: Option<f64>,
    pub strata_used: bool,
    pub weighted: bool,
}

// Whether neither statistic can have a p, whatever the hits: the strata tell nothing, or both are unbounded.
#[tactic(auto, unfolding(crate::specs::inner::Neither::neither))]
fn neither(none: bool, seen: Both<Statistic>) -> bool
    ensures { result ≡ neither none seen.location seen.dispersion }
{
    match (seen.location, seen.dispersion) {
        (Statistic::Unbounded, Statistic::Unbounded) => true,
        _ => none,
    }
}

// Both p, from the hits of the shuffles of a design.
fn p_values_drawn(
    d: Design,
    over: Terms<'_>,
    none: bool,
    seen: Both<Statistic>,
    draws: Draws,
) -> Both<Option<f64>>
    requires { Drawing d over.pair_terms.now over.weights.now over.z.now × (draws.many ≤ most_shuffles) }
    ensures { result ≡ both none seen (drawn d over.entry.pair_terms.now over.entry.weights.now over.entry.z.now seen over.entry.total draws) draws.many }
{
    let h = hits::draw(d, over, seen, draws);
    Both {
        location: permanova_p_values::p_value_of(none, seen.location, h.location, draws.many),
        dispersion: permanova_p_values::p_value_of(none, seen.dispersion, h.dispersion, draws.many),
    }
}

// Both p of the lot that a design describes, over its terms t, weights w and the observed z. Where neither can have one, no shuffle is made.
fn p_values_of(
    d: Design,
    t: &[f64],
    w: &[f64],
    z: &[f64],
    o: Observed,
    draws: Draws,
) -> Both<Option<f64>>
    requires { Drawing d t.now w.now z.now × (draws.many ≤ most_shuffles) }
    ensures { (lot : Lot) → room.Seen lot d t.now w.now z.now o → result ≡ p_values_of lot draws.seed draws.many }
{
    let seen = Both {
        location: permanova_p_values::statistic_of(o.f),
        dispersion: permanova_p_values::statistic_of(o.disp_f),
    };
    let none = permanova_p_values::uninformed(d.stratified, d.informing);
    if neither(none, seen) {
        return Both {
            location: None,
            dispersion: None,
        };
    }
    let over = Terms {
        pair_terms: t,
        weights: w,
        total: o.total,
        z,
    };
    p_values_drawn(d, over, none, seen, draws)
}

// The answer, from what was observed and both p. `counts` are the groups' sizes.
fn conclude(
    d: Design,
    weighted: bool,
    o: Observed,
    counts: &[u16],
    c: Both<Option<f64>>,
) -> TestResult
    requires { Sound d }
    ensures { (lot : Lot) (seed n : ℕ) → room.Concludes lot seed n d weighted o counts.now c → result ≡ tested lot seed n }
{
    let p = c.location;
    let q = c.dispersion;
    let more = permanova_p_values::together_of(counts, p, q);
    let summary = permanova_statistics::summary::summarise(d, o, counts, more);
    TestResult {
        summary,
        f: o.f,
        p,
        disp_f: o.disp_f,
        disp_p: q,
        strata_used: d.stratified,
        weighted,
    }
}

// The answer for the lot that a design describes, over its weighted squares p, terms t and weights w. Each group's count and mean z go to the fronts of the outputs.
pub fn answer(
    d: Design,
    weighted: bool,
    p: &[f64],
    t: &[f64],
    w: &[f64],
    draws: Draws,
    counts: &mut [u16],
    means: &mut [f64],
) -> TestResult
    requires { room.Measuring d p.now t.now w.now draws (length counts.old) (length means.old) }
    ensures { (lot : Lot) → room.Measures lot d weighted p.now t.now w.now
        → room.Answers lot draws counts.old means.old counts.new means.new result }
{
    let m = d.kept;
    let g = d.groups;
    let mut z = [0.0f64; limits::MOST_SAMPLES];
    let o = observation::observe(d, p, t, w, &mut z, counts, means);
    let c = p_values_of(d, t, w, &z[..m], o, draws);
    conclude(d, weighted, o, &counts[..g], c)
}
