// Section 6: what a lot is answered on given coordinates, over every way of its labels within strata.
#![tactic(auto)]

pub mod clearing;
pub mod ordination;

ghost use Rattle.std.specs.Prelude.{◌≡◌, length};
ghost use Rattle.lot.specs.Lot.{Lot};
ghost use Rattle.permanova_statistics.specs.inner.Observed.{observed_of};
ghost use Rattle.exhaustive_walk.specs.inner.WayStatistics.{frame_of, HasRoom};
ghost use Rattle.exhaustive_walk.specs.inner.OnBasis.{assignment_on, JudgedOn};
ghost use Rattle.exhaustive_answer.specs.inner.Counted.{seen_by, counted_of};
ghost use Rattle.exhaustive_answer.specs.inner.Answering.{Answerable, Answering, Owns, Answers};

use eigen_top::checks;
use exhaustive_hits::Seen;
use exhaustive_hits::judgement::{Counted, Judgement};
use exhaustive_walk::basis::Basis;
use exhaustive_walk::way_statistics::Frame;
use exhaustive_walk::{hit_counts, way_statistics};
use lot_design::Design;
use permanova_statistics::observation::Observed;
use permanova_statistics::{observation, summary};

// What is the same for every way of a design's labels, on coordinates x.
fn frame_of(d: Design, x: &[f64], total: f64) -> Frame
    ensures { result ≡ frame_of d.n d.kept d.groups x.now total }
{
    let columns = checks::components_used(8, d.n);
    let lead = dapc_discriminant::columns_used(columns, d.kept, d.groups);
    Frame {
        n: d.n,
        groups: d.groups,
        columns,
        lead,
        barred: way_statistics::is_barred(x, lead),
        total,
    }
}

// The three statistics of the observed way, two of which are at hand.
fn see(scores: &mut [f64], b: Basis<'_>, gs: &[u16], o: Observed) -> Seen
    requires judged { JudgedOn b gs.now }
    requires room { HasRoom b.frame (length scores.old) }
    ensures { result ≡ seen_by o (assignment_on b.entry gs.now) }
{
    Seen {
        location: permanova_p_values::statistic_of(o.f),
        dispersion: permanova_p_values::statistic_of(o.disp_f),
        assignment: way_statistics::assignment_of(scores, b, gs),
    }
}

// They and their hits among all ways. `label_counts` and `scores` lend room.
fn count(
    d: Design,
    p: &[f64],
    t: &[f64],
    w: &[f64],
    x: &[f64],
    o: Observed,
    label_counts: &mut [u16],
    scores: &mut [f64],
) -> Counted
    requires { Answerable d p.now t.now w.now x.now (length label_counts.old) (length scores.old) }
    ensures { (lot : Lot) → Owns lot d p.now t.now w.now → o ≡ observed_of lot → result ≡ counted_of lot x.now }
{
    let m = d.kept;
    let ks = &d.samples[..m];
    let gs = &d.group[..m];
    let ss = &d.stratum[..m];
    let basis = Basis {
        frame: frame_of(d, x, o.total),
        pair_terms: t,
        weighted_squares: p,
        weights: w,
        coords: x,
        samples: ks,
    };
    let seen = see(scores, basis, gs, o);
    let hits = hit_counts::count_hits(label_counts, scores, ss, gs, basis, seen);
    Counted { seen, hits }
}

// The answer for the lot that a design describes, over its weighted squares p, terms t and weights w, on coordinates x of all its samples. `ways` is M. Each group's count
// and mean z go to the fronts of the outputs; `label_counts` and `scores` lend room, and are left as they come.
pub fn answer(
    d: Design,
    ways: usize,
    p: &[f64],
    t: &[f64],
    w: &[f64],
    x: &[f64],
    counts: &mut [u16],
    means: &mut [f64],
    label_counts: &mut [u16],
    scores: &mut [f64],
) -> Judgement
    requires { Answering d ways p.now t.now w.now x.now (length label_counts.old) (length scores.old) (length counts.old) (length means.old) }
    ensures { (lot : Lot) → Owns lot d p.now t.now w.now
        → Answers lot x.now counts.old means.old counts.new means.new result }
{
    let g = d.groups;
    let mut z = [0.0f64; limits::MOST_SAMPLES];
    let o = observation::observe(d, p, t, w, &mut z, counts, means);
    let c = count(d, p, t, w, x, o, label_counts, scores);
    let s = summary::summarise(d, o, &counts[..g], 0);
    exhaustive_hits::judgement::conclude(s, ways, c)
}
