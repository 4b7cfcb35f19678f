// How many shuffles are hits (document 01, section 8).
ghost use Rattle.std.specs.Prelude.{◌≡◌, List, ℕ, ◌+◌, ◌*◌, ◌<◌, ◌≤◌, length};
ghost use Rattle.grouping.specs.inner.Parts.{Grouped};
ghost use Rattle.limits.specs.Limits.{most_shuffles};
ghost use Rattle.permanova_dispersion.specs.Anova.{grand_mean};
ghost use Rattle.shuffle.specs.inner.Parted.{shuffled_by};
ghost use Rattle.permanova_sampling.specs.inner.Drawn.{location_hit, dispersion_hit, hits_among, drawn};
ghost use Rattle.permanova_sampling.specs.inner.Hits.{PairTerms, Assigned, Sampling, ShufflesLabels, Drawing};

use grouping::Groups;
use lot::Shape;
use lot_design::Design;
use permanova_dispersion::anova;
use permanova_p_values::{Both, Statistic};

// What the hits of shuffles are counted over: the pair terms and the weights of the kept samples, the total over both, and the observed z.
#[derive(Clone, Copy)]
pub struct Terms<'a> {
    pub pair_terms: &'a [f64],
    pub weights: &'a [f64],
    pub total: f64,
    pub z: &'a [f64],
}

// How many shuffles there are, and from which seed.
#[derive(Clone, Copy)]
pub struct Draws {
    pub seed: u64,
    pub many: u64,
}

// Shuffle i of the labels `gs` within the parts of `strata` goes to `lab`, and the members of its groups become the parts of `groups`.
fn shuffle_labels(
    lab: &mut [u16],
    groups: &mut Groups,
    gs: &[u16],
    strata: &Groups,
    sizes: Shape,
    seed: u64,
    i: u64,
)
    requires { Sampling sizes gs.now strata.now.starts strata.now.members × (length lab.old ≡ sizes.kept) }
    ensures { ShufflesLabels sizes (shuffled_by strata.now.starts strata.now.members sizes.strata gs.now seed i) lab.new groups.new.starts groups.new.members }
{
    shuffle::shuffle_again(lab, gs, strata, sizes.strata, seed, i);
    groups.sort(lab, sizes.groups);
}

// Whether labels with these groups are a hit of the observed location.
fn location_hit(over: Terms<'_>, groups: &Groups, sizes: Shape, observed: Statistic) -> bool
    requires { (length over.pair_terms.now ≡ sizes.kept * sizes.kept) × (length over.weights.now ≡ sizes.kept)
        × ((lab : List ℕ) × Assigned sizes lab groups.now.starts groups.now.members) }
    ensures { (lab : List ℕ) → Grouped lab sizes.kept sizes.groups groups.now.starts groups.now.members
        → result ≡ location_hit over.entry.pair_terms.now over.entry.weights.now sizes observed over.entry.total lab }
{
    let m = sizes.kept;
    let g = sizes.groups;
    let inside = permanova_location::within(over.pair_terms, over.weights, m, g, groups);
    let f = permanova_location::pseudo_f(over.total, inside, m, g);
    permanova_p_values::shuffle_hit(observed, f)
}

// The same of the observed dispersion, over the observed z, whose mean is at hand. `means` lends room.
fn dispersion_hit(
    means: &mut [f64; limits::MOST_SAMPLES],
    z: &[f64],
    lab: &[u16],
    groups: &Groups,
    sizes: Shape,
    observed: Statistic,
    grand: f64,
) -> bool
    requires { Assigned sizes lab.now groups.now.starts groups.now.members × (length z.now ≡ sizes.kept) × (grand ≡ grand_mean z.now sizes.kept) }
    ensures { result ≡ dispersion_hit z.now sizes observed lab.now }
{
    let m = sizes.kept;
    let g = sizes.groups;
    let f = anova::anova_about(z, lab, m, g, groups, means, grand);
    permanova_p_values::shuffle_hit(observed, f)
}

// How many shuffles within the parts of `strata` are hits of each observed statistic.
fn count_hits(
    over: Terms<'_>,
    gs: &[u16],
    strata: &Groups,
    sizes: Shape,
    seen: Both<Statistic>,
    grand: f64,
    draws: Draws,
) -> Both<usize>
    requires { Sampling sizes gs.now strata.now.starts strata.now.members × PairTerms sizes.kept over.pair_terms.now over.weights.now over.z.now
        × (draws.many ≤ most_shuffles) × (grand ≡ grand_mean over.z.now sizes.kept) }
    ensures { result ≡ hits_among over.entry.pair_terms.now over.entry.weights.now over.entry.z.now sizes seen over.entry.total
        (shuffled_by strata.now.starts strata.now.members sizes.strata gs.now draws.seed) draws.many }
{
    let m = sizes.kept;
    let mut lab = [0u16; limits::MOST_SAMPLES];
    let mut groups = Groups::new();
    let mut means = [0.0f64; limits::MOST_SAMPLES];
    let mut hits = Both {
        location: 0,
        dispersion: 0,
    };
    for i in 0..draws.many {
        shuffle_labels(&mut lab[..m], &mut groups, gs, strata, sizes, draws.seed, i);
        let x = location_hit(over, &groups, sizes, seen.location);
        let y = dispersion_hit(
            &mut means,
            over.z,
            &lab[..m],
            &groups,
            sizes,
            seen.dispersion,
            grand,
        );
        hits.location += usize::from(x);
        hits.dispersion += usize::from(y);
    }
    hits
}

// The hits of shuffles within the strata of a design.
pub fn draw(d: Design, over: Terms<'_>, seen: Both<Statistic>, draws: Draws) -> Both<usize>
    requires { Drawing d over.pair_terms.now over.weights.now over.z.now × (draws.many ≤ most_shuffles) }
    ensures { result ≡ drawn d over.entry.pair_terms.now over.entry.weights.now over.entry.z.now seen over.entry.total draws }
{
    let m = d.kept;
    let grand = anova::grand_mean(over.z, m);
    let mut strata = Groups::new();
    strata.sort(&d.stratum[..m], d.strata);
    let sizes = Shape {
        kept: m,
        groups: d.groups,
        strata: d.strata,
    };
    count_hits(over, &d.group[..m], &strata, sizes, seen, grand, draws)
}
