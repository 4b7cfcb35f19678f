// What is observed of a lot: the weights and terms of its kept samples, location, dispersion, and each group's count and mean z (document 01, sections 2 and 3).
ghost use Rattle.std.specs.Prelude.{◌≡◌, Bool, List, map, ℕ, ◌*◌, is_some, length, take};
ghost use Rattle.lists.specs.Writes.{over};
ghost use Rattle.grouping.specs.inner.Parts.{Grouped};
ghost use Rattle.lot.specs.Given.{held_by};
ghost use Rattle.lot.specs.Lot.{Lot, lot_of};
ghost use Rattle.lot.specs.Kept.{sizes};
ghost use Rattle.permanova_sums.specs.Squares.{weight_at, pair_terms, weighted_squares};
ghost use Rattle.permanova_dispersion.specs.Dispersion.{z_of};
ghost use Rattle.permanova_dispersion.specs.Anova.{mean_z};
ghost use Rattle.lot_design.specs.inner.Designs.{Describes};
ghost use Rattle.permanova_statistics.specs.inner.Observed.{located, spread, observed};
ghost use Rattle.permanova_statistics.specs.inner.Observation.{WeighingKept, Weighing, Weighs, Locating, Dispersing, Listing, ObservingKept, Observing, Observes};

use grouping::Groups;
use lot_design::Design;
use permanova_dispersion::anova;
use permanova_sums::squares;

// ---- weights and terms

// The weights w, terms t and weighted squares p of the kept samples `ks`.
fn weigh_kept(
    distances: &[f64],
    n: usize,
    ks: &[u16],
    m: usize,
    weights: Option<&[f64]>,
    w: &mut [f64],
    t: &mut [f64],
    p: &mut [f64],
)
    requires { WeighingKept n m distances.now ks.now (is_some weights) (held_by weights) (length w.old) (length t.old) (length p.old) }
    ensures { (w.new ≡ map (weight_at (is_some weights.entry) (held_by weights.entry)) ks.now)
        × (t.new ≡ pair_terms distances.now n ks.now (map (weight_at (is_some weights.entry) (held_by weights.entry)) ks.now) m)
        × (p.new ≡ weighted_squares distances.now n ks.now (map (weight_at (is_some weights.entry) (held_by weights.entry)) ks.now) m) }
{
    squares::fill_weights(w, weights, ks);
    squares::fill_pair_terms(t, distances, n, ks, w, m);
    squares::fill_weighted_squares(p, distances, n, ks, w, m);
}

// The weights, terms and weighted squares of the design's samples go to the fronts of `w`, `pair_terms` and `weighted_squares`.
pub fn weigh(
    d: Design,
    distances: &[f64],
    weights: Option<&[f64]>,
    w: &mut [f64],
    pair_terms: &mut [f64],
    weighted_squares: &mut [f64],
)
    requires { Weighing d distances.now (is_some weights) (held_by weights) (length w.old) (length pair_terms.old) (length weighted_squares.old) }
    ensures { (labels : List ℕ) (stratified : Bool) (strata : List ℕ) → Describes (lot_of d.n distances.now labels stratified strata (is_some weights.entry) (held_by weights.entry)) d
        → Weighs (lot_of d.n distances.now labels stratified strata (is_some weights.entry) (held_by weights.entry)) d
        (take (d.kept * d.kept) weighted_squares.new) (take (d.kept * d.kept) pair_terms.new) (take d.kept w.new) }
{
    let n = d.n;
    let m = d.kept;
    let k = m * m;
    let ks = d.samples;
    weigh_kept(
        distances,
        n,
        &ks[..m],
        m,
        weights,
        &mut w[..m],
        &mut pair_terms[..k],
        &mut weighted_squares[..k],
    );
}

// ---- location and dispersion

#[derive(Drop)]
pub struct Located {
    pub total: f64,
    pub f: f64,
    pub r2: f64,
}

// Location of labels whose groups these are.
fn locate(t: &[f64], w: &[f64], m: usize, g: usize, groups: &Groups) -> Located
    requires { Locating m g t.now w.now groups.now.starts groups.now.members }
    ensures { (gs : List ℕ) → Grouped gs m g groups.now.starts groups.now.members → result ≡ located t.now w.now gs m g }
{
    let total = crate::total(t, w, m);
    let inside = permanova_location::within(t, w, m, g, groups);
    let f = permanova_location::pseudo_f(total, inside, m, g);
    let r2 = permanova_location::r_squared(total, inside);
    Located { total, f, r2 }
}

#[derive(Drop)]
pub struct Spread {
    pub f: f64,
    pub negative: bool,
}

// Dispersion of the labels `gs`: z is filled.
fn disperse(
    p: &[f64],
    t: &[f64],
    w: &[f64],
    gs: &[u16],
    m: usize,
    g: usize,
    groups: &Groups,
    z: &mut [f64],
) -> Spread
    requires { Dispersing m g p.now t.now w.now gs.now groups.now.starts groups.now.members (length z.old) }
    ensures { (result ≡ spread p.now t.now w.now gs.now m g)
        × (z.new ≡ z_of p.now t.now w.now gs.now m) }
{
    let mut gw = [0.0f64; limits::MOST_SAMPLES];
    let mut gi = [0.0f64; limits::MOST_SAMPLES];
    let negative = permanova_dispersion::fill_z(p, t, w, gs, m, g, groups, &mut gw, &mut gi, z);
    let f = anova::anova_f(z, gs, m, g, groups, &mut gw);
    Spread { f, negative }
}

// Each group's count and mean z go to the front of the outputs.
fn list_groups(
    z: &[f64],
    m: usize,
    g: usize,
    groups: &Groups,
    counts: &mut [u16],
    means: &mut [f64],
)
    requires { Listing m g groups.now.starts groups.now.members (length z.now) (length counts.old) (length means.old) }
    ensures { (gs : List ℕ) → Grouped gs m g groups.now.starts groups.now.members → (counts.new ≡ over (sizes gs m g) counts.old) × (means.new ≡ over (mean_z z.now gs m g) means.old) }
{
    groups.fill(g, counts, |p| p.len() as u16);
    groups.fill(g, means, |p| anova::mean_of(z, p));
}

#[derive(Clone, Copy)]
pub struct Observed {
    pub total: f64,
    pub f: f64,
    pub r2: f64,
    pub disp_f: f64,
    pub negative: bool,
}

// Both statistics of the labels `gs`, each group's count and mean z, and z.
fn observe_kept(
    p: &[f64],
    t: &[f64],
    w: &[f64],
    gs: &[u16],
    m: usize,
    g: usize,
    z: &mut [f64],
    counts: &mut [u16],
    means: &mut [f64],
) -> Observed
    requires { ObservingKept m g p.now t.now w.now gs.now (length z.old) (length counts.old) (length means.old) }
    ensures { (result ≡ observed p.now t.now w.now gs.now m g)
        × (z.new ≡ z_of p.now t.now w.now gs.now m)
        × (counts.new ≡ over (sizes gs.now m g) counts.old)
        × (means.new ≡ over (mean_z (z_of p.now t.now w.now gs.now m) gs.now m g) means.old) }
{
    let mut groups = Groups::new();
    groups.sort(gs, g);
    let l = locate(t, w, m, g, &groups);
    let s = disperse(p, t, w, gs, m, g, &groups, z);
    list_groups(z, m, g, &groups, counts, means);
    Observed {
        total: l.total,
        f: l.f,
        r2: l.r2,
        disp_f: s.f,
        negative: s.negative,
    }
}

// Both statistics of the lot that a design describes, over its weighted squares p, terms t and weights w. z goes to the front of `z`, and each group's count and mean z
// to the fronts of the outputs. What `z` holds past the kept samples is left open.
pub fn observe(
    d: Design,
    p: &[f64],
    t: &[f64],
    w: &[f64],
    z: &mut [f64],
    counts: &mut [u16],
    means: &mut [f64],
) -> Observed
    requires { Observing d p.now t.now w.now (length z.old) (length counts.old) (length means.old) }
    ensures { (lot : Lot) → Weighs lot d p.now t.now w.now
        → Observes lot counts.old means.old counts.new means.new (take d.kept z.new) result }
{
    let m = d.kept;
    let g = d.groups;
    let gs = d.group;
    observe_kept(p, t, w, &gs[..m], m, g, &mut z[..m], counts, means)
}
