// The design of a lot (document 01, section 2): its kept samples, groups and strata, made once and passed on as one value.
#![tactic(auto)]

pub mod description;
pub mod kept;
pub mod strata;

ghost use Rattle.std.specs.Prelude.{◌≡◌, ◌<◌, ◌≤◌, length, is_some};
ghost use Rattle.limits.specs.Limits.{most_samples};
ghost use Rattle.lists.specs.Writes.{over};
ghost use Rattle.lot.specs.Given.{held_by};
ghost use Rattle.lot.specs.Kept.{left_out, kept_count};
ghost use Rattle.lot.specs.inner.Description.{samples_of};
ghost use Rattle.lot_design.specs.inner.Designs.{group_labels_of, Designable, Describes};

#[derive(Clone, Copy)]
pub struct Design {
    // whether strata are given, and whether labels are left out
    pub stratified: bool,
    pub left_out: bool,
    // how many samples there are, how many are kept, in how many groups and strata, and how many of them are in strata that inform
    pub n: usize,
    pub kept: usize,
    pub groups: usize,
    pub strata: usize,
    pub informing: usize,
    // the kept samples, the groups' labels, and the group and the stratum of each kept sample, from the front: arrays with their lengths beside them, since nothing is
    // allocated
    pub samples: [u16; limits::MOST_SAMPLES],
    pub labels: [u16; limits::MOST_SAMPLES],
    pub group: [u16; limits::MOST_SAMPLES],
    pub stratum: [u16; limits::MOST_SAMPLES],
}

// Whether some label is held by one sample: fewer are kept, m, than have a label.
fn left_out(labels: &[u16], m: usize) -> bool
    requires { (length labels.now < 65536) × (m ≡ kept_count labels.now) }
    ensures { result ≡ left_out labels.now }
{
    let unlabelled = lot::how_many(labels, limits::NONE) as usize;
    m + unlabelled < labels.len()
}

// The design of these labels, within these strata.
pub fn design_of(labels: &[u16], strata: Option<&[u16]>) -> Design
    requires { Designable (samples_of labels.now (is_some strata) (held_by strata)) }
    ensures { Describes (samples_of labels.now (is_some strata.entry) (held_by strata.entry)) result }
{
    let mut ks = [0u16; limits::MOST_SAMPLES];
    let mut ns = [0u16; limits::MOST_SAMPLES];
    let mut gs = [0u16; limits::MOST_SAMPLES];
    let mut ss = [0u16; limits::MOST_SAMPLES];
    let shape = description::describe(labels, strata, &mut ks, &mut ns, &mut gs, &mut ss);
    let m = shape.kept;
    let informing = strata::informative(&ss[..m], &gs[..m]);
    let left = left_out(labels, m);
    Design {
        stratified: strata.is_some(),
        left_out: left,
        n: labels.len(),
        kept: m,
        groups: shape.groups,
        strata: shape.strata,
        informing,
        samples: ks,
        labels: ns,
        group: gs,
        stratum: ss,
    }
}

// The groups' labels go to the front of `out`.
pub fn fill_group_labels(d: Design, out: &mut [u16])
    requires { (d.groups ≤ most_samples) × (d.groups ≤ length out.old) }
    ensures { out.new ≡ over (group_labels_of d) out.old }
{
    let g = d.groups;
    out[..g].copy_from_slice(&d.labels[..g]);
}
