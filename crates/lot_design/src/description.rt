// Section 2: a lot's kept samples, its groups and its strata, in four lent slices.
ghost use Rattle.std.specs.Prelude.{is_some};
ghost use Rattle.lot.specs.Given.{held_by};
ghost use Rattle.lot.specs.inner.Description.{samples_of, Room, Described};

use crate::{kept, strata};

// The kept samples go to `ks`, the groups' labels to `ns`, and the group and the stratum of each kept sample to `gs` and `ss`.
pub fn describe(
    labels: &[u16],
    given: Option<&[u16]>,
    ks: &mut [u16],
    ns: &mut [u16],
    gs: &mut [u16],
    ss: &mut [u16],
) -> lot::Shape
    requires { Room (samples_of labels.now (is_some given) (held_by given)) ks.old ns.old gs.old ss.old }
    ensures { Described (samples_of labels.now (is_some given.entry) (held_by given.entry)) result
        ks.old ns.old gs.old ss.old ks.new ns.new gs.new ss.new }
{
    let sizes = kept::groups::group(labels, ks, ns, gs);
    let m = sizes.kept;
    let s = strata::stratify(given, &ks[..m], ss);
    lot::Shape {
        kept: m,
        groups: sizes.groups,
        strata: s,
    }
}
