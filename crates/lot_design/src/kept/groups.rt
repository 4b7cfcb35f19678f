// The groups of a lot: kept samples, the groups' labels, and each sample's group (section 2).
ghost use Rattle.std.specs.Prelude.{◌≡◌, ◌<◌, ◌≤◌, map, length};
ghost use Rattle.lists.specs.Numbers.{position, upward};
ghost use Rattle.lists.specs.inner.Numbers.{Below};
ghost use Rattle.lists.specs.Writes.{over};
ghost use Rattle.lot.specs.inner.Filled.{Filled};
ghost use Rattle.lot.specs.inner.Description.{Grouped};
ghost use Rattle.lot.specs.Kept as spec;
ghost use Rattle.lot_design.specs.inner.Groups.{put};

// Each label gives way to its group, and the groups' labels go to the front of `ns`. Returns how many they are.
fn number_labels(labels: &mut [u16], ns: &mut [u16]) -> usize
    requires { (length labels.old < 65536) × (length labels.old ≤ length ns.old) }
    ensures { Filled (upward labels.old) ns.old ns.new result
        × (labels.new ≡ map (λ l. position l (upward labels.old)) labels.old) }
{
    let g = crate::kept::fill_upward(labels, ns);
    crate::kept::number_by(&ns[..g], labels);
    g
}

// The groups' labels go to `ns`, and the group of each kept sample to `gs`. Returns how many groups there are.
fn name_groups(labels: &[u16], ks: &[u16], ns: &mut [u16], gs: &mut [u16]) -> usize
    requires { (length labels.now < 65536) × (ks.now ≡ spec.kept labels.now) × (length labels.now ≤ length ns.old) × (length labels.now ≤ length gs.old) }
    ensures { Filled (spec.group_labels labels.now) ns.old ns.new result
        × (gs.new ≡ over (spec.groups labels.now) gs.old) }
{
    let m = ks.len();
    crate::kept::gather(labels, ks, gs);
    number_labels(&mut gs[..m], ns)
}

// The kept samples go to `ks`, the groups' labels to `ns`, and the group of each kept sample to `gs`.
pub fn group(labels: &[u16], ks: &mut [u16], ns: &mut [u16], gs: &mut [u16]) -> lot::Sizes
    requires { (length labels.now < 65536) × (length labels.now ≤ length ks.old) × (length labels.now ≤ length ns.old) × (length labels.now ≤ length gs.old) }
    ensures { Grouped labels.now result ks.old ns.old gs.old ks.new ns.new gs.new }
{
    let m = crate::kept::fill_kept(labels, ks);
    let g = name_groups(labels, &ks[..m], ns, gs);
    lot::Sizes { kept: m, groups: g }
}

// The groups `gs` of the samples `ks` go to their places in `each`.
pub fn place(each: &mut [u16], ks: &[u16], gs: &[u16])
    requires { (length gs.now ≡ length ks.now) × Below (length each.old) ks.now }
    ensures { each.new ≡ put ks.now gs.now each.old }
{
    for (i, g) in ks.iter().zip(gs) {
        each[*i as usize] = *g;
    }
}
