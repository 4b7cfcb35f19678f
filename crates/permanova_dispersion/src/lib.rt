// Distances to centroids (document 01, section 3).
#![tactic(auto)]

pub mod anova;

ghost use Rattle.std.specs.Prelude.{◌≡◌, map, ◌-◌, ◌*◌, ◌<◌, ◌≤◌, length};
ghost use Rattle.lists.specs.Ranges.{table};
ghost use Rattle.lists.specs.Filters.{any};
ghost use Rattle.lists.specs.inner.Numbers.{Below};
ghost use Rattle.grouping.specs.inner.Parts.{part, Parts, Grouped};
ghost use Rattle.permanova_location.specs.Location.{group_weight};
ghost use Rattle.permanova_dispersion.specs.Dispersion.{inside, weighted_square_sum, value_of, distance_of, negative, values, z_of, some_negative};
ghost use Rattle.permanova_dispersion.specs.inner.Parted.{value_by};

use grouping::Groups;

// ---- a group's values

// The sum over all ordered pairs of the samples `mem`.
fn inside(t: &[f64], m: usize, mem: &[u16]) -> f64
    requires { (length t.now ≡ m * m) × Below m mem.now }
    ensures { result ≡ inside t.now m mem.now }
{
    let mut s = 0.0;
    for a in mem {
        s = permanova_sums::sum_entries(t, m, mem, *a as usize, s);
    }
    s
}

// The sum of weight·square to the samples `mem`, seen from a.
fn weighted_square_sum(p: &[f64], m: usize, mem: &[u16], a: usize) -> f64
    requires { (length p.now ≡ m * m) × Below m mem.now × (a < m) }
    ensures { result ≡ weighted_square_sum p.now m mem.now a }
{
    permanova_sums::sum_entries(p, m, mem, a, -0.0)
}

// A value, from the weighted squares on the sample, its group's weight sum and what is inside the group.
fn value_of(weighted_squares: f64, s: f64, ins: f64) -> f64
    ensures { result ≡ value_of weighted_squares s ins }
{
    weighted_squares / s - ins / (2.0 * s * s)
}

fn distance_of(v: f64) -> f64
    ensures { result ≡ distance_of v }
{
    square_root::sqrt(float::max(v, 0.0))
}

// Each value becomes its distance.
pub fn distances(z: &mut [f64])
    ensures { z.new ≡ map distance_of z.old }
{
    for x in z {
        *x = distance_of(*x);
    }
}

// Whether some value is below 0.
pub fn some_negative(v: &[f64]) -> bool
    ensures { result ≡ any negative v.now }
{
    v.iter().any(|x| *x < 0.0)
}

// ---- over the groups

// The value of sample a, from its group's weight sum and what is inside the group.
fn value_at(
    weighted_squares: &[f64],
    lab: &[u16],
    m: usize,
    g: usize,
    groups: &Groups,
    gw: &[f64],
    gi: &[f64],
    a: usize,
) -> f64
    requires { (length weighted_squares.now ≡ m * m) × (length lab.now ≡ m) × Below g lab.now × Parts m g groups.now.starts groups.now.members × (g ≤ length gw.now) × (g ≤ length gi.now) × (a < m) }
    ensures { result ≡ value_by weighted_squares.now lab.now m groups.now.starts groups.now.members gw.now gi.now a }
{
    let l = lists::entry(lab, a);
    let p = groups.part(l);
    let sum = weighted_square_sum(weighted_squares, m, p, a);
    value_of(sum, gw[l], gi[l])
}

// Every sample's value.
fn fill_values(
    weighted_squares: &[f64],
    lab: &[u16],
    m: usize,
    g: usize,
    groups: &Groups,
    gw: &[f64],
    gi: &[f64],
    z: &mut [f64],
)
    requires { (length weighted_squares.now ≡ m * m) × (length lab.now ≡ m) × Below g lab.now × Parts m g groups.now.starts groups.now.members × (g ≤ length gw.now) × (g ≤ length gi.now) × (length z.old ≡ m) }
    ensures { z.new ≡ table m (value_by weighted_squares.now lab.now m groups.now.starts groups.now.members gw.now gi.now) }
{
    for a in 0..m {
        z[a] = value_at(weighted_squares, lab, m, g, groups, gw, gi, a);
    }
}

// Every sample's value in its own group. `gw` and `gi` lend room for the groups' weight sums and insides; what they hold after is left open.
fn values(
    weighted_squares: &[f64],
    t: &[f64],
    w: &[f64],
    lab: &[u16],
    m: usize,
    g: usize,
    groups: &Groups,
    gw: &mut [f64],
    gi: &mut [f64],
    z: &mut [f64],
)
    requires weighted_squares_len { (length weighted_squares.now ≡ m * m) × (length t.now ≡ m * m) × (length w.now ≡ m) × (length lab.now ≡ m) × Below g lab.now }
    requires grouped { Grouped lab.now m g groups.now.starts groups.now.members × (g ≤ length gw.old) × (g ≤ length gi.old) × (length z.old ≡ m) }
    ensures { z.new ≡ values weighted_squares.now t.now w.now lab.now m }
{
    groups.fill(g, gw, |p| permanova_location::group_weight(w, p));
    groups.fill(g, gi, |p| inside(t, m, p));
    fill_values(weighted_squares, lab, m, g, groups, gw, gi, z);
}

// Every sample's z, and whether some value was below 0. `gw` and `gi` lend room; what they hold after is left open.
pub fn fill_z(
    weighted_squares: &[f64],
    t: &[f64],
    w: &[f64],
    lab: &[u16],
    m: usize,
    g: usize,
    groups: &Groups,
    gw: &mut [f64],
    gi: &mut [f64],
    z: &mut [f64],
) -> bool
    requires weighted_squares_len { (length weighted_squares.now ≡ m * m) × (length t.now ≡ m * m) × (length w.now ≡ m) × (length lab.now ≡ m) × Below g lab.now }
    requires grouped { Grouped lab.now m g groups.now.starts groups.now.members × (g ≤ length gw.old) × (g ≤ length gi.old) × (length z.old ≡ m) }
    ensures { (result ≡ some_negative weighted_squares.now t.now w.now lab.now m)
        × (z.new ≡ z_of weighted_squares.now t.now w.now lab.now m) }
{
    values(weighted_squares, t, w, lab, m, g, groups, gw, gi, z);
    let some = some_negative(z);
    distances(z);
    some
}
