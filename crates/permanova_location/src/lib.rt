// PERMANOVA's within, F and r2 (document 01, section 2).
#![tactic(auto)]

ghost use Rattle.std.specs.Prelude.{◌≡◌, List, ℕ, ◌+◌, ◌-◌, ◌*◌, ◌/◌, ◌≤◌, length};
ghost use Rattle.limits.specs.Limits.{most_samples};
ghost use Rattle.float.specs.Floats.{◌⊕◌, ◌⊘◌, zero⁻, smallest_normal};
ghost use Rattle.float.specs.Order.{larger};
ghost use Rattle.lists.specs.inner.Numbers.{Below};
ghost use Rattle.lists.specs.Sums.{sum_from};
ghost use Rattle.lists.specs.Ranges.{table};
ghost use Rattle.grouping.specs.inner.Parts.{part, Parts, Grouped};
ghost use Rattle.permanova_location.specs.Location.{f_ratio, group_weight, group_within, pseudo_f, r_squared, within};

use grouping::Groups;

// ---- within

// The weight sum of the samples `mem`.
pub fn group_weight(w: &[f64], mem: &[u16]) -> f64
    requires { Below (length w.now) mem.now }
    ensures { result ≡ group_weight w.now mem.now }
{
    permanova_sums::sum_at(w, mem, -0.0)
}

// A pair sum of theirs, divided by the larger of their weight sum and the smallest normal f64.
fn over_weight(sum: f64, w: &[f64], mem: &[u16]) -> f64
    requires { Below (length w.now) mem.now }
    ensures { result ≡ sum ⊘ larger (group_weight w.now mem.now) smallest_normal }
{
    sum / float::max(group_weight(w, mem), 2.2250738585072014e-308)
}

// Their part of within.
pub fn group_within(t: &[f64], w: &[f64], m: usize, mem: &[u16]) -> f64
    requires { (length t.now ≡ m * m) × (length w.now ≡ m) × Below m mem.now }
    ensures { result ≡ group_within t.now w.now m mem.now }
{
    over_weight(permanova_sums::pair_sum(t, m, mem), w, mem)
}

// The parts of two groups, added to s one after the other.
fn add_two(t: &[f64], w: &[f64], m: usize, p: &[u16], q: &[u16], s: f64) -> f64
    requires { (length t.now ≡ m * m) × (length w.now ≡ m) × Below m p.now × Below m q.now }
    ensures { result ≡ (s ⊕ group_within t.now w.now m p.now) ⊕ group_within t.now w.now m q.now }
{
    let sums = permanova_sums::two_pair_sums(t, m, p, q);
    s + over_weight(sums.first, w, p) + over_weight(sums.second, w, q)
}

// The sum over the g groups but a last odd one, two at a time.
fn within_twos(t: &[f64], w: &[f64], m: usize, g: usize, groups: &Groups) -> f64
    requires { (length t.now ≡ m * m) × (length w.now ≡ m) × Parts m g groups.now.starts groups.now.members }
    ensures { result ≡ sum_from zero⁻ (table (2 * (g / 2)) (λ k. group_within t.now w.now m (part groups.now.starts groups.now.members k))) }
{
    let mut s = -0.0;
    for j in 0..g / 2 {
        let p = groups.part(2 * j);
        let q = groups.part(2 * j + 1);
        s = add_two(t, w, m, p, q, s);
    }
    s
}

// The sum over the g groups: within, of labels whose groups they are.
pub fn within(t: &[f64], w: &[f64], m: usize, g: usize, groups: &Groups) -> f64
    requires { (length t.now ≡ m * m) × (length w.now ≡ m) × Parts m g groups.now.starts groups.now.members }
    ensures sum { result ≡ sum_from zero⁻ (table g (λ k. group_within t.now w.now m (part groups.now.starts groups.now.members k))) }
    ensures of_labels { (lab : List ℕ) → Grouped lab m g groups.now.starts groups.now.members → result ≡ within t.now w.now lab m g }
{
    let s = within_twos(t, w, m, g, groups);
    if g % 2 == 0 {
        return s;
    }
    let p = groups.part(g - 1);
    s + group_within(t, w, m, p)
}

// ---- F and r2

// What lies between groups against what lies within them, of m samples in g groups.
pub fn f_ratio(between: f64, within: f64, m: usize, g: usize) -> f64
    requires { (1 ≤ g) × (g ≤ m) × (m ≤ most_samples) }
    ensures { result ≡ f_ratio between within m g }
{
    (between / (g - 1) as f64) / (within / (m - g) as f64)
}

// The pseudo F.
pub fn pseudo_f(total: f64, within: f64, m: usize, g: usize) -> f64
    requires { (1 ≤ g) × (g ≤ m) × (m ≤ most_samples) }
    ensures { result ≡ pseudo_f total within m g }
{
    f_ratio(total - within, within, m, g)
}

// The share of the total that the groups explain.
pub fn r_squared(total: f64, within: f64) -> f64
    ensures { result ≡ r_squared total within }
{
    if total > 0.0 {
        (total - within) / total
    } else {
        0.0
    }
}
