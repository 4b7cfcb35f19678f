// The one-way ANOVA of distances to centroids (document 01, section 3).
ghost use Rattle.std.specs.Prelude.{◌≡◌, ℕ, ◌+◌, ◌-◌, ◌*◌, ◌<◌, ◌≤◌, max, length};
ghost use Rattle.limits.specs.Limits.{most_samples};
ghost use Rattle.float.specs.Floats.{◌⊘◌, num, zero⁻};
ghost use Rattle.lists.specs.Ranges.{table};
ghost use Rattle.lists.specs.inner.Numbers.{Below};
ghost use Rattle.lists.specs.Sums.{sum_from};
ghost use Rattle.grouping.specs.inner.Parts.{part, Parts, Grouped};
ghost use Rattle.permanova_sums.specs.PairSums.{at};
ghost use Rattle.permanova_dispersion.specs.Anova.{group_mean, mean_of, share, residual, grand_mean, anova_f};

use grouping::Groups;

// ---- the ANOVA of z

// x divided by a count.
fn quotient(x: f64, n: usize) -> f64
    requires { n ≤ 65536 }
    ensures { result ≡ x ⊘ num n }
{
    x / n as f64
}

// The mean of z over the samples `mem`, added up from 0.0.
fn group_mean(z: &[f64], mem: &[u16]) -> f64
    requires { Below (length z.now) mem.now × (length mem.now ≤ most_samples) }
    ensures { result ≡ group_mean z.now mem.now }
{
    quotient(permanova_sums::sum_at(z, mem, 0.0), mem.len().max(1))
}

// The mean that the answer lists. It is no `group_mean`: its sum starts at -0.0, and it divides by the count itself.
pub fn mean_of(z: &[f64], mem: &[u16]) -> f64
    requires { Below (length z.now) mem.now × (length mem.now ≤ most_samples) }
    ensures { result ≡ mean_of z.now mem.now }
{
    quotient(permanova_sums::sum_at(z, mem, -0.0), mem.len())
}

// The mean of all.
pub fn grand_mean(z: &[f64], m: usize) -> f64
    requires { m ≤ most_samples }
    ensures { result ≡ grand_mean z.now m }
{
    quotient(permanova_sums::sum(z), m)
}

// A group's share of what lies between groups.
fn share(mem: &[u16], mean: f64, grand: f64) -> f64
    requires { length mem.now ≤ most_samples }
    ensures { result ≡ share mem.now mean grand }
{
    let x = mean - grand;
    let n = mem.len();
    n as f64 * (x * x)
}

// What is left of each sample's z without its group's mean, squared and added up.
fn residual(z: &[f64], means: &[f64], lab: &[u16]) -> f64
    requires { (length lab.now ≡ length z.now) × Below (length means.now) lab.now }
    ensures { result ≡ residual z.now means.now lab.now (length z.now) }
{
    let mut s = -0.0;
    for (x, l) in z.iter().zip(lab) {
        let d = *x - means[*l as usize];
        s = s + d * d;
    }
    s
}

// ---- over the groups

// What lies between groups.
fn between(g: usize, groups: &Groups, means: &[f64], grand: f64) -> f64
    requires { (m : ℕ) × Parts m g groups.now.starts groups.now.members × (g ≤ length means.now) }
    ensures { result ≡ sum_from zero⁻ (table g (λ k. share (part groups.now.starts groups.now.members k) (at means.now k) grand)) }
{
    let mut s = -0.0;
    for k in 0..g {
        let p = groups.part(k);
        s = s + share(p, means[k], grand);
    }
    s
}

// The F of z by groups, with the mean of all at hand. `means` lends room for the groups' means; what it holds after is left open.
pub fn anova_about(
    z: &[f64],
    lab: &[u16],
    m: usize,
    g: usize,
    groups: &Groups,
    means: &mut [f64],
    grand: f64,
) -> f64
    requires z_len { (length z.now ≡ m) × (length lab.now ≡ m) × Below g lab.now × Grouped lab.now m g groups.now.starts groups.now.members }
    requires g_in_bounds { (g ≤ length means.old) × (1 ≤ g) × (g ≤ m) × (m ≤ most_samples) }
    requires grand_value { grand ≡ grand_mean z.now m }
    ensures { result ≡ anova_f z.now lab.now m g }
{
    groups.fill(g, means, |p| group_mean(z, p));
    let b = between(g, groups, means, grand);
    let r = residual(z, &means[..g], lab);
    permanova_location::f_ratio(b, r, m, g)
}

// The same from z alone. What `means` holds after is left open.
pub fn anova_f(
    z: &[f64],
    lab: &[u16],
    m: usize,
    g: usize,
    groups: &Groups,
    means: &mut [f64],
) -> f64
    requires z_len { (length z.now ≡ m) × (length lab.now ≡ m) × Below g lab.now × Grouped lab.now m g groups.now.starts groups.now.members }
    requires g_in_bounds { (g ≤ length means.old) × (1 ≤ g) × (g ≤ m) × (m ≤ most_samples) }
    ensures { result ≡ anova_f z.now lab.now m g }
{
    let grand = grand_mean(z, m);
    anova_about(z, lab, m, g, groups, means, grand)
}
