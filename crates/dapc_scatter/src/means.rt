// Section 5: counts of groups, means of all samples and of groups.
ghost use Rattle.std.specs.Prelude.{◌≡◌, map, ◌*◌, ◌≤◌, length, get_or, replicate};
ghost use Rattle.std.specs.Float.{nan};
ghost use Rattle.limits.specs.Limits.{most_samples};
ghost use Rattle.float.specs.Floats.{◌⊘◌, num, zero⁺, zero⁻};
ghost use Rattle.lists.specs.Ranges.{table, grid};
ghost use Rattle.lists.specs.Numbers.{members};
ghost use Rattle.lists.specs.Sums.{sum_from};
ghost use Rattle.lists.specs.Rows.{entry};
ghost use Rattle.lot.specs.Kept.{sizes};
ghost use Rattle.dapc_scatter.specs.Means.{grouped, mean_of, group_means};
ghost use Rattle.dapc_scatter.specs.inner.Means.{Numbered};

use crate::samples::Leading;
use eigen_matrix::entrywise;

// ---- means

// How many samples each group has.
fn count_groups(counts: &mut [u16], leading: Leading)
    requires { (counts.old ≡ replicate (length counts.old) 0) × Numbered (length counts.old) leading.groups.now × (length counts.old ≤ 128) × (length leading.groups.now ≤ most_samples) }
    ensures { let s = leading.entry in counts.new ≡ sizes s.groups.now (length s.groups.now) (length counts.old) }
{
    for i in 0..leading.groups.len() {
        if let Some(j) = leading.group(i) {
            counts[j] = counts[j] + 1;
        }
    }
}

// Column by column, the samples that have a group are added to `sum`.
fn add_grouped(sum: &mut [f64], leading: Leading)
    requires { length sum.old ≡ leading.lead }
    ensures { let s = leading.entry in sum.new ≡ table s.lead (λ c. sum_from (get_or sum.old c nan) (map (λ i. entry s.columns s.x.now i c) (grouped s.groups.now))) }
{
    let p = leading.lead;
    let columns = leading.columns;
    for i in 0..leading.groups.len() {
        if leading.group(i).is_some() {
            entrywise::add(sum, &leading.x[i * columns..i * columns + p]);
        }
    }
}

// Column by column, the samples of each group are added to its row.
fn add_members(mu: &mut [f64], leading: Leading, g: usize)
    requires { (length mu.old ≡ g * leading.lead) × (g ≤ 128) × Numbered g leading.groups.now }
    ensures { let s = leading.entry in mu.new ≡ grid g s.lead
        (λ j c. sum_from (entry s.lead mu.old j c) (map (λ i. entry s.columns s.x.now i c) (members s.groups.now (length s.groups.now) j))) }
{
    let p = leading.lead;
    let columns = leading.columns;
    for i in 0..leading.groups.len() {
        if let Some(j) = leading.group(i) {
            entrywise::add(
                &mut mu[j * p..j * p + p],
                &leading.x[i * columns..i * columns + p],
            );
        }
    }
}

// Each row divided by its count.
fn divide_rows(mu: &mut [f64], p: usize, counts: &[u16])
    requires { length mu.old ≡ length counts.now * p }
    ensures { mu.new ≡ grid (length counts.now) p (λ j c. entry p mu.old j c ⊘ num (get_or counts.now j 0)) }
{
    for j in 0..counts.len() {
        let n = lists::entry(counts, j) as f64;
        entrywise::divide(&mut mu[j * p..j * p + p], n);
    }
}

// The mean of each column; m samples have a group.
pub fn fill_mean(mean: &mut [f64], leading: Leading, m: usize)
    requires { (mean.old ≡ replicate leading.lead zero⁻) × (m ≡ length (grouped leading.groups.now)) × (m ≤ most_samples) }
    ensures { let s = leading.entry in mean.new ≡ mean_of s.columns s.lead s.x.now s.groups.now }
{
    add_grouped(mean, leading);
    entrywise::divide(mean, m as f64);
}

// How many samples each of g groups has, and the mean of each column over them.
pub fn fill_group_means(mu: &mut [f64], counts: &mut [u16], leading: Leading, g: usize)
    requires { (mu.old ≡ replicate (g * leading.lead) zero⁺) × (counts.old ≡ replicate g 0) × (g ≤ 128) × Numbered g leading.groups.now × (length leading.groups.now ≤ most_samples) }
    ensures { let s = leading.entry in (mu.new ≡ group_means s.columns s.lead s.x.now s.groups.now g) × (counts.new ≡ sizes s.groups.now (length s.groups.now) g) }
{
    count_groups(counts, leading);
    add_members(mu, leading, g);
    divide_rows(mu, leading.lead, counts);
}
