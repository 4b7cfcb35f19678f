// Section 5: the scatter within and between groups.
#![tactic(auto)]

pub mod means;
pub mod moments;
pub mod ridge;
pub mod samples;

ghost use Rattle.std.specs.Prelude.{◌≡◌, map, ◌+◌, ◌*◌, ◌≤◌, length, get_or, replicate};
ghost use Rattle.std.specs.Float.{nan};
ghost use Rattle.float.specs.Floats.{◌⊕◌, ◌⊗◌, num, zero⁺};
ghost use Rattle.lists.specs.Ranges.{table, grid};
ghost use Rattle.lists.specs.Sums.{sum_from};
ghost use Rattle.lists.specs.Rows.{entry};
ghost use Rattle.lot.specs.Kept.{sizes};
ghost use Rattle.dapc_scatter.specs.Means.{grouped};
ghost use Rattle.dapc_scatter.specs.inner.Means.{Numbered};
ghost use Rattle.dapc_scatter.specs.Ridge.{ridged};
ghost use Rattle.dapc_scatter.specs.Scatter.{off, group_off, scatter_within, scatter_between};

use crate::samples::Leading;
use eigen_matrix::entrywise;

// ---- scatter

// m + s * d, each entry of s with each of d.
fn add_outer(m: &mut [f64], p: usize, s: &[f64], d: &[f64])
    requires { (length m.old ≡ p * p) × (length s.now ≡ p) × (length d.now ≡ p) }
    ensures { m.new ≡ grid p p (λ a b. entry p m.old a b ⊕ get_or s.now a nan ⊗ get_or d.now b nan) }
{
    for a in 0..p {
        entrywise::add_multiple(&mut m[a * p..a * p + p], s[a], d);
    }
}

// Within groups: the products of how far each sample is from its group's mean are added to sw. `d` takes how far.
fn add_within(sw: &mut [f64], d: &mut [f64], leading: Leading, g: usize, mu: &[f64])
    requires { (length sw.old ≡ leading.lead * leading.lead) × (length d.old ≡ leading.lead) × (length mu.now ≡ g * leading.lead) × Numbered g leading.groups.now }
    ensures { let s = leading.entry in sw.new ≡ grid s.lead s.lead (λ a b. sum_from (entry s.lead sw.old a b)
        (map (λ i. off s.columns s.lead s.x.now s.groups.now mu.now i a ⊗ off s.columns s.lead s.x.now s.groups.now mu.now i b) (grouped s.groups.now))) }
{
    let p = leading.lead;
    let columns = leading.columns;
    for i in 0..leading.groups.len() {
        if let Some(j) = leading.group(i) {
            entrywise::subtract(
                d,
                &leading.x[i * columns..i * columns + p],
                &mu[j * p..j * p + p],
            );
            let e = &d[..];
            add_outer(sw, p, e, e);
        }
    }
}

// Between groups: the products of how far each group is from the mean, times its count, are added to sb. `d` takes how far, `s` that times the count.
fn add_between(
    sb: &mut [f64],
    d: &mut [f64],
    s: &mut [f64],
    p: usize,
    counts: &[u16],
    mu: &[f64],
    mean: &[f64],
)
    requires { (length sb.old ≡ p * p) × (length d.old ≡ p) × (length s.old ≡ p) × (length mu.now ≡ length counts.now * p) × (length mean.now ≡ p) }
    ensures { sb.new ≡ grid p p (λ a b. sum_from (entry p sb.old a b) (table (length counts.now) (λ j. num (get_or counts.now j 0) ⊗ group_off p mu.now mean.now j a ⊗ group_off p mu.now mean.now j b))) }
{
    for j in 0..counts.len() {
        let n = lists::entry(counts, j) as f64;
        entrywise::subtract(d, &mu[j * p..j * p + p], mean);
        entrywise::scale(s, n, d);
        add_outer(sb, p, s, d);
    }
}

// ---- the whole

// The scatter within groups, with its ridge, and that between groups. `d` and `s` are room for a row.
pub fn fill_scatter(
    sw: &mut [f64],
    sb: &mut [f64],
    d: &mut [f64],
    s: &mut [f64],
    leading: Leading,
    g: usize,
    mu: &[f64],
    mean: &[f64],
    counts: &[u16],
)
    requires sw_value { (sw.old ≡ replicate (leading.lead * leading.lead) zero⁺) × (sb.old ≡ replicate (leading.lead * leading.lead) zero⁺)
        × (length d.old ≡ leading.lead) × (length s.old ≡ leading.lead) }
    requires numbered { (leading.lead ≤ 16) × Numbered g leading.groups.now }
    requires mu_len { (length mu.now ≡ g * leading.lead) × (length mean.now ≡ leading.lead)
        × (counts.now ≡ sizes leading.groups.now (length leading.groups.now) g) }
    ensures { let l = leading.entry in (sw.new ≡ ridged l.lead (scatter_within l.columns l.lead l.x.now l.groups.now mu.now))
        × (sb.new ≡ scatter_between l.lead g l.groups.now mu.now mean.now) }
{
    let p = leading.lead;
    add_within(sw, d, leading, g, mu);
    ridge::add_ridge(sw, p);
    add_between(sb, d, s, p, counts, mu, mean);
}
