// Section 6: the number of ways, the counts that a walk over them starts from, and the steps from each way to the next.
#![tactic(auto)]

pub mod level;

ghost use Rattle.std.specs.Prelude.{◌≡◌, ◌++◌, ◌≤◌, ◌<◌, ◌+◌, ◌*◌, length, drop, get_or, set, MatchOption};
ghost use Rattle.limits.specs.Limits.{most_samples};
ghost use Rattle.lists.specs.Numbers.{how_many};
ghost use Rattle.lists.specs.inner.Numbers.{Below};
ghost use Rattle.lists.specs.Writes.{cleared};
ghost use Rattle.lot.specs.Way.{tally};
ghost use Rattle.exhaustive_ways.specs.Ways.{way_count_of};
ghost use Rattle.exhaustive_ways.specs.inner.Ways.{capped};
ghost use Rattle.exhaustive_ways.specs.inner.Remaining.{HasRows, tallies};
ghost use Rattle.exhaustive_ways.specs.inner.Order.{place, taken, given, front, through, after, Node, NextLabel, First, Changed, GoneOn, NextWay};

use lists::entry;

// How many samples are of stratum s.
fn size_of(strata: &[u16], s: u16) -> usize
    ensures { result ≡ how_many s strata.now }
{
    strata.iter().filter(|x| **x == s).count()
}

// How many of them have the label j.
fn label_of(strata: &[u16], groups: &[u16], s: u16, j: u16) -> usize
    ensures { result ≡ tally strata.now groups.now s j }
{
    strata
        .iter()
        .zip(groups)
        .filter(|(x, y)| **x == s && **y == j)
        .count()
}

// M, or 20,001 where it is above 20,000. With each sample, from the last, it grows by its stratum's size so far over its label's count there so far.
// No product is above 20,000 · 256.
pub fn count_ways(strata: &[u16], groups: &[u16]) -> usize
    requires few { length strata.now ≤ most_samples }
    requires sized { length groups.now ≡ length strata.now }
    ensures { result ≡ capped (way_count_of strata.now groups.now) }
{
    let mut m: usize = 1;
    for k in (0..strata.len()).rev() {
        let s = strata[k];
        let j = groups[k];
        m = m * size_of(&strata[k..], s) / label_of(&strata[k..], &groups[k..], s, j);
        if m > limits::MOST_WAYS {
            return limits::ABOVE_MOST_WAYS;
        }
    }
    m
}

// Counts each label in its stratum's row, from zeros.
pub fn fill_counts(strata: &[u16], groups: &[u16], g: usize, counts: &mut [u16])
    requires few { length strata.now ≤ most_samples }
    requires sized { length groups.now ≡ length strata.now }
    requires below { Below g groups.now }
    requires rows { HasRows g strata.now counts.old }
    requires zeros { counts.old ≡ cleared 0 counts.old }
    ensures { counts.new ≡ tallies g strata.now groups.now (length counts.old) }
{
    for (s, j) in strata.iter().zip(groups) {
        let place = usize::from(*s) * g + usize::from(*j);
        counts[place] += 1;
    }
}

// ---- from way to way, in the order of their labels

// The first label from j on, below g, of which one is left for the stratum of sample `at`.
fn next_label(counts: &[u16], ss: &[u16], at: usize, j: usize, g: usize) -> Option<usize>
    requires { HasRows g ss.now counts.now × (at < length ss.now) × (j ≤ g) }
    ensures { MatchOption result (NextLabel g counts.now (get_or ss.now at 0 * g) j g) (λ i. (i < g) × NextLabel g counts.now (get_or ss.now at 0 * g) j i) }
{
    let row = entry(ss, at) * g;
    for i in j..g {
        if counts[row + i] > 0 {
            return Some(i);
        }
    }
    None
}

// The label j is placed on sample `at`: one fewer is left for its stratum.
fn put(counts: &mut [u16], way: &mut [u16], ss: &[u16], at: usize, j: usize, g: usize)
    requires { Node g ss.now counts.old way.old at × (at < length ss.now) × (j < g) × (0 < get_or counts.old (place g ss.now at j) 0) }
    ensures { (counts.new ≡ taken counts.old (place g ss.now at j)) × (way.new ≡ set way.old at j) }
{
    let p = entry(ss, at) * g + j;
    counts[p] -= 1;
    way[at] = j as u16;
}

// The label of sample `at` is given back to its stratum, and returned.
fn give_back(counts: &mut [u16], way: &[u16], ss: &[u16], at: usize, g: usize) -> usize
    requires { Node g ss.now counts.old way.now (at + 1) }
    ensures { (result ≡ get_or way.now at 0) × (counts.new ≡ given counts.old (place g ss.now at (get_or way.now at 0))) }
{
    let j = entry(way, at);
    let p = entry(ss, at) * g + j;
    counts[p] += 1;
    j
}

// The label of sample `at` is changed for the next that is left for it, if there is one; it is given back in any case.
fn change(counts: &mut [u16], way: &mut [u16], ss: &[u16], at: usize, g: usize) -> bool
    requires { Node g ss.now counts.old way.old (at + 1) }
    ensures { Changed result g ss.now counts.new way.new at (after g ss.now counts.old way.old (at + 1)) }
{
    let last = give_back(counts, way, ss, at, g);
    if let Some(j) = next_label(counts, ss, at, last + 1, g) {
        put(counts, way, ss, at, j, g);
        return true;
    }
    false
}

// The first of the ways that begin with the first `at` labels: the first label that is left is placed on sample `at`, and so on with the rest.
pub fn fill(counts: &mut [u16], way: &mut [u16], ss: &[u16], at: usize, g: usize)
    requires { Node g ss.now counts.old way.old at }
    ensures { First g ss.now counts.new way.new
        (through g ss.now counts.old (front way.old at) at ++ after g ss.now counts.old way.old at) }
{
    if at < ss.len() {
        let j = next_label(counts, ss, at, 0, g).unwrap();
        put(counts, way, ss, at, j, g);
        fill(counts, way, ss, at + 1, g);
    }
}

// The next way with the first `at` labels as they are; whether there is one. It has the same label on sample `at` where the rest can go on, or a later one, and
// then the first way of the rest. The samples still to be labelled fall by one with each call.
fn go_on(counts: &mut [u16], way: &mut [u16], ss: &[u16], at: usize, g: usize) -> bool
    requires { Node g ss.now counts.old way.old (length ss.now) × (at ≤ length ss.now) }
    ensures { GoneOn result g ss.now counts.new way.new at (after g ss.now counts.old way.old (length ss.now)) }
{
    if at == ss.len() {
        return false;
    }
    if go_on(counts, way, ss, at + 1, g) {
        return true;
    }
    if change(counts, way, ss, at, g) {
        fill(counts, way, ss, at + 1, g);
        return true;
    }
    false
}

// The way after this one; whether there is one.
pub fn next_way(counts: &mut [u16], way: &mut [u16], ss: &[u16], g: usize) -> bool
    requires { Node g ss.now counts.old way.old (length ss.now) }
    ensures { NextWay result g ss.now counts.new way.new (after g ss.now counts.old way.old (length ss.now)) }
{
    go_on(counts, way, ss, 0, g)
}
