// Sums over the terms weight·weight·square of each pair (document 01, section 2).
#![tactic(auto)]

pub mod squares;

ghost use Rattle.std.specs.Prelude.{◌≡◌, map, ◌+◌, ◌-◌, ◌*◌, ◌<◌, ◌≤◌, length, get_or};
ghost use Rattle.float.specs.Floats.{◌⊕◌, zero⁺, zero⁻};
ghost use Rattle.lists.specs.Ranges.{rows};
ghost use Rattle.lists.specs.Filters.{pairs};
ghost use Rattle.lists.specs.inner.Numbers.{Below};
ghost use Rattle.lists.specs.Sums.{sum_from};
ghost use Rattle.lists.specs.Rows.{entry};
ghost use Rattle.permanova_sums.specs.PairSums.{at, row_sum, rows_sum, pair_sum};
ghost use Rattle.permanova_sums.specs.inner.PairSums.{later_pair_terms};

// ---- the total

// The terms of sample a with each later one.
fn row_sum(t: &[f64], m: usize, a: usize) -> f64
    requires { (length t.now ≡ m * m) × (a < m) }
    ensures { result ≡ row_sum t.now m a }
{
    let mut s = -0.0;
    for b in a + 1..m {
        s = s + lists::cell(t, m, a, b);
    }
    s
}

// Their sum over all rows.
pub fn rows_sum(t: &[f64], m: usize) -> f64
    requires { length t.now ≡ m * m }
    ensures { result ≡ rows_sum t.now m }
{
    let mut s = -0.0;
    for a in 0..m {
        s = s + row_sum(t, m, a);
    }
    s
}

// The sum of a list from -0.0.
pub fn sum(w: &[f64]) -> f64
    ensures { result ≡ sum_from zero⁻ w.now }
{
    let mut s = -0.0;
    for x in w {
        s = s + *x;
    }
    s
}

// ---- within

// The entries of row a at the samples `mem`, added to s.
pub fn sum_entries(t: &[f64], m: usize, mem: &[u16], a: usize, s: f64) -> f64
    requires { (length t.now ≡ m * m) × Below m mem.now × (a < m) }
    ensures { result ≡ sum_from s (map (entry m t.now a) mem.now) }
{
    let mut u = s;
    for b in mem {
        u = u + lists::cell(t, m, a, *b as usize);
    }
    u
}

// The terms of member x with each later one, added to s.
fn pairs_with(t: &[f64], m: usize, mem: &[u16], x: usize, s: f64) -> f64
    requires { (length t.now ≡ m * m) × Below m mem.now × (x < length mem.now) }
    ensures { result ≡ sum_from s (later_pair_terms t.now m mem.now x) }
{
    sum_entries(t, m, &mem[x + 1..], mem[x] as usize, s)
}

// The terms of each of the first n members with each later one.
fn first_pairs(t: &[f64], m: usize, mem: &[u16], n: usize) -> f64
    requires { (length t.now ≡ m * m) × Below m mem.now × (n ≤ length mem.now) }
    ensures { result ≡ sum_from zero⁺ (rows n (later_pair_terms t.now m mem.now)) }
{
    let mut s = 0.0;
    for x in 0..n {
        s = pairs_with(t, m, mem, x, s);
    }
    s
}

// The pair sum of the samples `mem`, in one accumulator.
pub fn pair_sum(t: &[f64], m: usize, mem: &[u16]) -> f64
    requires { (length t.now ≡ m * m) × Below m mem.now }
    ensures { result ≡ pair_sum t.now m mem.now }
{
    first_pairs(t, m, mem, mem.len())
}

// ---- two groups side by side: two accumulators that do not wait on each other, each adding in its own order

// A sum of each of two groups.
#[derive(Drop)]
pub struct Sums {
    pub first: f64,
    pub second: f64,
}

// The entries of row a at the samples `p`, added to s, and those of row b at as many samples `q`, added to u.
fn sum_rows(t: &[f64], m: usize, p: &[u16], q: &[u16], a: usize, b: usize, s: f64, u: f64) -> Sums
    requires { (length t.now ≡ m * m) × Below m p.now × Below m q.now × (length p.now ≡ length q.now) × (a < m) × (b < m) }
    ensures { (result.first ≡ sum_from s (map (entry m t.now a) p.now))
        × (result.second ≡ sum_from u (map (entry m t.now b) q.now)) }
{
    let mut v = s;
    let mut w = u;
    for (x, y) in p.iter().zip(q) {
        v = v + lists::cell(t, m, a, *x as usize);
        w = w + lists::cell(t, m, b, *y as usize);
    }
    Sums {
        first: v,
        second: w,
    }
}

// In each of two groups of one size the terms of member x with each later one, added to s and to u.
fn pairs_with_both(t: &[f64], m: usize, p: &[u16], q: &[u16], x: usize, s: f64, u: f64) -> Sums
    requires { (length t.now ≡ m * m) × Below m p.now × Below m q.now × (length p.now ≡ length q.now) × (x < length p.now) }
    ensures { (result.first ≡ sum_from s (later_pair_terms t.now m p.now x))
        × (result.second ≡ sum_from u (later_pair_terms t.now m q.now x)) }
{
    sum_rows(
        t,
        m,
        &p[x + 1..],
        &q[x + 1..],
        p[x] as usize,
        q[x] as usize,
        s,
        u,
    )
}

// The terms of the pairs of two groups of one size, added to s and to u.
fn add_pairs(t: &[f64], m: usize, p: &[u16], q: &[u16], s: f64, u: f64) -> Sums
    requires { (length t.now ≡ m * m) × Below m p.now × Below m q.now × (length p.now ≡ length q.now) }
    ensures { (result.first ≡ sum_from s (pairs (entry m t.now) p.now))
        × (result.second ≡ sum_from u (pairs (entry m t.now) q.now)) }
{
    let mut v = s;
    let mut w = u;
    for x in 0..p.len() {
        let r = pairs_with_both(t, m, p, q, x, v, w);
        v = r.first;
        w = r.second;
    }
    Sums {
        first: v,
        second: w,
    }
}

// The pair sums of two groups: the larger one's first members alone until as many are left as the other has, then both side by side.
pub fn two_pair_sums(t: &[f64], m: usize, p: &[u16], q: &[u16]) -> Sums
    requires { (length t.now ≡ m * m) × Below m p.now × Below m q.now }
    ensures { (result.first ≡ pair_sum t.now m p.now)
        × (result.second ≡ pair_sum t.now m q.now) }
{
    let i = p.len().saturating_sub(q.len());
    let j = q.len().saturating_sub(p.len());
    let s = first_pairs(t, m, p, i);
    let u = first_pairs(t, m, q, j);
    add_pairs(t, m, &p[i..], &q[j..], s, u)
}

// ---- numbers of samples

// The numbers of the samples `mem`, added to s.
pub fn sum_at(w: &[f64], mem: &[u16], s: f64) -> f64
    requires { Below (length w.now) mem.now }
    ensures { result ≡ sum_from s (map (at w.now) mem.now) }
{
    let mut u = s;
    for a in mem {
        u = u + w[*a as usize];
    }
    u
}
