// Holds `test` against a record of a replay file (oracle/README.md).
use crate::{judge, label};
use lot::Lot;
use permanova::test;
use permanova_sampling::TestResult;
use replay::{Held, Record, pattern, value};

// ---- an answer

// A p, against the two words that come next. Where F is not finite there is none (docs/DIFFERENCES.md).
fn same_p_value(r: &mut Record, f: f64, p: Option<f64>) -> bool {
    let given = r.next();
    let w = r.next();
    match p {
        None => !f.is_finite() || given == 0,
        Some(p) => f.is_finite() && given == 1 && pattern(p) == w,
    }
}

// The warnings, which come next. Bits 5 and 6 read both p.
fn same_warnings(r: &mut Record, t: TestResult) -> bool {
    let w = r.next();
    let told = if t.f.is_finite() && t.disp_f.is_finite() {
        w
    } else {
        w % 32
    };
    t.summary.warnings as u64 == told
}

// Location: F, r2 and p; dispersion: F and p.
fn same_statistics(r: &mut Record, t: TestResult) -> bool {
    r.next() == pattern(t.f)
        && r.next() == pattern(t.summary.r2)
        && same_p_value(r, t.f, t.p)
        && r.next() == pattern(t.disp_f)
        && same_p_value(r, t.disp_f, t.disp_p)
}

// The record: m, g, location, dispersion, the informative fraction and the warnings.
fn same_result(r: &mut Record, t: TestResult) -> bool {
    r.next() == t.summary.n as u64
        && r.next() == t.summary.n_groups as u64
        && same_statistics(r, t)
        && r.next() == pattern(t.summary.informative_fraction)
        && same_warnings(r, t)
}

// What is lent for the groups: each one's label, count and mean z.
#[derive(Clone, Copy)]
struct Groups<'a> {
    labels: &'a [u16],
    counts: &'a [u16],
    means: &'a [f64],
}

// The first g groups. Three slices in step: a zip of zips is no plainer.
fn same_groups(r: &mut Record, g: usize, groups: Groups) -> bool {
    if groups.labels.len() < g || groups.counts.len() < g || groups.means.len() < g {
        return false;
    }
    for k in 0..g {
        let label = r.next() == u64::from(groups.labels[k]);
        let count = r.next() == u64::from(groups.counts[k]);
        let mean = r.next() == pattern(groups.means[k]);
        if !label || !count || !mean {
            return false;
        }
    }
    true
}

fn found(mut r: Record, t: TestResult, groups: Groups) -> bool {
    same_result(&mut r, t) && same_groups(&mut r, t.summary.n_groups, groups)
}

// ---- a call

// A list that may be left out, held in x.
fn given<'a, T: Copy, F: Fn(u64) -> T>(r: &mut Record, x: &'a mut [T], of: F) -> Option<&'a [T]>
    requires { F.IsAlwaysCallable of }
{
    let given = r.next();
    if given != 0 {
        r.fill(x, of);
    }
    if given == 1 { Some(x) } else { None }
}

// A call on the lot that has been read, with outputs and work of its own; the shuffles and the seed come next.
fn held(mut r: Record, lot: Lot) -> Option<Held> {
    let mut labels = [0u16; 256];
    let mut counts = [0u16; 256];
    let mut means = [0.0; 256];
    let mut pair_terms = [0.0; 65536];
    let mut weighted_squares = [0.0; 65536];
    let n_perm = r.next();
    let seed = r.next();
    let got = test(
        lot,
        seed,
        n_perm,
        &mut labels,
        &mut counts,
        &mut means,
        &mut pair_terms,
        &mut weighted_squares,
    );
    let groups = Groups {
        labels: &labels,
        counts: &counts,
        means: &means,
    };
    judge(r, got, |t, r| found(r, t, groups))
}

// The same, the lot read first into slices of just the lengths asked for.
fn read(
    mut r: Record,
    n: usize,
    distances: &mut [f64],
    labels: &mut [u16],
    strata: &mut [u16],
    weights: &mut [f64],
) -> Option<Held> {
    r.matrix(n, distances);
    r.fill(labels, label);
    let strata = given(&mut r, strata, label);
    let weights = given(&mut r, weights, value);
    let lot = Lot {
        n,
        distances,
        labels,
        strata,
        weights,
    };
    held(r, lot)
}

// The same, with the slices cut out of more.
fn cut(
    mut r: Record,
    distances: &mut [f64],
    labels: &mut [u16],
    strata: &mut [u16],
    weights: &mut [f64],
) -> Option<Held> {
    let n = r.number(256);
    read(
        r,
        n,
        distances.get_mut(..n.saturating_mul(n))?,
        labels.get_mut(..n)?,
        strata.get_mut(..n)?,
        weights.get_mut(..n)?,
    )
}

// The same, with room of its own.
pub fn hold(r: Record) -> Option<Held> {
    let mut distances = [0.0; 65536];
    let mut labels = [0u16; 256];
    let mut strata = [0u16; 256];
    let mut weights = [0.0; 256];
    cut(r, &mut distances, &mut labels, &mut strata, &mut weights)
}
