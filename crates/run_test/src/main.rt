// Calls of `test` at the edges of each refusal, and with each warning: for each its answer, then the outputs and what both work slices hold. Every slice holds 7 at first.
#![tactic(auto)]

ghost use Rattle.std.specs.Prelude.{◌≤◌};

use lot::Lot;
use outcome::Refusal;
use permanova_sampling::TestResult;
use replay::{Bits, pattern};
use std::fmt;

// ---- what is printed

// A write that fails is passed over.
fn put(rt: &impl Print, text: &str) {
    let _ = rt.print(text);
}

// A p, or that there is none.
#[derive(Clone, Copy, Debug)]
struct P(Option<f64>);

impl fmt::Display for P {
    fn fmt<W: fmt::Write>(&self, f: &mut fmt::Formatter<W>) -> fmt::Result {
        match self.0 {
            Some(p) => write!(f, "{}", Bits(p)),
            None => write!(f, "none"),
        }
    }
}

// Kept samples and groups, F, r2 and p, F and p of dispersion, the informative fraction, the warnings.
fn show_result(rt: &impl Print, r: TestResult) {
    let s = r.summary;
    let _ = print!(rt; "tested {} {}", s.n, s.n_groups);
    let _ = print!(rt; " {} {} {}", Bits(r.f), Bits(s.r2), P(r.p));
    let _ = print!(rt; " {} {}", Bits(r.disp_f), P(r.disp_p));
    let _ = println!(rt; " {} {}", Bits(s.informative_fraction), s.warnings);
}

fn show_answer(rt: &impl Print, a: Result<TestResult, Refusal>) {
    match a {
        Ok(r) => show_result(rt, r),
        Err(e) => {
            let _ = println!(rt; "refused {}", u8::from(e));
        }
    }
}

fn show_counts(rt: &impl Print, s: &[u16]) {
    for x in s {
        let _ = print!(rt; " {x}");
    }
    put(rt, " |");
}

fn show_numbers(rt: &impl Print, s: &[f64]) {
    for x in s {
        let _ = print!(rt; " {}", Bits(*x));
    }
    put(rt, " |");
}

// Whether every number has these bits. So -0.0 is not 0.0.
fn all_are(s: &[f64], bits: u64) -> bool {
    s.iter().all(|x| pattern(*x) == bits)
}

// Whether a work slice is 0.0 throughout, or 7.0 as it was.
fn show_work(rt: &impl Print, s: &[f64]) {
    let held = if all_are(s, 0) {
        " zero"
    } else if all_are(s, 0x401c_0000_0000_0000) {
        " untouched"
    } else {
        " mixed"
    };
    put(rt, held);
}

// ---- calls

// With outputs and work slices of these lengths.
fn call_sized<const A: usize, const B: usize, const C: usize, const T: usize, const P: usize>(
    rt: &impl Print,
    lot: Lot,
    n_perm: u64,
)
    requires { (A ≤ 16) × (B ≤ 16) × (C ≤ 16) × (T ≤ 256) × (P ≤ 256) }
{
    let mut group_labels = [7u16; A];
    let mut counts = [7u16; B];
    let mut means = [7.0; C];
    let mut pair_terms = [7.0; T];
    let mut weighted_squares = [7.0; P];
    let a = permanova::test(
        lot,
        42,
        n_perm,
        &mut group_labels,
        &mut counts,
        &mut means,
        &mut pair_terms,
        &mut weighted_squares,
    );
    show_answer(rt, a);
    show_counts(rt, &group_labels);
    show_counts(rt, &counts);
    show_numbers(rt, &means);
    show_work(rt, &pair_terms);
    show_work(rt, &weighted_squares);
    put(rt, "\n");
}

// With those that 4 samples ask.
fn call(rt: &impl Print, lot: Lot, n_perm: u64) {
    call_sized::<4, 4, 4, 16, 16>(rt, lot, n_perm);
}

// Neither strata nor weights are given.
fn plain<'a>(n: usize, distances: &'a [f64], labels: &'a [u16]) -> Lot<'a> {
    Lot {
        n,
        distances,
        labels,
        strata: None,
        weights: None,
    }
}

// The distances of document 01's example.
const EXAMPLE: [f64; 16] = [
    0.0, 2.0, 8.0, 10.0, 2.0, 0.0, 6.0, 8.0, 8.0, 6.0, 0.0, 2.0, 10.0, 8.0, 2.0, 0.0,
];

// Two labels, held by two samples each.
const TWO: [u16; 4] = [0, 0, 1, 1];

fn with_labels(rt: &impl Print, labels: &[u16], n_perm: u64) {
    call(rt, plain(4, &EXAMPLE, labels), n_perm);
}

fn with_distances(rt: &impl Print, distances: &[f64]) {
    call(rt, plain(4, distances, &TWO), 9);
}

fn with_strata(rt: &impl Print, strata: &[u16]) {
    let strata = Some(strata);
    call(
        rt,
        Lot {
            strata,
            ..plain(4, &EXAMPLE, &TWO)
        },
        99,
    );
}

fn with_weights(rt: &impl Print, distances: &[f64], labels: &[u16], weights: &[f64]) {
    let weights = Some(weights);
    call(
        rt,
        Lot {
            weights,
            ..plain(4, distances, labels)
        },
        9,
    );
}

// n samples that are not there.
fn with_none(rt: &impl Print, n: usize) {
    call(rt, plain(n, &[], &[]), 9);
}

// ---- the edges

fn lengths(rt: &impl Print) {
    let lot = plain(4, &EXAMPLE, &TWO);
    call_sized::<4, 4, 4, 16, 16>(rt, lot, 9);
    call_sized::<6, 5, 6, 20, 17>(rt, lot, 9);
    call_sized::<3, 4, 4, 16, 16>(rt, lot, 9);
    call_sized::<4, 3, 4, 16, 16>(rt, lot, 9);
    call_sized::<4, 4, 3, 16, 16>(rt, lot, 9);
    call_sized::<4, 4, 4, 15, 16>(rt, lot, 9);
    call_sized::<4, 4, 4, 16, 15>(rt, lot, 9);
}

// Labels, strata or weights of another length; none of the strata and the weights.
fn misfits(rt: &impl Print) {
    with_labels(rt, &[0, 0, 1], 9);
    with_distances(rt, &[1.0; 15]);
    with_strata(rt, &[0, 0, 1]);
    with_weights(rt, &EXAMPLE, &TWO, &[1.0, 1.0, 1.0]);
    with_labels(rt, &TWO, 9);
}

// Distances: NaN, below 0, -0.0, 2^20 and the next f64.
fn distances(rt: &impl Print) {
    for x in [f64::NAN, -5e-324, -0.0, 1048576.0, 1048576.0000000002] {
        let mut d = EXAMPLE;
        d[1] = x;
        d[4] = x;
        with_distances(rt, &d);
    }
}

// Entry k of the example is x, and its mirror stays.
fn with_entry(rt: &impl Print, k: usize, x: f64) {
    let mut d = EXAMPLE;
    if let Some(entry) = d.get_mut(k) {
        *entry = x;
    }
    with_distances(rt, &d);
}

// The example with one half filled, that above the diagonal.
const HALF: [f64; 16] = [
    0.0, 2.0, 8.0, 10.0, 0.0, 0.0, 6.0, 8.0, 0.0, 0.0, 0.0, 2.0, 0.0, 0.0, 0.0, 0.0,
];

// An entry next to its mirror, above the diagonal and below it; on the diagonal the smallest number, and 1 in the last place; one half filled. A zero of either sign
// passes on the diagonal.
fn mirrors(rt: &impl Print) {
    with_entry(rt, 1, 2.0000000000000004);
    with_entry(rt, 14, 1.9999999999999998);
    with_entry(rt, 0, 5e-324);
    with_entry(rt, 15, 1.0);
    with_distances(rt, &HALF);
    with_entry(rt, 5, -0.0);
}

// A zero whose mirror has the other sign, on either side: what two zeros give. An entry that differs from its mirror between samples that are not kept.
fn mirrored_zeros(rt: &impl Print) {
    for x in [0.0, -0.0] {
        let mut d = EXAMPLE;
        d[1] = x;
        d[4] = -x;
        with_distances(rt, &d);
    }
    let mut star = STAR;
    star[29] = 1.0;
    call_sixteen(rt, plain(6, &star, &[0, 0, 1, 1, 65535, 65535]));
}

// Weights: 2^-20 and 2^20, and their neighbours outside.
fn weights(rt: &impl Print) {
    for x in [
        0.00000095367431640625,
        0.0000009536743164062499,
        1048576.0,
        1048576.0000000002,
        f64::NAN,
    ] {
        with_weights(rt, &EXAMPLE, &TWO, &[1.0, x, 1.0, 1.0]);
    }
}

// Labels of document 01's cases, too few of them, and one left out.
fn labels(rt: &impl Print) {
    with_labels(rt, &[0, 1, 0, 1], 99);
    with_labels(rt, &[0, 1, 1, 0], 99);
    with_labels(rt, &[5, 5, 65535, 65535], 9);
    with_labels(rt, &[9, 3, 3, 9], 0);
    with_labels(rt, &[0, 0, 1, 65535], 9);
    call(rt, plain(4, &[0.0; 16], &TWO), 99);
}

// Strata of which none, both and some inform; a sample with none stands alone.
fn strata(rt: &impl Print) {
    with_strata(rt, &[0, 0, 1, 1]);
    with_strata(rt, &[8, 3, 3, 8]);
    with_strata(rt, &[65535, 3, 3, 65535]);
}

// Shuffles up to their limit.
fn shuffles(rt: &impl Print) {
    with_labels(rt, &TWO, 999999);
    with_labels(rt, &TWO, 1000000);
}

// n of 0, 1 and 2, and lengths that would wrap.
fn sizes(rt: &impl Print) {
    with_none(rt, 0);
    call(rt, plain(1, &[0.0], &[0]), 9);
    call(rt, plain(2, &[0.0, 1.0, 1.0, 0.0], &[0, 0]), 9);
    with_none(rt, 0x1_0000_0000);
    with_none(rt, 0x8000_0000_0000_0000);
}

// The first line wins: 1 before 2, 2 before 3, 3 before 4, 4 before 5.
fn order(rt: &impl Print) {
    let mut d = EXAMPLE;
    call(rt, plain(4, &[1.0; 15], &TWO), 1000000);
    d[3] = -1.0;
    call(rt, plain(4, &d, &TWO), 1000000);
    with_weights(rt, &d, &TWO, &[0.0; 4]);
    with_weights(rt, &EXAMPLE, &[0, 0, 1, 2], &[0.0; 4]);
}

// 1, 2 and 3 before 14, and 14 before 4 and 5.
fn order_of_the_mirror(rt: &impl Print) {
    let mut d = HALF;
    call(rt, plain(4, &d, &[0, 0, 1]), 9);
    call(rt, plain(4, &d, &TWO), 1000000);
    with_weights(rt, &d, &TWO, &[0.0; 4]);
    call(rt, plain(4, &d, &[0, 0, 1, 2]), 9);
    d[3] = -1.0;
    with_distances(rt, &d);
}

// ---- the warnings

// The distances of 16 samples on a line.
fn on_a_line(places: &[f64; 16]) -> [f64; 256] {
    let mut d = [0.0; 256];
    for k in 0..256 {
        d[k] = (places[k / 16] - places[k % 16]).abs();
    }
    d
}

// With outputs and work slices for 16 samples, and 99 shuffles.
fn call_sixteen(rt: &impl Print, lot: Lot) {
    call_sized::<16, 16, 16, 256, 256>(rt, lot, 99);
}

fn with_places(rt: &impl Print, places: &[f64; 16], labels: &[u16], strata: Option<&[u16]>) {
    let d = on_a_line(places);
    call_sixteen(
        rt,
        Lot {
            strata,
            ..plain(16, &d, labels)
        },
    );
}

const NEAR: [f64; 16] = [
    0.0, 1.0, 2.0, 4.0, 4.0, 5.0, 6.0, 7.0, 3.0, 4.0, 5.0, 6.0, 7.0, 8.0, 9.0, 13.0,
];

const FAR: [f64; 16] = [
    0.0, 1.0, 2.0, 4.0, 4.0, 5.0, 6.0, 7.0, 40.0, 50.0, 60.0, 70.0, 80.0, 90.0, 100.0, 130.0,
];

const UNEVEN: [f64; 16] = [
    0.0, 1.0, 2.0, 4.0, 4.0, 5.0, 6.0, 7.0, 8.0, 9.0, 10.0, 11.0, 40.0, 44.0, 49.0, 56.0,
];

const HALVES: [u16; 16] = [0, 0, 0, 0, 0, 0, 0, 0, 1, 1, 1, 1, 1, 1, 1, 1];

const ALONE: [u16; 16] = [0, 0, 0, 0, 0, 0, 0, 5, 1, 1, 1, 1, 1, 1, 1, 65535];

const QUARTER: [u16; 16] = [0, 0, 0, 0, 0, 0, 0, 0, 0, 0, 0, 0, 1, 1, 1, 1];

const PAIR: [u16; 16] = [1, 1, 1, 1, 1, 1, 1, 3, 2, 2, 2, 2, 2, 2, 2, 3];

// In both groups the first sample is 1 from the two others, which are 10 apart: its value is below 0.
const STAR: [f64; 36] = [
    0.0, 1.0, 1.0, 5.0, 5.0, 5.0, 1.0, 0.0, 10.0, 5.0, 5.0, 5.0, 1.0, 10.0, 0.0, 5.0, 5.0, 5.0,
    5.0, 5.0, 5.0, 0.0, 1.0, 1.0, 5.0, 5.0, 5.0, 1.0, 0.0, 10.0, 5.0, 5.0, 5.0, 1.0, 10.0, 0.0,
];

// No warning; 0: a label held once; 2: one stratum of two informs; 5: both p are below 0.05; 6, with 3: groups of 12 and 4; 4, with 3. 1 is among the
// strata above.
fn warnings(rt: &impl Print) {
    with_places(rt, &NEAR, &HALVES, None);
    with_places(rt, &NEAR, &ALONE, None);
    with_places(rt, &NEAR, &HALVES, Some(&PAIR));
    with_places(rt, &FAR, &HALVES, None);
    with_places(rt, &UNEVEN, &QUARTER, None);
    call_sixteen(rt, plain(6, &STAR, &[0, 0, 0, 1, 1, 1]));
}

// ---- more samples than are allowed

// 257 samples, with slices that fit them: the answer, and whether anything was touched.
fn call_many(
    rt: &impl Print,
    lot: Lot,
    numbers: &mut [u16],
    counts: &mut [u16],
    means: &mut [f64],
    pair_terms: &mut [f64],
    weighted_squares: &mut [f64],
) {
    let a = permanova::test(
        lot,
        42,
        9,
        numbers,
        counts,
        means,
        pair_terms,
        weighted_squares,
    );
    show_answer(rt, a);
    show_work(rt, means);
    show_work(rt, pair_terms);
    show_work(rt, weighted_squares);
    put(rt, "\n");
}

fn many(rt: &impl Print) {
    let d = [1.0f64; 66049];
    let labels = [3u16; 257];
    let mut numbers = [7u16; 257];
    let mut counts = [7u16; 257];
    let mut means = [7.0f64; 257];
    let mut pair_terms = [7.0f64; 66049];
    let mut weighted_squares = [7.0f64; 66049];
    call_many(
        rt,
        plain(257, &d, &labels),
        &mut numbers,
        &mut counts,
        &mut means,
        &mut pair_terms,
        &mut weighted_squares,
    );
}

fn main(rt: HostRuntime) {
    lengths(&rt);
    misfits(&rt);
    distances(&rt);
    mirrors(&rt);
    mirrored_zeros(&rt);
    weights(&rt);
    labels(&rt);
    strata(&rt);
    shuffles(&rt);
    sizes(&rt);
    order(&rt);
    order_of_the_mirror(&rt);
    warnings(&rt);
    many(&rt);
}
