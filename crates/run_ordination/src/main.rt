// Calls of section 4's operations: `jacobi_eigen` and `gram_matrix` in modules, and here `pcoa` and `hash_pca`: for each its answer, the output, and
// whether work slices are all zero, all as they were (7), or neither.
#![tactic(auto)]

ghost use Rattle.std.specs.Prelude.{◌≤◌};

mod eigenpairs;
mod grams;
mod shown;

use outcome::Refusal;
use shown::{all_are, put, show};

fn show_passed(rt: &impl Print, r: Result<(), Refusal>) {
    let _ = match r {
        Ok(()) => println!(rt; "passed"),
        Err(e) => println!(rt; "refused {}", u8::from(e)),
    };
}

fn show_features(rt: &impl Print, r: Result<usize, Refusal>) {
    let _ = match r {
        Ok(k) => println!(rt; "features {k}"),
        Err(e) => println!(rt; "refused {}", u8::from(e)),
    };
}

// A work slice: zero, as it was, or neither.
fn show_work<T: Copy + PartialEq>(rt: &impl Print, s: &[T], zero: T, seven: T) {
    let held = if all_are(s, zero) {
        " zero"
    } else if all_are(s, seven) {
        " kept"
    } else {
        " neither"
    };
    put(rt, held);
}

// ---- `pcoa`, on slices that are longer than asked for n up to 4 and 3 components

// Work slices, and an output.
#[derive(Drop)]
struct Lent {
    out: [f64; 20],
    b: [f64; 17],
    w: [f64; 21],
    m: [f64; 17],
    v: [f64; 17],
}

impl Lent {
    fn new() -> Lent {
        Lent {
            out: [7.0; 20],
            b: [7.0; 17],
            w: [7.0; 21],
            m: [7.0; 17],
            v: [7.0; 17],
        }
    }

    fn show(&self, rt: &impl Print) {
        show(rt, &self.out);
        show_work(rt, &self.b, 0.0, 7.0);
        show_work(rt, &self.w, 0.0, 7.0);
        show_work(rt, &self.m, 0.0, 7.0);
        show_work(rt, &self.v, 0.0, 7.0);
    }
}

fn call(rt: &impl Print, d: &[f64], n: usize, components: usize) {
    let mut lent = Lent::new();
    let r = ordination_pcoa::pcoa(
        d,
        n,
        components,
        &mut lent.out,
        &mut lent.b,
        &mut lent.w,
        &mut lent.m,
        &mut lent.v,
    );
    show_passed(rt, r);
    lent.show(rt);
    put(rt, "\n");
}

// Document 01's example, a triangle whose sides are 3, 4 and 5 (also on more components than samples), and samples that are all alike.
fn answers(rt: &impl Print) {
    let example = [
        0.0, 2.0, 8.0, 10.0, 2.0, 0.0, 6.0, 8.0, 8.0, 6.0, 0.0, 2.0, 10.0, 8.0, 2.0, 0.0,
    ];
    call(rt, &example, 4, 2);
    let triangle = [0.0, 3.0, 4.0, 3.0, 0.0, 5.0, 4.0, 5.0, 0.0];
    call(rt, &triangle, 3, 2);
    call(rt, &triangle, 3, 16);
    let alike = [0.0f64; 9];
    call(rt, &alike, 3, 1);
}

// Distance 2 ^ 20 passes, and so does -0.0; the next f64 is 3, and so are a NaN and the negative number next to 0.
fn bounds(rt: &impl Print) {
    let p = 1048576.0;
    call(rt, &[-0.0, p, p, p, 0.0, p, p, p, 0.0], 3, 2);
    let q = 1048576.0000000002328306436538696289;
    call(rt, &[0.0, p, p, p, 0.0, q, p, q, 0.0], 3, 2);
    let nan = f64::NAN;
    call(rt, &[0.0, p, p, p, 0.0, p, p, p, nan], 3, 2);
    let below = -5e-324;
    call(rt, &[0.0, p, p, p, 0.0, p, p, p, below], 3, 2);
}

// An entry that is not its mirror; one on the diagonal; two samples, one half filled, where 14 comes before 6; 17 components and a NaN, which come before 14. Zeros of
// both signs mirror each other, on the diagonal too.
fn mirrors(rt: &impl Print) {
    call(
        rt,
        &[0.0, 3.0, 4.0, 3.0, 0.0, 5.0, 4.0, 5.000000000000001, 0.0],
        3,
        2,
    );
    call(rt, &[0.0, 3.0, 4.0, 3.0, 0.0, 5.0, 4.0, 5.0, 5e-324], 3, 2);
    call(rt, &[0.0, 1.0, 0.0, 0.0], 2, 2);
    call(rt, &[0.0, 3.0, 4.0, 0.0, 0.0, 5.0, 0.0, 0.0, 0.0], 3, 17);
    call(
        rt,
        &[0.0, 3.0, 4.0, 0.0, 0.0, 5.0, 0.0, 0.0, f64::NAN],
        3,
        2,
    );
    call(
        rt,
        &[-0.0, 0.0, -0.0, -0.0, 0.0, 0.0, 0.0, -0.0, -0.0],
        3,
        1,
    );
}

// Two samples; no component and 17 of them; distances that do not fit n, also where n * n wraps to their number; an output that is short.
fn refusals(rt: &impl Print) {
    call(rt, &[0.0, 1.0, 1.0, 0.0], 2, 2);
    let d = [1.0f64; 9];
    call(rt, &d, 3, 0);
    call(rt, &d, 3, 17);
    call(rt, &d, 4, 2);
    call(rt, &[], 0x1_0000_0000, 2);
    call(rt, &[1.0f64; 16], 4, 4);
}

// ---- `hash_pca`

fn call_sets(
    rt: &impl Print,
    hashes: &[u64],
    offsets: &[usize],
    n: usize,
    components: usize,
    words: &mut [u64],
) {
    let mut lent = Lent::new();
    let r = ordination_hash_pca::hash_pca(
        hashes,
        offsets,
        n,
        components,
        &mut lent.out,
        &mut lent.b,
        &mut lent.w,
        &mut lent.m,
        &mut lent.v,
        words,
    );
    show_features(rt, r);
    lent.show(rt);
    show_work(rt, words, 0, 7);
    put(rt, "\n");
}

fn call_hashes(rt: &impl Print, hashes: &[u64], offsets: &[usize], n: usize, components: usize) {
    let mut words = [7u64; 65];
    call_sets(rt, hashes, offsets, n, components, &mut words);
}

// Sets {5}, {5}, {}, {}; sets with repeats; one set fewer than 3; no hash to select; 17 components; words that are short by one.
fn sets(rt: &impl Print) {
    let two = [5u64, 5];
    call_hashes(rt, &two, &[0, 1, 2, 2, 2], 4, 2);
    call_hashes(rt, &[1, 1, 2, 2, 3, 3, 9], &[0, 3, 5, 6, 7], 4, 3);
    call_hashes(rt, &two, &[0, 1, 2], 2, 2);
    call_hashes(rt, &[5, 6], &[0, 1, 2, 2, 2], 4, 2);
    call_hashes(rt, &two, &[0, 1, 2, 2], 3, 17);
    call_sets(rt, &two, &[0, 1, 2, 2, 2], 4, 2, &mut [7; 63]);
}

// No hash at all in 0, 2 and 3 sets; a hash in every set, and one three times in one set; 17 components and none, with no hash to select.
fn catches(rt: &impl Print) {
    let all = [5u64, 5, 5];
    call_hashes(rt, &[], &[0], 0, 2);
    call_hashes(rt, &[], &[0, 0, 0], 2, 2);
    call_hashes(rt, &[], &[0, 0, 0, 0], 3, 2);
    call_hashes(rt, &all, &[0, 1, 2, 3], 3, 2);
    call_hashes(rt, &all, &[0, 3, 3, 3], 3, 2);
    call_hashes(rt, &[], &[0, 0, 0, 0], 3, 17);
    call_hashes(rt, &[], &[0, 0, 0, 0], 3, 0);
}

// m hashes to select in three sets.
fn call_wide<const ALL: usize>(rt: &impl Print, m: usize, words: &mut [u64])
    requires { ALL ≤ 2050 }
{
    let mut h = [0u64; ALL];
    grams::over_and_over(&mut h, m as u64);
    call_sets(rt, &h, &[0, m, ALL, ALL], 3, 2, words);
}

// 1,024 and 1,025, each with just the words that three sets take, and with one word less.
fn widths(rt: &impl Print) {
    call_wide::<2048>(rt, 1024, &mut [7; 48]);
    call_wide::<2048>(rt, 1024, &mut [7; 47]);
    call_wide::<2050>(rt, 1025, &mut [7; 48]);
    call_wide::<2050>(rt, 1025, &mut [7; 47]);
}

fn main(rt: HostRuntime) {
    eigenpairs::run(&rt);
    grams::run(&rt);
    answers(&rt);
    bounds(&rt);
    mirrors(&rt);
    refusals(&rt);
    sets(&rt);
    catches(&rt);
    widths(&rt);
}
