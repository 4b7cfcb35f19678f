// Calls of `gram_matrix` on document 01's case (j), on sets with repeats and on sets that are turned away, a line for each.
use crate::shown::{all_are, put};
use ordination_gram::gram_matrix;
use outcome::Refusal;

fn tell(rt: &impl Print, ok: bool) {
    put(rt, if ok { "right\n" } else { "wrong\n" });
}

// Four sets: so many selected hashes, the matrix `expected` in front of `out`, whose rest stays, and `words` all zero.
fn answered(hashes: &[u64], offsets: &[usize], m: usize, expected: &[f64]) -> bool {
    let mut out = [9.0; 18];
    let mut words = [7u64; 68];
    gram_matrix(hashes, offsets, 4, &mut out, &mut words) == Ok(m)
        && out.starts_with(expected)
        && all_are(&out[16..], 9.0)
        && all_are(&words, 0)
}

// Sets {5}, {5}, {}, {}.
fn case_j() -> bool {
    let p = 0.25;
    let q = -0.25;
    answered(
        &[5, 5],
        &[0, 1, 2, 2, 2],
        1,
        &[p, p, q, q, p, p, q, q, q, q, p, p, q, q, p, p],
    )
}

// Sets {1, 1, 2}, {2, 3}, {3}, {9}: the hash 1 stands in one set only, twice, and is selected; 9 is not.
fn repeats() -> bool {
    answered(
        &[1, 1, 2, 2, 3, 3, 9],
        &[0, 3, 5, 6, 7],
        3,
        &[
            -0.25, -0.75, -1.25, -0.75, -0.75, 0.75, 0.25, -0.25, -1.25, 0.25, 0.75, 0.25, -0.75,
            -0.25, 0.25, 0.75,
        ],
    )
}

// Turned away for the reason e: the output and `words`, which came as 7, untouched.
fn refused_with(
    e: Refusal,
    hashes: &[u64],
    offsets: &[usize],
    n: usize,
    words: &mut [u64],
) -> bool {
    let mut out = [9.0; 16];
    gram_matrix(hashes, offsets, n, &mut out, words) == Err(e)
        && all_are(&out, 9.0)
        && all_are(words, 7)
}

// The same, with the words that four sets take.
fn refused(e: Refusal, hashes: &[u64], offsets: &[usize], n: usize) -> bool {
    let mut words = [7u64; 64];
    refused_with(e, hashes, offsets, n, &mut words)
}

// 0, 1, .., m - 1, over and over.
pub fn over_and_over(h: &mut [u64], m: u64) {
    for (i, x) in h.iter_mut().enumerate() {
        *x = (i as u64).checked_rem(m).unwrap_or(0);
    }
}

// 1,024 selected hashes pass, with just the words that three sets take.
fn widest() -> bool {
    let mut h = [0u64; 2048];
    over_and_over(&mut h, 1024);
    let mut out = [9.0; 9];
    let mut words = [7u64; 48];
    gram_matrix(&h, &[0, 1024, 2048, 2048], 3, &mut out, &mut words) == Ok(1024)
        && all_are(&words, 0)
}

// One word less.
fn widest_with_short_words() -> bool {
    let mut h = [0u64; 2048];
    over_and_over(&mut h, 1024);
    let mut words = [7u64; 47];
    refused_with(Refusal::Length, &h, &[0, 1024, 2048, 2048], 3, &mut words)
}

// 1,025 hashes to select are turned away, for the reason e.
fn too_wide(e: Refusal, words: &mut [u64]) -> bool {
    let mut h = [0u64; 2050];
    over_and_over(&mut h, 1025);
    refused_with(e, &h, &[0, 1025, 2050, 2050], 3, words)
}

// 1,024 selected hashes among 65,536 that are given: the first ones stand twice, all others once.
fn many_given() -> bool {
    let mut h = [0u64; 65536];
    over_and_over(&mut h, 64512);
    let mut out = [9.0; 9];
    let mut words = [7u64; 48];
    gram_matrix(&h, &[0, 64512, 65536, 65536], 3, &mut out, &mut words) == Ok(1024)
}

// Just the words that three sets take, and one less: 1 is tested before 7.
fn widths(rt: &impl Print) {
    tell(rt, widest());
    tell(rt, widest_with_short_words());
    tell(rt, too_wide(Refusal::Hashes, &mut [7; 48]));
    tell(rt, too_wide(Refusal::Length, &mut [7; 47]));
    tell(rt, many_given());
}

// 65,536 hashes pass the limit, and have none that can be used; one more is beyond it.
fn longest() -> bool {
    let h = [5u64; 65537];
    refused(Refusal::NoHashes, &h[..65536], &[0, 65536, 65536, 65536], 3)
        && refused(Refusal::Limit, &h, &[0, 65537, 65537, 65537], 3)
}

// 257 samples.
fn too_many() -> bool {
    let offsets = [0usize; 258];
    let mut out = [9.0; 66049];
    let mut words = [7u64; 4112];
    gram_matrix(&[], &offsets, 257, &mut out, &mut words) == Err(Refusal::Limit)
        && all_are(&out, 9.0)
        && all_are(&words, 7)
}

// No hash at all in 0, 2 and 3 sets; a hash in every set, and one three times in one set: both are as frequent as there are samples.
fn catches(rt: &impl Print) {
    let all = [5, 5, 5];
    tell(rt, refused(Refusal::Ordination, &[], &[0], 0));
    tell(rt, refused(Refusal::Ordination, &[], &[0, 0, 0], 2));
    tell(rt, refused(Refusal::NoHashes, &[], &[0, 0, 0, 0], 3));
    tell(rt, refused(Refusal::NoHashes, &all, &[0, 1, 2, 3], 3));
    tell(rt, refused(Refusal::NoHashes, &all, &[0, 3, 3, 3], 3));
}

pub fn run(rt: &impl Print) {
    let two = [5, 5];
    tell(rt, case_j());
    tell(rt, repeats());
    tell(rt, refused(Refusal::Length, &two, &[0, 1, 2, 2, 2], 5));
    tell(
        rt,
        refused(Refusal::Length, &two, &[0, 1, 2, 2, 2], usize::MAX),
    );
    tell(rt, refused(Refusal::Length, &two, &[0, 1, 2, 2, 1], 4));
    tell(rt, refused(Refusal::Length, &two, &[0, 2, 1, 2, 2], 4));
    tell(rt, refused(Refusal::Length, &two, &[1, 1, 2, 2, 2], 4));
    tell(rt, refused(Refusal::Ordination, &two, &[0, 1, 2], 2));
    tell(rt, refused(Refusal::NoHashes, &[5, 6], &[0, 1, 2, 2, 2], 4));
    widths(rt);
    tell(rt, longest());
    tell(rt, too_many());
    catches(rt);
}
