// Holds `gram_matrix` against a record of a replay file (oracle/README.md).
use crate::judge;
use ordination_gram::gram_matrix;
use replay::{Held, Record};

// n sets of hashes between offsets.
#[derive(Clone, Copy)]
pub struct Sets<'a> {
    pub n: usize,
    pub hashes: &'a [u64],
    pub offsets: &'a [usize],
}

impl<'a> Sets<'a> {
    // The next sets of a record, held in slices that are as long or longer. The last offset is the number of hashes.
    pub fn read(
        r: &mut Record,
        hashes: &'a mut [u64],
        offsets: &'a mut [usize],
    ) -> Option<Sets<'a>> {
        let n = r.number(256);
        let h = r.word(n).min(65536) as usize;
        let hashes = hashes.get_mut(..h)?;
        let offsets = offsets.get_mut(..n + 1)?;
        r.fill(offsets, |w| w as usize);
        r.fill(hashes, |w| w);
        Some(Sets { n, hashes, offsets })
    }
}

// An answer, against the selected hashes, and the entries i <= j row by row.
fn selected(mut r: Record, n: usize, k: usize, out: &[f64]) -> bool {
    r.next() == k as u64 && r.tells_upper(n, out)
}

// A call on sets that have been read, with an output of just the length asked for.
fn held(r: Record, sets: Sets, out: &mut [f64], words: &mut [u64]) -> Option<Held> {
    let n = sets.n;
    let got = gram_matrix(sets.hashes, sets.offsets, n, out, words);
    judge(r, got, |k, r| selected(r, n, k, out))
}

// The same, with the slices cut out of larger ones.
fn cut(
    mut r: Record,
    hashes: &mut [u64],
    offsets: &mut [usize],
    out: &mut [f64],
    words: &mut [u64],
) -> Option<Held> {
    let sets = Sets::read(&mut r, hashes, offsets)?;
    let n = sets.n;
    held(
        r,
        sets,
        out.get_mut(..n.saturating_mul(n))?,
        words.get_mut(..n.saturating_mul(limits::SELECTED_WORDS))?,
    )
}

// The same, with room of its own.
pub fn hold(r: Record) -> Option<Held> {
    let mut hashes = [0u64; 65536];
    let mut offsets = [0usize; 257];
    let mut out = [0.0; 65536];
    let mut words = [0u64; limits::MOST_SAMPLES * limits::SELECTED_WORDS];
    cut(r, &mut hashes, &mut offsets, &mut out, &mut words)
}
