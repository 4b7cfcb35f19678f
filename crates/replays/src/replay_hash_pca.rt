// Holds `hash_pca` against a record of a replay file (oracle/README.md).
use crate::judge;
use crate::replay_gram_matrix::Sets;
use crate::replay_pcoa::found;
use ordination_hash_pca::hash_pca;
use replay::{Held, Record};

// A call on sets that have been read, with work of its own. An answer is the selected hashes, and then as that of `pcoa`.
fn held(mut r: Record, sets: Sets, out: &mut [f64]) -> Option<Held> {
    let mut gram = [0.0; 65536];
    let mut eigenpairs = [0.0; 65792];
    let mut rotated = [0.0; 65536];
    let mut vectors = [0.0; 65536];
    let mut words = [0u64; limits::MOST_SAMPLES * limits::SELECTED_WORDS];
    let n = sets.n;
    let components = r.number(65536);
    let got = hash_pca(
        sets.hashes,
        sets.offsets,
        n,
        components,
        out,
        &mut gram,
        &mut eigenpairs,
        &mut rotated,
        &mut vectors,
        &mut words,
    );
    judge(r, got, |features, r| found(r, features, n, out))
}

// The same, with the sets read first.
fn cut(mut r: Record, hashes: &mut [u64], offsets: &mut [usize], out: &mut [f64]) -> Option<Held> {
    let sets = Sets::read(&mut r, hashes, offsets)?;
    held(r, sets, out)
}

// The same, with room of its own.
pub fn hold(r: Record) -> Option<Held> {
    let mut hashes = [0u64; 65536];
    let mut offsets = [0usize; 257];
    let mut out = [0.0; 4128];
    cut(r, &mut hashes, &mut offsets, &mut out)
}
