// Holds `pcoa` against a record of a replay file (oracle/README.md).
use crate::judge;
use ordination_pcoa::pcoa;
use replay::{Held, Record, pattern};

// An answer, against k values, k variance shares and coordinates n by k, after k; and a number before it.
pub fn found(mut r: Record, number: usize, n: usize, out: &[f64]) -> bool {
    let first = r.next();
    let k = r.number(16);
    let Some(coordinates) = out.get(..k.saturating_add(k).saturating_add(n.saturating_mul(k)))
    else {
        return false;
    };
    first == number as u64 && r.tells(coordinates, pattern)
}

// A call on a matrix of just the entries asked for, with work of its own.
fn held(mut r: Record, n: usize, distances: &mut [f64], out: &mut [f64]) -> Option<Held> {
    let mut centred = [0.0; 65536];
    let mut eigenpairs = [0.0; 65792];
    let mut rotated = [0.0; 65536];
    let mut vectors = [0.0; 65536];
    r.matrix(n, distances);
    let components = r.number(65536);
    let got = pcoa(
        distances,
        n,
        components,
        out,
        &mut centred,
        &mut eigenpairs,
        &mut rotated,
        &mut vectors,
    );
    judge(r, got, |_, r| found(r, n, n, out))
}

// The same, with the matrix cut out of a larger one.
fn cut(mut r: Record, distances: &mut [f64], out: &mut [f64]) -> Option<Held> {
    let n = r.number(256);
    held(r, n, distances.get_mut(..n.saturating_mul(n))?, out)
}

// The same, with room of its own.
pub fn hold(r: Record) -> Option<Held> {
    let mut distances = [0.0; 65536];
    let mut out = [0.0; 4128];
    cut(r, &mut distances, &mut out)
}
