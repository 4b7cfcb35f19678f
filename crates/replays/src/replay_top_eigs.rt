// Holds `top_eigs` against a record of a replay file (oracle/README.md).
use crate::judge;
use eigen_top::top_eigs;
use replay::{Held, Record, pattern};

// An answer, against k, then k values and k rows of n.
fn found(mut r: Record, n: usize, out: &[f64]) -> bool {
    let k = r.number(16);
    let Some(eigenpairs) = out.get(..k.saturating_add(k.saturating_mul(n))) else {
        return false;
    };
    r.tells(eigenpairs, pattern)
}

// A call on a matrix of just the entries asked for, with work of its own.
fn held(mut r: Record, n: usize, a: &mut [f64], out: &mut [f64]) -> Option<Held> {
    let mut eigenpairs = [0.0; 65792];
    let mut rotated = [0.0; 65536];
    let mut vectors = [0.0; 65536];
    r.matrix(n, a);
    let components = r.number(65536);
    let got = top_eigs(
        a,
        n,
        components,
        out,
        &mut eigenpairs,
        &mut rotated,
        &mut vectors,
    );
    judge(r, got, |_, r| found(r, n, out))
}

// The same, with the matrix cut out of a larger one.
fn cut(mut r: Record, a: &mut [f64], out: &mut [f64]) -> Option<Held> {
    let n = r.number(256);
    held(r, n, a.get_mut(..n.saturating_mul(n))?, out)
}

// The same, with room of its own.
pub fn hold(r: Record) -> Option<Held> {
    let mut a = [0.0; 65536];
    let mut out = [0.0; 4112];
    cut(r, &mut a, &mut out)
}
