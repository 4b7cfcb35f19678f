// Holds `jacobi_eigen` against a record of a replay file (oracle/README.md).
use crate::judge;
use eigen_jacobi::jacobi_eigen;
use replay::{Held, Record, pattern};

// With slices of just the lengths asked for. The Rust does not tell the sweeps made.
fn held(
    mut r: Record,
    n: usize,
    a: &mut [f64],
    out: &mut [f64],
    rotated: &mut [f64],
    vectors: &mut [f64],
) -> Option<Held> {
    r.matrix(n, a);
    let got = jacobi_eigen(a, n, out, rotated, vectors);
    judge(r, got, |_, mut r| r.tells(out, pattern))
}

// The same, with the slices cut out of larger ones.
fn cut(
    mut r: Record,
    a: &mut [f64],
    out: &mut [f64],
    rotated: &mut [f64],
    vectors: &mut [f64],
) -> Option<Held> {
    let n = r.number(256);
    let k = n.saturating_mul(n);
    held(
        r,
        n,
        a.get_mut(..k)?,
        out.get_mut(..k.saturating_add(n))?,
        rotated.get_mut(..k)?,
        vectors.get_mut(..k)?,
    )
}

// The same, with room of its own.
pub fn hold(r: Record) -> Option<Held> {
    let mut a = [0.0; 65536];
    let mut out = [0.0; 65792];
    let mut rotated = [0.0; 65536];
    let mut vectors = [0.0; 65536];
    cut(r, &mut a, &mut out, &mut rotated, &mut vectors)
}
