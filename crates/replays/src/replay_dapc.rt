// Holds `dapc` against a record of a replay file (oracle/README.md).
use crate::{judge, label};
use dapc::dapc;
use dapc_discriminant::Separation;
use replay::{Held, Record, pattern, value};

// An answer, against m, g, p, axes, right count, g labels, values, scores, groups.
fn scored(mut r: Record, n: usize, s: Separation, out: &[f64], assigned: &[u16]) -> bool {
    r.skip(1);
    let g = r.number(256);
    if r.next() != s.columns as u64 || r.next() != s.axes as u64 || r.next() != s.right as u64 {
        return false;
    }
    r.skip(g);
    let Some(scores) = out.get(..s.axes.saturating_add(n.saturating_mul(s.axes))) else {
        return false;
    };
    r.tells(scores, pattern) && r.tells(assigned, u64::from)
}

// A call on the record, whose coordinates, labels and outputs have just the lengths asked for.
fn held(
    mut r: Record,
    n: usize,
    c: usize,
    x: &mut [f64],
    labels: &mut [u16],
    out: &mut [f64],
    assigned: &mut [u16],
) -> Option<Held> {
    r.fill(x, value);
    r.fill(labels, label);
    let got = dapc(x, n, c, labels, out, assigned);
    judge(r, got, |s, r| scored(r, n, s, out, assigned))
}

// The same, with the slices cut out of larger ones.
fn cut(
    mut r: Record,
    x: &mut [f64],
    labels: &mut [u16],
    out: &mut [f64],
    assigned: &mut [u16],
) -> Option<Held> {
    let n = r.number(256);
    let c = r.number(16);
    let k = n.saturating_mul(c);
    held(
        r,
        n,
        c,
        x.get_mut(..k)?,
        labels.get_mut(..n)?,
        out.get_mut(..k.saturating_add(c))?,
        assigned.get_mut(..n)?,
    )
}

// The same, with room of its own.
pub fn hold(r: Record) -> Option<Held> {
    let mut x = [0.0; 4096];
    let mut labels = [0u16; 256];
    let mut out = [0.0; 4112];
    let mut assigned = [0u16; 256];
    cut(r, &mut x, &mut labels, &mut out, &mut assigned)
}
