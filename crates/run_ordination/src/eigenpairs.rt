// Calls of `jacobi_eigen`: for each its answer, and then the output and both work slices, a line each. Every slice holds 7 at first.
ghost use Rattle.std.specs.Prelude.{◌≤◌};

use crate::shown::{put, show};
use eigen_jacobi::jacobi_eigen;
use outcome::Refusal;
use replay::Bits;

// The sweeps made, or the number of the refusal.
fn show_answer(rt: &impl Print, r: Result<usize, Refusal>) {
    let _ = match r {
        Ok(k) => println!(rt; "sweeps {k}"),
        Err(e) => println!(rt; "refused {}", u8::from(e)),
    };
}

// With slices of these lengths.
fn call<const O: usize, const M: usize, const V: usize>(rt: &impl Print, a: &[f64], n: usize)
    requires { (O ≤ 13) × (M ≤ 10) × (V ≤ 10) }
{
    let mut out = [7.0; O];
    let mut m = [7.0; M];
    let mut v = [7.0; V];
    show_answer(rt, jacobi_eigen(a, n, &mut out, &mut m, &mut v));
    show(rt, &out);
    show(rt, &m);
    show(rt, &v);
}

// For n up to 3: slices that are longer than asked.
fn call_small(rt: &impl Print, a: &[f64], n: usize) {
    call::<13, 10, 10>(rt, a, n);
}

// Document 01's cases: diagonal 1, 3, and sums beyond the largest f64.
fn cases(rt: &impl Print) {
    call_small(rt, &[1.0, 0.0, 0.0, 3.0], 2);
    call_small(rt, &[-1.7e308, 1e308, 1e308, 1.7e308], 2);
}

// No entries, and one.
fn small(rt: &impl Print) {
    call_small(rt, &[], 0);
    call_small(rt, &[5.0], 1);
}

// Rotations, and ties in index order: 5, 2, 2, and zeros of either sign.
fn larger(rt: &impl Print) {
    call_small(rt, &[4.0, 1.0, 2.0, 1.0, 3.0, 0.5, 2.0, 0.5, 1.0], 3);
    call_small(rt, &[2.0, 0.0, 0.0, 0.0, 5.0, 0.0, 0.0, 0.0, 2.0], 3);
    call_small(rt, &[-0.0, 0.0, 0.0, 0.0], 2);
}

// A matrix of another length, a square that would wrap to 0, and entries that are not finite.
fn unfit(rt: &impl Print) {
    call_small(rt, &[1.0; 3], 2);
    call_small(rt, &[], 0x1_0000_0000);
    call_small(rt, &[1.0, f64::INFINITY, 0.0, 1.0], 2);
    call_small(rt, &[1.0, 0.0, 0.0, f64::NAN], 2);
}

// A slice that is short by one.
fn short(rt: &impl Print) {
    let a = [1.0; 4];
    call::<5, 4, 4>(rt, &a, 2);
    call::<6, 3, 4>(rt, &a, 2);
    call::<6, 4, 3>(rt, &a, 2);
}

// n above its limit, with slices that fit it: the answer, and the first entry of each.
fn show_first(rt: &impl Print, s: &[f64]) {
    if let Some(x) = s.first() {
        let _ = print!(rt; " {}", Bits(*x));
    }
    put(rt, "\n");
}

fn call_many(rt: &impl Print, a: &[f64], out: &mut [f64], m: &mut [f64], v: &mut [f64]) {
    show_answer(rt, jacobi_eigen(a, 257, out, m, v));
    show_first(rt, out);
    show_first(rt, m);
    show_first(rt, v);
}

fn many(rt: &impl Print) {
    let a = [1.0f64; 66049];
    let mut out = [7.0f64; 66306];
    let mut m = [7.0f64; 66049];
    let mut v = [7.0f64; 66049];
    call_many(rt, &a, &mut out, &mut m, &mut v);
}

pub fn run(rt: &impl Print) {
    cases(rt);
    small(rt);
    larger(rt);
    unfit(rt);
    short(rt);
    many(rt);
}
