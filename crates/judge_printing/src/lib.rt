// The output of `lotjudge` (document 01, section 7): the lines of a verdict or a refusal.
#![tactic(auto)]

pub mod hexadecimal;

ghost use Rattle.std.specs.Prelude.{◌≡◌, ◌++◌, ◌+◌, ◌≤◌, length};
ghost use Rattle.limits.specs.Limits.{most_printed};
ghost use Rattle.float.specs.Floats.{bits};
ghost use Rattle.exhaustive_hits.specs.Call.{answer_of};
ghost use Rattle.judge_printing.specs.Hex.{hex, feed};
ghost use Rattle.judge_printing.specs.inner.Written.{Wrote};
ghost use Rattle.judge_printing.specs.Page.{page, onto};
ghost use Rattle.outcome.specs.Numbers.{number};
ghost use Rattle.judge_printing.specs.Printed.{tested_line, assigned_line, verdict_lines, refusal_line, printed};

use exhaustive_hits::judgement::{Judgement, Tested};
use outcome::Refusal;
use permanova_p_values::Statistic;

// ---- lines

// Each kind of line is a number: the output's lines begin with it, each of them in one place below.

// A line of a kind with one number of two digits.
fn put_short(out: &mut [u8], at: usize, kind: u64, x: u64) -> usize
    requires { at + 5 ≤ length out.old }
    ensures { Wrote out.old at 5 (hex 2 kind ++ hex 2 x ++ feed) out.new result }
{
    let p = hexadecimal::put_hex(out, at, 2, kind);
    let q = hexadecimal::put_hex(out, p, 2, x);
    hexadecimal::put_feed(out, q)
}

// A line of a kind with numbers of 2, count and 8 digits.
fn put_line(out: &mut [u8], at: usize, kind: u64, x: u64, count: usize, y: u64, z: u64) -> usize
    requires { (at + (2 + 2 + count + 8 + 1) ≤ length out.old) × (count ≤ 16) }
    ensures { Wrote out.old at (2 + 2 + count + 8 + 1) (hex 2 kind ++ hex 2 x ++ hex count y ++ hex 8 z ++ feed) out.new result }
{
    let p = hexadecimal::put_hex(out, at, 2, kind);
    let q = hexadecimal::put_hex(out, p, 2, x);
    let r = hexadecimal::put_hex(out, q, count, y);
    let s = hexadecimal::put_hex(out, r, 8, z);
    hexadecimal::put_feed(out, s)
}

// The bits of an f64.
fn pattern_of(f: f64) -> u64
    ensures { result ≡ bits f }
{
    if f.is_nan() {
        return 0x7ff8_0000_0000_0000;
    }
    f.to_bits()
}

// ---- the lines of a verdict

fn put_tested(out: &mut [u8], at: usize, kind: u64, t: Tested<Statistic>) -> usize
    requires { at + 29 ≤ length out.old }
    ensures { Wrote out.old at 29 (tested_line kind t.statistic t.hits) out.new result }
{
    let s = t.statistic;
    let state = permanova_p_values::state_of(s);
    let f = permanova_p_values::value_of(s);
    put_line(out, at, kind, state, 16, pattern_of(f), t.hits as u64)
}

// 01 and how many are right, or 02 and 0 where there is no assignment.
fn put_assigned(out: &mut [u8], at: usize, t: Tested<Option<usize>>) -> usize
    requires { at + 15 ≤ length out.old }
    ensures { Wrote out.old at 15 (assigned_line t.statistic t.hits) out.new result }
{
    match t.statistic {
        Some(right) => put_line(out, at, 0xb5, 1, 2, right as u64, t.hits as u64),
        None => put_line(out, at, 0xb5, 2, 2, 0, t.hits as u64),
    }
}

fn print_verdict(v: Judgement, out: &mut [u8]) -> usize
    requires { most_printed ≤ length out.old }
    ensures { Wrote out.old 0 most_printed (verdict_lines v) out.new result }
{
    let Judgement {
        summary,
        ways,
        location,
        dispersion,
        assigned,
    } = v;
    let p = put_line(
        out,
        0,
        0xb1,
        summary.n as u64,
        2,
        summary.n_groups as u64,
        ways as u64,
    );
    let q = put_tested(out, p, 0xb2, location);
    let r = put_tested(out, q, 0xb3, dispersion);
    let s = put_short(out, r, 0xb4, summary.warnings as u64);
    put_assigned(out, s, assigned)
}

fn print_refusal(r: Refusal, out: &mut [u8]) -> usize
    requires { 5 ≤ length out.old }
    ensures { Wrote out.old 0 5 (refusal_line (number r)) out.new result }
{
    put_short(out, 0, 0xbf, u64::from(u8::from(r)))
}

// `print` on a slice.
pub fn print_into(a: Result<Judgement, Refusal>, out: &mut [u8]) -> usize
    requires { most_printed ≤ length out.old }
    ensures { page result out.new ≡ onto (printed (answer_of a)) out.old }
{
    match a {
        Ok(v) => print_verdict(v, out),
        Err(r) => print_refusal(r, out),
    }
}

// Prints a verdict or a refusal at the front of `out`; the answer is the number of bytes.
pub fn print(a: Result<Judgement, Refusal>, out: &mut [u8; limits::MOST_PRINTED]) -> usize
    ensures { page result out.new ≡ onto (printed (answer_of a)) out.old }
{
    print_into(a, out)
}
