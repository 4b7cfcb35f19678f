// Reads texts as `lotjudge` does and writes a line for each: n, whether strata are given, the labels and strata of the first two samples, the first
// four distances and a sum over all that is held; or the refusal's number; then what `judge` prints. Last it prints verdicts and refusals.
// The files under data/ have the texts, each as NAME|TEXT#; two of 1 MiB are made here. The file `stdout` was made by oracle/frames.py, which reads
// them by its own rules.
#![tactic(auto)]

ghost use Rattle.std.specs.Prelude.{◌-◌, ◌≤◌, length};
ghost use Rattle.limits.specs.Limits.{most_printed};

use exhaustive_hits::judgement::{Judgement, Tested};
use judge_frames::Header;
use outcome::Refusal;
use permanova_p_values::Statistic;
use permanova_statistics::summary::Summary;
use std::fs;
use std::io::Read;
use std::rt::Files;

// A write that fails is passed over.
fn put(rt: &impl Print, text: &str) {
    let _ = rt.print(text);
}

// The first n bytes of s.
fn write_front(rt: &impl Print, s: &[u8], n: usize) {
    if let Some(front) = s.get(..n) {
        let _ = rt.write_all(front);
    }
}

fn mix(h: u64, x: u64) -> u64 {
    h.rotate_left(5) ^ x
}

// A sum over all that is held.
fn sum_of(labels: &[u16; 32], strata: &[u16; 32], distances: &[f64; 1024]) -> u64 {
    let mut h = 1;
    for x in labels {
        h = mix(h, u64::from(*x));
    }
    for x in strata {
        h = mix(h, u64::from(*x));
    }
    for x in distances {
        h = mix(h, replay::pattern(*x));
    }
    h
}

fn show_lot(
    rt: &impl Print,
    header: Header,
    labels: &[u16; 32],
    strata: &[u16; 32],
    distances: &[f64; 1024],
) {
    let _ = print!(rt; " {:02x}", header.n);
    if header.stratified {
        put(rt, " strata");
    }
    for (label, stratum) in labels.iter().zip(strata).take(2) {
        let _ = print!(rt; " {label:04x} {stratum:04x}");
    }
    for d in &distances[..4] {
        let _ = print!(rt; " {:016x}", replay::pattern(*d));
    }
    let _ = print!(rt; " {:016x}", sum_of(labels, strata, distances));
}

fn show(rt: &impl Print, text: &[u8]) {
    let mut labels = [7u16; 32];
    let mut strata = [7u16; 32];
    let mut distances = [7.0f64; 1024];
    match judge_frames::read_lot(text, &mut labels, &mut strata, &mut distances) {
        Ok(header) => show_lot(rt, header, &labels, &strata, &distances),
        Err(e) => {
            let _ = print!(rt; " refused {:02x}", u8::from(e));
        }
    }
    put(rt, "\n");
}

fn judge_on(rt: &impl Print, text: &[u8], out: &mut [u8; limits::MOST_PRINTED]) {
    let n = judge::judge(text, out);
    write_front(rt, out, n);
}

fn show_judged(rt: &impl Print, text: &[u8]) {
    let mut out = [0u8; limits::MOST_PRINTED];
    judge_on(rt, text, &mut out);
}

// All texts of a file, each between its name and a bar, and a sharp; what is left of one where either is missing. Each turn goes on by a text: no index is counted.
fn replay_all(rt: &impl Print, input: &[u8]) {
    let mut rest = input;
    while !rest.is_empty() {
        let (name, after) = cut(rest, b'|');
        let (text, left) = cut(after, b'#');
        let _ = rt.write_all(name);
        show(rt, text);
        show_judged(rt, text);
        rest = left;
    }
}

// What stands before the first such byte, and after it; all and nothing where there is none.
fn cut(s: &[u8], byte: u8) -> (&[u8], &[u8])
    ensures { length result.1.now ≤ length s.now - 1 }
{
    match s.iter().position(|c| *c == byte) {
        Some(at) => (&s[..at], &s[at + 1..]),
        None => (s, &[]),
    }
}

// Reads until the buffer is full, the file ends or a read fails; the answer is the number of bytes. Each turn goes on by what was read.
fn read_full<R: Read>(file: &mut R, buffer: &mut [u8]) -> usize
    ensures { result ≤ length buffer.new }
{
    let mut n: usize = 0;
    while n < buffer.len() {
        let k = file.read(&mut buffer[n..]).unwrap_or(0);
        if k == 0 {
            return n;
        }
        n += k;
    }
    n
}

// All texts of an open file of at most 65,536 bytes.
fn texts<R: Read>(rt: &impl Print, file: &mut R) {
    let mut input = [0u8; 65536];
    let n = read_full(file, &mut input);
    replay_all(rt, &input[..n]);
}

// All texts of a file; a file that cannot be opened has none.
fn file(rt: &(impl Files + Print), path: &str) {
    if let Ok(mut opened) = fs::open(rt, path) {
        texts(rt, &mut opened);
    }
}

// ---- longer than any text that describes a lot

fn show_large(rt: &impl Print, text: &[u8; 1048576]) {
    show(rt, text);
    show_judged(rt, text);
}

fn zero_bytes(rt: &impl Print) {
    put(rt, "1 MiB of the byte 0");
    let text = [0u8; 1048576];
    show_large(rt, &text);
}

fn zero_digits(rt: &impl Print) {
    put(rt, "1 MiB of the digit 0");
    let text = [b'0'; 1048576];
    show_large(rt, &text);
}

// ---- printing

fn print_on(rt: &impl Print, a: Result<Judgement, Refusal>, out: &mut [u8])
    requires { most_printed ≤ length out.old }
{
    let n = judge_printing::print_into(a, out);
    write_front(rt, out, n);
}

fn print(rt: &impl Print, a: Result<Judgement, Refusal>) {
    let mut out = [0u8; limits::MOST_PRINTED];
    print_on(rt, a, &mut out);
}

fn show_verdict(
    rt: &impl Print,
    n: usize,
    ways: usize,
    f: f64,
    hits: usize,
    assigned: Tested<Option<usize>>,
) {
    let summary = Summary {
        n,
        n_groups: 2,
        r2: 0.5,
        informative_fraction: 1.0,
        warnings: 8,
    };
    let location = Tested {
        statistic: permanova_p_values::statistic_of(f),
        hits,
    };
    let dispersion = Tested {
        statistic: Statistic::Unbounded,
        hits: ways,
    };
    print(
        rt,
        Ok(Judgement {
            summary,
            ways,
            location,
            dispersion,
            assigned,
        }),
    );
}

fn verdicts(rt: &impl Print) {
    let none = Tested {
        statistic: None,
        hits: 0,
    };
    show_verdict(rt, 4, 6, 32.0, 2, none);
    let given = Tested {
        statistic: Some(31),
        hits: 19999,
    };
    show_verdict(rt, 32, 20000, -0.0, 10, given);
}

fn refusals(rt: &impl Print) {
    for e in [Refusal::Length, Refusal::Unordered, Refusal::Frame] {
        print(rt, Err(e));
    }
}

fn main(rt: HostRuntime) {
    file(&rt, "forms");
    file(&rt, "lots");
    zero_bytes(&rt);
    zero_digits(&rt);
    verdicts(&rt);
    refusals(&rt);
}
