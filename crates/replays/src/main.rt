// Replays the Rust's answers (oracle/README.md): asks for every record of the files under data/ again, and tells how many answers
// are alike to the bit.
#![tactic(auto)]

mod replay_dapc;
mod replay_gram_matrix;
mod replay_hash_pca;
mod replay_jacobi_eigen;
mod replay_pcoa;
mod replay_test;
mod replay_top_eigs;

use outcome::Refusal;
use replay::{Held, Record, Tally};
use std::io::Read;
use std::rt::Files;
use std::{fs, io};

// The label that a word says.
fn label(w: u64) -> u16 {
    (w % 65536) as u16
}

// What came of a call, against the outcome that comes next in its record.
fn judge<T: Drop, F: FnOnce(T, Record) -> bool>(
    mut r: Record,
    got: Result<T, Refusal>,
    found: F,
) -> Option<Held>
    requires { F.IsAlwaysCallable found }
{
    match got {
        Err(e) => r.refused(u8::from(e)),
        Ok(t) => (r.next() == 0 && found(t, r)).then_some(Held::Answer),
    }
}

// All records of an open file, which is of the operation `op`.
fn all<R: Read, F: Fn(Record) -> Option<Held>>(
    rt: &impl Print,
    file: &mut R,
    path: &str,
    op: u64,
    hold: F,
    b: &mut [u8],
)
    requires { F.IsAlwaysCallable hold }
{
    let mut tally = Tally::default();
    for t in 0..replay::records(file, op) {
        let k = replay::next(file, b);
        let mut r = Record::new(&b[..k]);
        r.skip(1);
        let held = hold(r);
        if held.is_none() {
            let _ = println!(rt; "different: record {t}");
        }
        tally.add(held);
    }
    let _ = println!(rt; "{path}");
    let _ = print!(rt; "{tally}");
}

// The same, with room for a record.
fn with_room<R: Read, F: Fn(Record) -> Option<Held>>(
    rt: &impl Print,
    file: &mut R,
    path: &str,
    op: u64,
    hold: F,
)
    requires { F.IsAlwaysCallable hold }
{
    let mut b = [0u8; 640000];
    all(rt, file, path, op, hold, &mut b);
}

// All records of a file; a file that cannot be opened has none.
fn file<F: Fn(Record) -> Option<Held>>(rt: &(impl Files + Print), path: &str, op: u64, hold: F)
    requires { F.IsAlwaysCallable hold }
{
    match fs::open(rt, path) {
        Ok(mut opened) => with_room(rt, &mut opened, path, op, hold),
        Err(_) => with_room(rt, &mut io::empty(), path, op, hold),
    }
}

fn main(rt: HostRuntime) {
    file(&rt, "test.bin", 1, replay_test::hold);
    file(&rt, "pcoa.bin", 2, replay_pcoa::hold);
    file(&rt, "hash_pca.bin", 3, replay_hash_pca::hold);
    file(&rt, "dapc.bin", 4, replay_dapc::hold);
    file(&rt, "jacobi_eigen.bin", 5, replay_jacobi_eigen::hold);
    file(&rt, "top_eigs.bin", 6, replay_top_eigs::hold);
    file(&rt, "gram_matrix.bin", 7, replay_gram_matrix::hold);
}
