// Writes the root of each of some 1,200 bit patterns, a line each: the pattern and the root's, or `nan`; then the published vectors of SplitMix64.
// The lines of the roots in the file `stdout` are the machine's own: a C program read the first word of each line as the
// bits of a double and wrote the bits of `sqrt` of it, which is compiled to the instruction sqrtsd. Ours is that operation of the language today; two
// compilers make the program.
// A write that fails is passed over.
#![tactic(auto)]

mod vectors;

use replay::Bits;

// Zeros, the ends of the subnormals and of the normals, the neighbours of powers of two, the infinities,
// a NaN, negative numbers; values whose roots lie nearest to halfway between two f64; and four whose roots
// a table and a Newton step do not give.
const PATTERNS: [u64; 43] = [
    0x0000_0000_0000_0000,
    0x8000_0000_0000_0000,
    0x0000_0000_0000_0001,
    0x0000_0000_0000_0002,
    0x0000_0000_0000_0003,
    0x0007_ffff_ffff_ffff,
    0x0008_0000_0000_0000,
    0x000f_ffff_ffff_ffff,
    0x0010_0000_0000_0000,
    0x0010_0000_0000_0001,
    0x001f_ffff_ffff_ffff,
    0x0020_0000_0000_0000,
    0x3fef_ffff_ffff_ffff,
    0x3ff0_0000_0000_0000,
    0x3ff0_0000_0000_0001,
    0x3fff_ffff_ffff_ffff,
    0x4000_0000_0000_0000,
    0x400f_ffff_ffff_ffff,
    0x4010_0000_0000_0000,
    0x4010_0000_0000_0001,
    0x7fe0_0000_0000_0000,
    0x7fef_ffff_ffff_ffff,
    0x7ff0_0000_0000_0000,
    0x7ff8_0000_0000_0000,
    0x8000_0000_0000_0001,
    0xbff0_0000_0000_0000,
    0xffef_ffff_ffff_ffff,
    0xfff0_0000_0000_0000,
    0x3ff2_5656_5cad_cbf4,
    0x3ffa_881d_1831_fabd,
    0x4007_7483_d37c_e205,
    0x3ff2_8374_1a1b_ef08,
    0x4001_ac99_55fd_90d2,
    0x3ffd_407b_b364_1da5,
    0x4005_b953_4497_2fe2,
    0x3ff2_b035_c119_7f48,
    0x3ffe_9989_3042_c2cb,
    0x4004_eb5f_85e7_83a9,
    0x3ffb_a44c_2a07_37a2,
    0x4000_4a0e_a48f_9186,
    0x4000_7d5a_2c5b_d4fa,
    0x3ff0_4658_1386_72a8,
    0x3ff0_4529_742e_6aa3,
];

// Writes the pattern b and the root of its value.
fn line(rt: &impl Print, b: u64) {
    let root = Bits(square_root::sqrt(replay::value(b)));
    let _ = println!(rt; "{b:016x} {root}");
}

// The patterns above.
fn listed(rt: &impl Print) {
    for b in PATTERNS {
        line(rt, b);
    }
}

// The powers of two among the subnormals.
fn subnormals(rt: &impl Print) {
    for e in 0..52u32 {
        line(rt, 1 << e);
    }
}

// Every eleventh of the other powers of two.
fn powers(rt: &impl Print) {
    for k in 0..186 {
        line(rt, (1 + 11 * k) << 52);
    }
}

// The squares of numbers of up to 26 digits, times even powers of two, each between its neighbours. The numbers grow by an eighth: no index is counted.
fn squares(rt: &impl Print) {
    let mut n: u64 = 1;
    while n < 0x400_0000 {
        let square = replay::pattern((n * n) as f64);
        let b = square % 0x8000_0000_0000_0000 + n % 400 * 0x20_0000_0000_0000;
        if 0 < b {
            line(rt, b - 1);
        }
        line(rt, b);
        line(rt, b + 1);
        n = n + n / 8 + 1;
    }
}

// Random patterns, of every exponent.
fn random(rt: &impl Print) {
    let mut b: u64 = 0x9e37_79b9_7f4a_7c15;
    for _ in 0..500 {
        b ^= b << 13;
        b ^= b >> 7;
        b ^= b << 17;
        line(rt, b % 0x8000_0000_0000_0000);
    }
}

fn main(rt: HostRuntime) {
    listed(&rt);
    subnormals(&rt);
    powers(&rt);
    squares(&rt);
    random(&rt);
    vectors::run(&rt);
}
