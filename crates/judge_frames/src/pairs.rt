// Pairs of samples (document 01, section 7): a distance is put at both its places, once.
ghost use Rattle.std.specs.Prelude.{◌≡◌, ◌≤◌, length};
ghost use Rattle.float.specs.Floats.{f64};
ghost use Rattle.judge_frames.specs.inner.Pairs.{Put};

use crate::reader::Pair;

// The f64 of a pattern; each pattern of a NaN is NaN.
fn float_of(b: u64) -> f64
    ensures { result ≡ f64 b }
{
    if b % 0x8000_0000_0000_0000 <= 0x7ff0_0000_0000_0000 {
        return f64::from_bits(b);
    }
    f64::NAN
}

// Puts a pair's distance at both its places, if it is a pair of the lot that was not seen.
pub fn put_pair(p: Pair, n: usize, distances: &mut [f64], seen: &mut [bool]) -> bool
    requires { (n ≤ 32) × (length distances.old ≡ 1024) × (length seen.old ≡ 1024) }
    ensures { Put n p distances.old seen.old distances.new seen.new result }
{
    let i = usize::from(p.i);
    let j = usize::from(p.j);
    if j <= i || n <= j {
        return false;
    }
    let upper = i * n + j;
    if seen[upper] {
        return false;
    }
    let lower = j * n + i;
    let d = float_of(p.bits);
    seen[upper] = true;
    distances[upper] = d;
    distances[lower] = d;
    true
}
