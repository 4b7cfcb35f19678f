// Numbers in lower case hexadecimal, written to a slice (document 01, section 7).
ghost use Rattle.std.specs.Prelude.{◌+◌, ◌<◌, ◌≤◌, ◌≡◌, length};
ghost use Rattle.judge_printing.specs.Hex.{digit, hex, feed};
ghost use Rattle.judge_printing.specs.inner.Written.{Wrote};

// A digit in lower case: `char::from_digit` would answer a `char` in an Option, to be taken out and narrowed.
fn digit_of(v: u64) -> u8
    requires { v < 16 }
    ensures { result ≡ digit v }
{
    if v < 10 {
        b'0' + v as u8
    } else {
        b'a' - 10 + v as u8
    }
}

// Writes v in count digits from place at on.
pub fn put_hex(out: &mut [u8], at: usize, count: usize, v: u64) -> usize
    requires { (at + count ≤ length out.old) × (count ≤ 16) }
    ensures { Wrote out.old at count (hex count v) out.new result }
{
    for i in 0..count {
        let shift = 4 * (count - i - 1);
        out[at + i] = digit_of((v >> shift) % 16);
    }
    at + count
}

// The line feed that ends a line.
pub fn put_feed(out: &mut [u8], at: usize) -> usize
    requires { at < length out.old }
    ensures { Wrote out.old at 1 feed out.new result }
{
    out[at] = limits::LINE_FEED;
    at + 1
}
