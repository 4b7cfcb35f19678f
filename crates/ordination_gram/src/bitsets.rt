// Sets as rows of bits, one bit for each column that a set may have.
ghost use Rattle.std.specs.Prelude.{◌≡◌, ◌+◌, ◌*◌, ◌/◌, ◌%◌, ◌^◌, ◌<◌, ◌≤◌, length, get_or, set};
ghost use Rattle.std.specs.Int.Bits.{bit_or};
ghost use Rattle.limits.specs.Limits.{most_selected, selected_words};
ghost use Rattle.ordination_gram.specs.inner.Bits.{common};

// Bit c of a row.
pub fn mark_bit(row: &mut [u64], c: usize)
    requires { c < length row.old * 64 }
    ensures { row.new ≡ set row.old (c / 64) (bit_or (get_or row.old (c / 64) 0) (2 ^ (c % 64))) }
{
    let w = c / 64;
    row[w] |= 1u64 << (c % 64);
}

// How many bits two rows share.
pub fn common_bits(x: &[u64], y: &[u64]) -> usize
    requires { (length y.now ≡ length x.now) × (length x.now ≤ selected_words) }
    ensures { (result ≡ common x.now y.now) × (result ≤ most_selected) }
{
    x.iter()
        .zip(y)
        .map(|(a, b)| (a & b).count_ones() as usize)
        .sum()
}
