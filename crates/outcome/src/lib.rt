// What a turned-away lot returns: the lines of document 01's table, and those that change requests of document 02 added.
#![tactic(auto)]

ghost use Rattle.std.specs.Prelude.{◌≡◌};
ghost use Rattle.outcome.specs.Numbers.{number};
ghost use Rattle.outcome.specs.Refusals.{short};

use std::error::Error;
use std::fmt;

// One name for each line of the table.
#[derive(Clone, Copy, Debug, PartialEq, Eq)]
pub enum Refusal {
    // 1: a length or offset does not fit n, or an output or work slice is short
    Length,
    // 2: n, n_perm, components, hashes or columns beyond their limit
    Limit,
    // 3: a distance, coordinate or matrix entry that is not allowed
    Value,
    // 4: a weight that is not allowed
    Weight,
    // 5: fewer than two labels held by two samples
    Labels,
    // 6: too few samples to ordinate
    Ordination,
    // 7: too many hashes with frequency 2 to n - 1
    Hashes,
    // 8: too many ways
    Ways,
    // 9: too few columns that can be used
    Columns,
    // 10: a Cholesky pivot that is not above 0
    Pivot,
    // 11: a NaN among values to be ordered
    Unordered,
    // 12: a frame malformed, missing or repeated
    Frame,
    // 13: no hash with frequency 2 to n - 1
    NoHashes,
    // 14: a distance that differs from its mirror, or one on the diagonal other than zero
    Mirror,
}

// The number of the line.
impl From<Refusal> for u8 {
    ghost from_gives = { λ r k. k ≡ number r };

    fn from(r: Refusal) -> u8 {
        match r {
            Refusal::Length => 1,
            Refusal::Limit => 2,
            Refusal::Value => 3,
            Refusal::Weight => 4,
            Refusal::Labels => 5,
            Refusal::Ordination => 6,
            Refusal::Hashes => 7,
            Refusal::Ways => 8,
            Refusal::Columns => 9,
            Refusal::Pivot => 10,
            Refusal::Unordered => 11,
            Refusal::Frame => 12,
            Refusal::NoHashes => 13,
            Refusal::Mirror => 14,
        }
    }
}

// What the line says, in words.
impl fmt::Display for Refusal {
    fn fmt<W: fmt::Write>(&self, f: &mut fmt::Formatter<W>) -> fmt::Result {
        f.write_str(match self {
            Refusal::Length =>
                "a length or offset does not fit n, or an output or work slice is short",
            Refusal::Limit => "n, n_perm, components, hashes or columns are beyond their limit",
            Refusal::Value => "a distance, coordinate or matrix entry is not allowed",
            Refusal::Weight => "a weight is not allowed",
            Refusal::Labels => "fewer than two labels are held by two samples",
            Refusal::Ordination => "there are too few samples to ordinate",
            Refusal::Hashes => "there are too many hashes with frequency 2 to n - 1",
            Refusal::Ways => "there are too many ways",
            Refusal::Columns => "too few columns can be used",
            Refusal::Pivot => "a Cholesky pivot is not above 0",
            Refusal::Unordered => "a NaN is among values to be ordered",
            Refusal::Frame => "a frame is malformed, missing or repeated",
            Refusal::NoHashes => "there is no hash with frequency 2 to n - 1",
            Refusal::Mirror =>
                "a distance differs from its mirror, or one on the diagonal is not zero",
        })
    }
}

impl Error for Refusal {}

// Whether some lent slice is shorter than asked; lengths are given in the order in which they are asked.
pub fn is_short(lent: &[usize], asked: &[usize]) -> bool
    ensures { result ≡ short lent.now asked.now }
{
    for (has, least) in lent.iter().zip(asked) {
        if *has < *least {
            return true;
        }
    }
    false
}
