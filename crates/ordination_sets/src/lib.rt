// Sets of hashes, one after the other between offsets: lines 1, 2, 6, 13 and 7 of the table.
#![tactic(auto)]

ghost use Rattle.std.specs.Prelude.{◌≡◌};
ghost use Rattle.outcome.specs.Numbers.{told};
ghost use Rattle.outcome.specs.Refusals.{first};
ghost use Rattle.ordination_sets.specs.Lines.{bad_offsets, too_short, early_lines, late_lines};

use outcome::Refusal;

// Whether the offsets are anything but n + 1 numbers from 0 to the number of hashes that never fall.
fn bad_offsets(offsets: &[usize], n: usize, hashes: usize) -> bool
    ensures { result ≡ bad_offsets n hashes offsets.now }
{
    if offsets.len() == 0 || offsets.len() - 1 != n {
        return true;
    }
    offsets[0] != 0 || offsets[n] != hashes || !offsets.is_sorted()
}

// Whether the output or the work slice is short, for any n.
pub fn too_short(n: usize, out: usize, words: usize) -> bool
    ensures { result ≡ too_short n out words }
{
    n >= 4294967296 || outcome::is_short(&[out, words], &[n * n, n * limits::SELECTED_WORDS])
}

// The lines that do not look at the hashes. `short` says that a slice of the operation is short, `beyond` that another of its arguments is beyond its limit.
#[tactic(auto, unfolding(outcome::specs::Refusals::first, crate::specs::Lines::early_lines))]
pub fn early(
    offsets: &[usize],
    n: usize,
    hashes: usize,
    short: bool,
    beyond: bool,
) -> Result<(), Refusal>
    ensures { told result ≡ first (early_lines n hashes offsets.now short beyond) }
{
    if bad_offsets(offsets, n, hashes) || short {
        return Err(Refusal::Length);
    }
    if n > limits::MOST_SAMPLES || hashes > limits::MOST_HASHES || beyond {
        return Err(Refusal::Limit);
    }
    if n < 3 {
        return Err(Refusal::Ordination);
    }
    Ok(())
}

// The lines that look at the hashes, by the number of selected ones.
#[tactic(auto, unfolding(outcome::specs::Refusals::first, crate::specs::Lines::late_lines))]
pub fn late(m: usize) -> Result<(), Refusal>
    ensures { told result ≡ first (late_lines m) }
{
    if m == 0 {
        return Err(Refusal::NoHashes);
    }
    if m > limits::MOST_SELECTED {
        return Err(Refusal::Hashes);
    }
    Ok(())
}
