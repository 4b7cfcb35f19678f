// The exhaustive test of a lot that was read (document 01, section 7).
ghost use Rattle.std.specs.Prelude.{◌≡◌};
ghost use Rattle.outcome.specs.Numbers.{outcome_of};
ghost use Rattle.lot.specs.Given.{lot_given};
ghost use Rattle.judge.specs.Judged.{judgement};
ghost use Rattle.judge.specs.inner.Judging.{Judging};

use exhaustive_hits::judgement::Judgement;
use lot::Lot;
use outcome::Refusal;

// What is found of a lot that was read; no weights are given.
pub fn judge_lot(lot: Lot) -> Result<Judgement, Refusal>
    requires { Judging (lot_given lot) }
    ensures { outcome_of result ≡ judgement (lot_given lot.entry) }
{
    let mut group_labels = [0u16; 32];
    let mut counts = [0u16; 32];
    let mut means = [0.0f64; 32];
    let mut pair_terms = [0.0f64; 1024];
    let mut weighted_squares = [0.0f64; 1024];
    let mut coords = [0.0f64; 272];
    let mut eigenpairs = [0.0f64; 1056];
    let mut vectors = [0.0f64; 1024];
    let mut label_counts = [0u16; 1024];
    exhaustive::exhaustive(
        lot,
        &mut group_labels,
        &mut counts,
        &mut means,
        &mut pair_terms,
        &mut weighted_squares,
        &mut coords,
        &mut eigenpairs,
        &mut vectors,
        &mut label_counts,
    )
}
