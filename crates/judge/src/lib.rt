// `judge` (document 01, section 7): from the whole input to the whole output.
#![tactic(auto)]

pub mod judged_lot;

ghost use Rattle.std.specs.Prelude.{◌≡◌, ◌≤◌, length};
ghost use Rattle.limits.specs.Limits.{most_printed};
ghost use Rattle.outcome.specs.Outcome.{and_then};
ghost use Rattle.outcome.specs.Numbers.{outcome_of};
ghost use Rattle.judge_frames.specs.Frames.{read_lot};
ghost use Rattle.judge_frames.specs.Call.{fronts};
ghost use Rattle.judge_frames.specs.Fits.{Fits};
ghost use Rattle.judge_frames.specs.inner.Stages.{Room};
ghost use Rattle.judge_printing.specs.Page.{page, onto};
ghost use Rattle.judge.specs.Judged.{judgement};
ghost use Rattle.judge.specs.Judge.{judge_text};

use exhaustive_hits::judgement::Judgement;
use judge_frames::Header;
use lot::Lot;
use outcome::Refusal;

// What is found of the lot at the fronts of three slices.
fn judge_front<'a>(
    h: Header,
    labels: &'a [u16],
    strata: &'a [u16],
    distances: &'a [f64],
) -> Result<Judgement, Refusal>
    requires { Room labels.now strata.now distances.now × Fits (fronts h labels.now strata.now distances.now) }
    ensures { outcome_of result ≡ judgement (fronts h labels.now strata.now distances.now) }
{
    let n = h.n;
    let strata = h.stratified.then_some(&strata[..n]);
    let lot = Lot {
        n,
        distances: &distances[..n * n],
        labels: &labels[..n],
        strata,
        weights: None,
    };
    judged_lot::judge_lot(lot)
}

// What is found of a text. The slices lend room for its lot.
fn judge_text(
    text: &[u8],
    labels: &mut [u16],
    strata: &mut [u16],
    distances: &mut [f64],
) -> Result<Judgement, Refusal>
    requires { Room labels.old strata.old distances.old }
    ensures { outcome_of result ≡ and_then (read_lot text.now) judgement }
{
    let header = judge_frames::read_into(text, labels, strata, distances)?;
    judge_front(header, labels, strata, distances)
}

// `judge` on slices.
fn judge_into(
    text: &[u8],
    labels: &mut [u16],
    strata: &mut [u16],
    distances: &mut [f64],
    out: &mut [u8],
) -> usize
    requires { Room labels.old strata.old distances.old × (most_printed ≤ length out.old) }
    ensures { page result out.new ≡ onto (judge_text text.now) out.old }
{
    let a = judge_text(text, labels, strata, distances);
    judge_printing::print_into(a, out)
}

// Prints at the front of `out` what is found of the text; the answer is the number of bytes.
pub fn judge(text: &[u8], out: &mut [u8; limits::MOST_PRINTED]) -> usize
    ensures { page result out.new ≡ onto (judge_text text.now) out.old }
{
    let mut labels = [0u16; 32];
    let mut strata = [0u16; 32];
    let mut distances = [0.0f64; 1024];
    judge_into(text, &mut labels, &mut strata, &mut distances, out)
}
