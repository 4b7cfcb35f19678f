// The sampled test (document 01, section 8): PERMANOVA and PERMDISP with shuffles within strata.
#![tactic(auto)]

pub mod checks;

ghost use Rattle.std.specs.Prelude.{◌≡◌, []};
ghost use Rattle.lot.specs.Given.{lot_given};
ghost use Rattle.permanova.specs.Call.{slices_of, test_call, called};
ghost use Rattle.permanova.specs.inner.Runs.{Runs, Ran};

use lot::Lot;
use lot_design::Design;
use outcome::Refusal;
use permanova_sampling::TestResult;
use permanova_sampling::hits::Draws;
use permanova_statistics::observation;

// The test of the lot that a design describes. `pair_terms` and `weighted_squares` are work, and are cleared.
fn run(
    d: Design,
    lot: Lot<'_>,
    draws: Draws,
    counts: &mut [u16],
    means: &mut [f64],
    pair_terms: &mut [f64],
    weighted_squares: &mut [f64],
) -> TestResult
    requires { Runs d (lot_given lot) draws (slices_of [] counts.old means.old pair_terms.old weighted_squares.old) }
    ensures { Ran (lot_given lot.entry) draws
        (slices_of [] counts.old means.old pair_terms.old weighted_squares.old)
        (slices_of [] counts.new means.new pair_terms.new weighted_squares.new) result }
{
    let m = d.kept;
    let k = m * m;
    let mut w = [0.0f64; limits::MOST_SAMPLES];
    observation::weigh(
        d,
        lot.distances,
        lot.weights,
        &mut w,
        pair_terms,
        weighted_squares,
    );
    let r = permanova_sampling::answer(
        d,
        lot.weights.is_some(),
        &weighted_squares[..k],
        &pair_terms[..k],
        &w[..m],
        draws,
        counts,
        means,
    );
    pair_terms.fill(0.0);
    weighted_squares.fill(0.0);
    r
}

// PERMANOVA and PERMDISP of the samples of a lot by their labels, with n_perm shuffles within strata. `group_labels`, `counts` and `means` get each group's label, count
// and mean z; `pair_terms` and `weighted_squares` are work.
pub fn test(
    lot: Lot<'_>,
    seed: u64,
    n_perm: u64,
    group_labels: &mut [u16],
    counts: &mut [u16],
    means: &mut [f64],
    pair_terms: &mut [f64],
    weighted_squares: &mut [f64],
) -> Result<TestResult, Refusal>
    ensures { called result (slices_of group_labels.new counts.new means.new pair_terms.new weighted_squares.new)
        ≡ test_call (lot_given lot.entry) seed n_perm (slices_of group_labels.old counts.old means.old pair_terms.old weighted_squares.old) }
{
    let short = checks::too_short(
        lot.n,
        group_labels.len(),
        counts.len(),
        means.len(),
        pair_terms.len(),
        weighted_squares.len(),
    );
    let beyond = checks::too_many(n_perm);
    lot_checks::check_lot(lot, short, beyond)?;
    let d = lot_design::design_of(lot.labels, lot.strata);
    lot_design::fill_group_labels(d, group_labels);
    let draws = Draws { seed, many: n_perm };
    Ok(run(d, lot, draws, counts, means, pair_terms, weighted_squares))
}
