// The exhaustive test (document 01, section 6): every way of the labels within strata.
#![tactic(auto)]

pub mod admitted;
pub mod checks;

ghost use Rattle.std.specs.Prelude.{◌≡◌, length};
ghost use Rattle.lot.specs.Lot as spec;
ghost use Rattle.lot.specs.Given.{lot_given};
ghost use Rattle.lot_design.specs.inner.Designs.{Sound, Describes};
ghost use Rattle.exhaustive_ways.specs.Ways.{way_count};
ghost use Rattle.exhaustive_ways.specs.inner.Ways.{capped};
ghost use Rattle.exhaustive_answer.specs.inner.Ordination.{coords_in};
ghost use Rattle.exhaustive_answer.specs.inner.Answering.{Answers};
ghost use Rattle.exhaustive_hits.specs.Exhaustive as meaning;
ghost use Rattle.exhaustive_hits.specs.Call.{slices_of, called, call_by, exhaustive_call};
ghost use Rattle.exhaustive_hits.specs.inner.Call.{Long};
ghost use Rattle.exhaustive.specs.inner.Passing.{Running};

use admitted::Admitted;
use exhaustive_answer::{clearing, ordination};
use exhaustive_hits::judgement::Judgement;
use lot::Lot;
use lot_design::Design;
use outcome::Refusal;
use permanova_statistics::observation;

// M of the lot that a design describes, or one more than are walked where it is above them.
fn ways_of(d: Design) -> usize
    requires { Sound d }
    ensures { (lot : spec.Lot) → Describes lot d → result ≡ capped (way_count lot) }
{
    let m = d.kept;
    exhaustive_ways::count_ways(&d.stratum[..m], &d.group[..m])
}

// The answer for the lot, by the coordinates in `coords`. Each group's count and mean z go to the outputs; `pair_terms`, `weighted_squares`, `label_counts` and
// `scores` lend room.
fn run(
    l: Admitted<'_>,
    coords: &[f64],
    counts: &mut [u16],
    means: &mut [f64],
    pair_terms: &mut [f64],
    weighted_squares: &mut [f64],
    label_counts: &mut [u16],
    scores: &mut [f64],
) -> Judgement
    requires { Running l.lot.n (length coords.now) (length counts.old) (length means.old) (length pair_terms.old) (length weighted_squares.old) (length label_counts.old) (length scores.old) }
    ensures { Answers (lot_given l.entry.lot) (coords_in l.entry.lot.n coords.now) counts.old means.old counts.new means.new result }
{
    let Admitted { lot, design, ways } = l;
    let n = lot.n;
    let m = design.kept;
    let q = m * m;
    let k = eigen_top::checks::components_used(8, n);
    let lo = k + k;
    let mut w = [0.0f64; limits::MOST_SAMPLES];
    observation::weigh(
        design,
        lot.distances,
        lot.weights,
        &mut w,
        pair_terms,
        weighted_squares,
    );
    exhaustive_answer::answer(
        design,
        ways,
        &weighted_squares[..q],
        &pair_terms[..q],
        &w[..m],
        &coords[lo..lo + n * k],
        counts,
        means,
        label_counts,
        scores,
    )
}

// The ordination, once for all ways, and then the answer by its coordinates.
fn ordinate_and_answer(
    group_labels: &mut [u16],
    counts: &mut [u16],
    means: &mut [f64],
    pair_terms: &mut [f64],
    weighted_squares: &mut [f64],
    coords: &mut [f64],
    eigenpairs: &mut [f64],
    vectors: &mut [f64],
    label_counts: &mut [u16],
    l: Admitted<'_>,
) -> Result<Judgement, Refusal>
    requires { Long l.lot.n (slices_of group_labels.old counts.old means.old pair_terms.old weighted_squares.old coords.old eigenpairs.old vectors.old label_counts.old) }
    ensures { called result (slices_of group_labels.new counts.new means.new pair_terms.new weighted_squares.new coords.new eigenpairs.new vectors.new label_counts.new)
        ≡ call_by (lot_given l.entry.lot) (meaning.exhaustive (lot_given l.entry.lot))
        (slices_of group_labels.old counts.old means.old pair_terms.old weighted_squares.old coords.old eigenpairs.old vectors.old label_counts.old) }
{
    let lot = l.lot;
    let c = ordination::ordinate(
        coords,
        pair_terms,
        weighted_squares,
        eigenpairs,
        vectors,
        lot.distances,
        lot.n,
    );
    match c {
        Err(r) => clearing::refuse(
            group_labels,
            counts,
            means,
            pair_terms,
            weighted_squares,
            coords,
            eigenpairs,
            vectors,
            label_counts,
            l.design.groups,
            r,
        ),
        Ok(()) => {
            let j = run(
                l,
                coords,
                counts,
                means,
                pair_terms,
                weighted_squares,
                label_counts,
                eigenpairs,
            );
            lot_design::fill_group_labels(l.design, group_labels);
            clearing::clear_work(
                pair_terms,
                weighted_squares,
                coords,
                eigenpairs,
                vectors,
                label_counts,
            );
            Ok(j)
        }
    }
}

// The exhaustive test of n samples by their labels: every way of the labels within strata, and three hit counts. `group_labels`, `counts` and `means` get each
// group's label, count and mean z; the other slices that are lent are work.
pub fn exhaustive(
    lot: Lot<'_>,
    group_labels: &mut [u16],
    counts: &mut [u16],
    means: &mut [f64],
    pair_terms: &mut [f64],
    weighted_squares: &mut [f64],
    coords: &mut [f64],
    eigenpairs: &mut [f64],
    vectors: &mut [f64],
    label_counts: &mut [u16],
) -> Result<Judgement, Refusal>
    ensures { called result (slices_of group_labels.new counts.new means.new pair_terms.new weighted_squares.new coords.new eigenpairs.new vectors.new label_counts.new)
        ≡ exhaustive_call (lot_given lot.entry)
        (slices_of group_labels.old counts.old means.old pair_terms.old weighted_squares.old coords.old eigenpairs.old vectors.old label_counts.old) }
{
    let lent = [
        group_labels.len(),
        counts.len(),
        means.len(),
        pair_terms.len(),
        weighted_squares.len(),
        coords.len(),
        eigenpairs.len(),
        vectors.len(),
        label_counts.len(),
    ];
    let short = checks::too_short(lot.n, &lent);
    lot_checks::check_lot(lot, short, false)?;
    let design = lot_design::design_of(lot.labels, lot.strata);
    let ways = ways_of(design);
    if ways > limits::MOST_WAYS {
        return Err(Refusal::Ways);
    }
    let admitted = Admitted { lot, design, ways };
    ordinate_and_answer(
        group_labels,
        counts,
        means,
        pair_terms,
        weighted_squares,
        coords,
        eigenpairs,
        vectors,
        label_counts,
        admitted,
    )
}
