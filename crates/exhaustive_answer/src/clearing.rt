// Outputs and work of the exhaustive test that become zero (document 01, below the table).
ghost use Rattle.std.specs.Prelude.{◌≡◌, ◌≤◌, length};
ghost use Rattle.float.specs.Floats.{zero⁺};
ghost use Rattle.lists.specs.Writes.{cleared};
ghost use Rattle.exhaustive_hits.specs.Call.{slices_of, called};
ghost use Rattle.outcome.specs.Numbers.{number};
ghost use Rattle.exhaustive_answer.specs.inner.Refused.{turned};

use exhaustive_hits::judgement::Judgement;
use outcome::Refusal;

// All work becomes zero.
pub fn clear_work(
    pair_terms: &mut [f64],
    weighted_squares: &mut [f64],
    coords: &mut [f64],
    eigenpairs: &mut [f64],
    vectors: &mut [f64],
    label_counts: &mut [u16],
)
    ensures { (pair_terms.new ≡ cleared zero⁺ pair_terms.old) × (weighted_squares.new ≡ cleared zero⁺ weighted_squares.old)
        × (coords.new ≡ cleared zero⁺ coords.old) × (eigenpairs.new ≡ cleared zero⁺ eigenpairs.old)
        × (vectors.new ≡ cleared zero⁺ vectors.old) × (label_counts.new ≡ cleared 0 label_counts.old) }
{
    pair_terms.fill(0.0);
    weighted_squares.fill(0.0);
    coords.fill(0.0);
    eigenpairs.fill(0.0);
    vectors.fill(0.0);
    label_counts.fill(0);
}

// The outputs' first part and all work become zero.
pub fn refuse(
    group_labels: &mut [u16],
    counts: &mut [u16],
    means: &mut [f64],
    pair_terms: &mut [f64],
    weighted_squares: &mut [f64],
    coords: &mut [f64],
    eigenpairs: &mut [f64],
    vectors: &mut [f64],
    label_counts: &mut [u16],
    g: usize,
    r: Refusal,
) -> Result<Judgement, Refusal>
    requires { (g ≤ length group_labels.old) × (g ≤ length counts.old) × (g ≤ length means.old) }
    ensures { called result (slices_of group_labels.new counts.new means.new pair_terms.new weighted_squares.new coords.new eigenpairs.new vectors.new label_counts.new)
        ≡ turned g (number r) (slices_of group_labels.old counts.old means.old pair_terms.old weighted_squares.old coords.old eigenpairs.old vectors.old label_counts.old) }
{
    group_labels[..g].fill(0);
    counts[..g].fill(0);
    means[..g].fill(0.0);
    clear_work(
        pair_terms,
        weighted_squares,
        coords,
        eigenpairs,
        vectors,
        label_counts,
    );
    Err(r)
}
