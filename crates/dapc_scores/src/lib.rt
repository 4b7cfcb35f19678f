// Section 5: scores of samples on the discriminant axes, and the groups' centroids.
#![tactic(auto)]

pub mod nearest_centroid;

ghost use Rattle.std.specs.Prelude.{◌≡◌, ◌+◌, ◌*◌, ◌≤◌, length, get_or, replicate};
ghost use Rattle.std.specs.Float.{nan};
ghost use Rattle.float.specs.Floats.{◌⊕◌, ◌⊗◌, ◌⊘◌, zero⁺};
ghost use Rattle.lists.specs.Ranges.{table};
ghost use Rattle.lists.specs.Sums.{sum⁻};
ghost use Rattle.lists.specs.Rows.{entry};
ghost use Rattle.lot.specs.Kept.{sizes};
ghost use Rattle.dapc_scores.specs.Scores.{scores_of, centroids};

use dapc_scatter::samples::Samples;
use eigen_matrix::entrywise;

// ---- scores

// The scores of one sample, which is d from the mean.
fn score_row(row: &mut [f64], d: &[f64], p: usize, vs: &[f64])
    requires { (length d.now ≡ p) × (length vs.now ≡ length row.old * p) }
    ensures { row.new ≡ table (length row.old) (λ a. sum⁻ (table p (λ c. get_or d.now c nan ⊗ entry p vs.now a c))) }
{
    for a in 0..row.len() {
        row[a] = eigen_vectors::dot(d, &vs[a * p..a * p + p]);
    }
}

// The scores of the samples. `d` takes how far a sample is from the mean.
pub fn fill_scores(scores: &mut [f64], d: &mut [f64], samples: Samples, mean: &[f64], vs: &[f64])
    requires { (length scores.old ≡ length samples.groups.now * samples.sizes.axes) × (length d.old ≡ samples.sizes.lead)
        × (length mean.now ≡ samples.sizes.lead) × (length vs.now ≡ samples.sizes.axes * samples.sizes.lead) }
    ensures { let s = samples.entry in scores.new ≡ scores_of (length s.groups.now) s.sizes.columns s.sizes.lead s.sizes.axes s.x.now mean.now vs.now }
{
    let p = samples.sizes.lead;
    let axes = samples.sizes.axes;
    let columns = samples.sizes.columns;
    for i in 0..samples.groups.len() {
        entrywise::subtract(d, &samples.x[i * columns..i * columns + p], mean);
        score_row(&mut scores[i * axes..i * axes + axes], d, p, vs);
    }
}

// ---- centroids

// row + other / by.
fn add_quotients(row: &mut [f64], other: &[f64], by: f64)
    requires { length other.now ≡ length row.old }
    ensures { row.new ≡ table (length row.old) (λ c. get_or row.old c nan ⊕ get_or other.now c nan ⊘ by) }
{
    entrywise::rewrite(row, |c, r| r + other[c] / by);
}

// The centroid of each group, from zeros.
pub fn fill_centroids(cen: &mut [f64], scores: &[f64], samples: Samples, counts: &[u16])
    requires { (cen.old ≡ replicate (samples.sizes.groups * samples.sizes.axes) zero⁺) × (length scores.now ≡ length samples.groups.now * samples.sizes.axes)
        × (counts.now ≡ sizes samples.groups.now (length samples.groups.now) samples.sizes.groups) }
    ensures { let s = samples.entry in cen.new ≡ centroids s.sizes.axes s.sizes.groups s.groups.now scores.now }
{
    let axes = samples.sizes.axes;
    for i in 0..samples.groups.len() {
        if let Some(j) = samples.group(i) {
            let n = lists::entry(counts, j) as f64;
            add_quotients(
                &mut cen[j * axes..j * axes + axes],
                &scores[i * axes..i * axes + axes],
                n,
            );
        }
    }
}
