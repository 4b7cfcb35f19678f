// Section 5 of document 01: from the eigenpairs to the scores, and to the group of each sample.
ghost use Rattle.std.specs.Prelude.{◌≡◌, ◌++◌, ◌*◌, length, take, drop};
ghost use Rattle.lists.specs.Writes.{over};
ghost use Rattle.dapc_scores.specs.Scores.{scores_of};
ghost use Rattle.dapc_discriminant.specs.Dapc.{concluded, assign};
ghost use Rattle.dapc_discriminant.specs.Outputs.{leaves, called};
ghost use Rattle.dapc_discriminant.specs.inner.Allocation.{Scoring, Assigning, Allocating};

use crate::Separation;
use dapc_cholesky::triangular;
use dapc_scatter::samples::Samples;
use dapc_scores::nearest_centroid;
use outcome::Refusal;

// One value per axis, and then the scores of the samples. `d` is room for a row.
fn write_scores(
    out: &mut [f64],
    d: &mut [f64],
    ev: &[f64],
    vs: &[f64],
    mean: &[f64],
    samples: Samples,
)
    requires { Scoring samples (length out.old) d.old ev.now vs.now mean.now }
    ensures { let s = samples.entry in let n = length s.groups.now in
        out.new ≡ over (take s.sizes.axes ev.now ++ scores_of n s.sizes.columns s.sizes.lead s.sizes.axes s.x.now mean.now vs.now) out.old }
{
    let n = samples.groups.len();
    let axes = samples.sizes.axes;
    out[..axes].copy_from_slice(&ev[..axes]);
    dapc_scores::fill_scores(&mut out[axes..axes + n * axes], d, samples, mean, vs);
}

// The group of each sample, by the scores in the output.
fn assign_groups(
    out: &mut [f64],
    assigned: &mut [u16],
    cen: &mut [f64],
    counts: &[u16],
    samples: Samples,
) -> Result<Separation, Refusal>
    requires { Assigning samples (length out.old) (length assigned.old) cen.old counts.now }
    ensures { let s = samples.entry in let n = length s.groups.now in let axes = s.sizes.axes in called result out.new assigned.new
        ≡ leaves n s.sizes.lead axes (concluded n axes s.sizes.groups s.groups.now (take axes out.old) (take (n * axes) (drop axes out.old))) out.old assigned.old }
{
    let n = samples.groups.len();
    let axes = samples.sizes.axes;
    let e = axes + n * axes;
    dapc_scores::fill_centroids(cen, &out[axes..e], samples, counts);
    let tally = nearest_centroid::assign(&mut assigned[..n], &out[axes..e], cen, samples);
    let right = tally.right;
    match tally.ordered {
        Ok(()) => Ok(Separation {
            columns: samples.sizes.lead,
            axes,
            right,
        }),
        Err(r) => crate::refuse(out, assigned, n, axes, r),
    }
}

// The directions, the scores and the groups, from p eigenvalues with their vectors, the factor l, means and counts.
pub fn allocate(
    out: &mut [f64],
    assigned: &mut [u16],
    ev: &[f64],
    l: &[f64],
    mean: &[f64],
    counts: &[u16],
    samples: Samples,
) -> Result<Separation, Refusal>
    requires { Allocating samples (length out.old) (length assigned.old) ev.now l.now mean.now counts.now }
    ensures { let s = samples.entry in let n = length s.groups.now in called result out.new assigned.new
        ≡ leaves n s.sizes.lead s.sizes.axes (assign n s.sizes.columns s.sizes.lead s.sizes.groups s.x.now s.groups.now mean.now l.now (take s.sizes.lead ev.now) (drop s.sizes.lead ev.now)) out.old assigned.old }
{
    let p = samples.sizes.lead;
    let axes = samples.sizes.axes;
    let k = axes * p;
    let e = samples.sizes.groups * axes;
    let mut vs = [0.0; limits::MOST_COLUMNS * limits::MOST_COLUMNS];
    let mut cen = [0.0; 2048];
    let mut d = [0.0; limits::MOST_COLUMNS];
    triangular::solve_rows(&mut vs[..k], axes, l, &ev[p..], p);
    write_scores(out, &mut d[..p], ev, &vs[..k], mean, samples);
    assign_groups(out, assigned, &mut cen[..e], counts, samples)
}
