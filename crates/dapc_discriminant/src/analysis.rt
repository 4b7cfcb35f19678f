// Section 5 of document 01: discriminant scores, from coordinates and groups.
ghost use Rattle.std.specs.Prelude.{◌≡◌, length};
ghost use Rattle.dapc_scatter.specs.Means.{grouped};
ghost use Rattle.dapc_cholesky.specs.Whitened.{whitened};
ghost use Rattle.eigen_jacobi.specs.Eigen.{jacobi};
ghost use Rattle.eigen_jacobi.specs.inner.Call.{eigen_of};
ghost use Rattle.dapc_discriminant.specs.Dapc.{axes_of, separated, discriminate};
ghost use Rattle.dapc_discriminant.specs.Outputs.{leaves, called};
ghost use Rattle.dapc_discriminant.specs.inner.Outputs.{Ready};
ghost use Rattle.dapc_discriminant.specs.inner.Analysis.{Pairing, Decomposing};

use crate::{Separation, allocation};
use dapc_cholesky::whitening;
use dapc_scatter::moments;
use dapc_scatter::samples::{Dimensions, Samples};
use outcome::Refusal;

// ---- the eigenpairs

// The eigenpairs of sb with the inverse of l on both sides: p values and then p vectors.
fn eigenpairs(ev: &mut [f64], l: &[f64], sb: &[f64], p: usize) -> Result<usize, Refusal>
    requires { Pairing p ev.old l.now sb.now }
    ensures { eigen_of p result ev.new ≡ jacobi p (whitened p l.now sb.now) }
{
    let k = p * p;
    let mut white = [0.0; limits::MOST_COLUMNS * limits::MOST_COLUMNS];
    let mut half = [0.0; limits::MOST_COLUMNS * limits::MOST_COLUMNS];
    let mut v = [0.0; limits::MOST_COLUMNS * limits::MOST_COLUMNS];
    whitening::whiten(&mut white[..k], &mut half[..k], l, sb, p);
    eigen_jacobi::eigen_within::<{ limits::MOST_COLUMNS }>(
        &white[..k],
        p,
        ev,
        &mut half[..k],
        &mut v[..k],
    )
}

// ---- from the coordinates

// By the pivots of the factor of a, and by the eigenpairs.
fn decompose(
    out: &mut [f64],
    assigned: &mut [u16],
    mean: &[f64],
    counts: &[u16],
    a: &[f64],
    sb: &[f64],
    samples: Samples,
) -> Result<Separation, Refusal>
    requires { Decomposing samples (length out.old) (length assigned.old) mean.now counts.now a.now sb.now }
    ensures { let s = samples.entry in let n = length s.groups.now in called result out.new assigned.new
        ≡ leaves n s.sizes.lead s.sizes.axes (separated n s.sizes.columns s.sizes.lead s.sizes.groups s.x.now s.groups.now mean.now a.now sb.now) out.old assigned.old }
{
    let n = samples.groups.len();
    let p = samples.sizes.lead;
    let k = p * p;
    let e = p + k;
    let mut l = [0.0; limits::MOST_COLUMNS * limits::MOST_COLUMNS];
    let mut ev = [0.0; 272];
    if let Err(pivot) = dapc_cholesky::factor(&mut l[..k], a, p) {
        return crate::refuse(out, assigned, n, samples.sizes.axes, pivot);
    }
    if let Err(nan) = eigenpairs(&mut ev[..e], &l[..k], sb, p) {
        return crate::refuse(out, assigned, n, samples.sizes.axes, nan);
    }
    allocation::allocate(out, assigned, &ev[..e], &l[..k], mean, counts, samples)
}

// Below the table: m samples have one of g groups, by number, and p columns lead. The outputs' first part is written; `out` begins with one value per
// axis and the scores of each sample. It takes the parts that its callers have at hand; the one value of them is made here, where its facts are shown.
pub fn discriminate(
    out: &mut [f64],
    assigned: &mut [u16],
    x: &[f64],
    groups: &[u16],
    columns: usize,
    p: usize,
    m: usize,
    g: usize,
) -> Result<Separation, Refusal>
    requires { Ready columns p (axes_of g p) g x.now groups.now (length out.old) (length assigned.old) × (m ≡ length (grouped groups.now)) }
    ensures { called result out.new assigned.new ≡ leaves (length groups.now) p (axes_of g p) (discriminate (length groups.now) columns p x.now groups.now g) out.old assigned.old }
{
    let k = p * p;
    let mut mean = [-0.0; 16];
    let mut counts = [0u16; 128];
    let mut sw = [0.0; limits::MOST_COLUMNS * limits::MOST_COLUMNS];
    let mut sb = [0.0; limits::MOST_COLUMNS * limits::MOST_COLUMNS];
    let axes = crate::axes_of(g, p);
    let sizes = Dimensions {
        columns,
        lead: p,
        axes,
        kept: m,
        groups: g,
    };
    let samples = Samples { x, groups, sizes };
    moments::fill(
        &mut mean[..p],
        &mut counts[..g],
        &mut sw[..k],
        &mut sb[..k],
        samples,
    );
    decompose(
        out,
        assigned,
        &mean[..p],
        &counts[..g],
        &sw[..k],
        &sb[..k],
        samples,
    )
}
