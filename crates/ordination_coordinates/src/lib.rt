// Section 4 of document 01: coordinates of samples from eigenpairs (`finish`).
#![tactic(auto)]

pub mod checks;
pub mod gower;
pub mod signs;

ghost use Rattle.std.specs.Prelude.{◌≡◌, ◌++◌, ◌+◌, ◌*◌, ◌<◌, ◌≤◌, length, take, drop};
ghost use Rattle.limits.specs.Limits.{most_components};
ghost use Rattle.lists.specs.Ranges.{table};
ghost use Rattle.ordination_coordinates.specs.Signs.{signs};
ghost use Rattle.ordination_coordinates.specs.Finish.{scale_of, scales, share_of, shares, coord_at, coords, laid};
ghost use Rattle.ordination_coordinates.specs.Finish as spec;

use eigen_matrix::entrywise;

// ---- scales and shares

// The root of a value, of 0 where it is below 0. A dispersion's distance is the same line; it is of another section, and neither crate stands on the other.
fn scale_of(v: f64) -> f64
    ensures { result ≡ scale_of v }
{
    square_root::sqrt(float::max(v, 0.0))
}

// The scale of each value.
fn fill_scales(out: &mut [f64], values: &[f64])
    requires { length out.old ≡ length values.now }
    ensures { out.new ≡ scales values.now }
{
    entrywise::rewrite(out, |c, _| scale_of(values[c]));
}

// A value's share of the total variance.
fn share_of(total: f64, v: f64) -> f64
    ensures { result ≡ share_of total v }
{
    if 0.0 < total {
        float::max(v, 0.0) / total
    } else {
        0.0
    }
}

// The share of each value.
fn fill_shares(out: &mut [f64], values: &[f64], total: f64)
    requires { length out.old ≡ length values.now }
    ensures { out.new ≡ shares total values.now }
{
    entrywise::rewrite(out, |c, _| share_of(total, values[c]));
}

// ---- coordinates

// Sample i on each component.
fn coord_row(row: &mut [f64], sg: &[f64], sc: &[f64], vectors: &[f64], n: usize, i: usize)
    requires { (length sg.now ≡ length row.old) × (length sc.now ≡ length row.old) × (length vectors.now ≡ length row.old * n) × (i < n) }
    ensures { row.new ≡ table (length row.old) (coord_at n sg.now sc.now vectors.now i) }
{
    for c in 0..row.len() {
        row[c] = sg[c] * vectors[c * n + i] * sc[c];
    }
}

// All samples, a row of k each.
fn fill_coords(out: &mut [f64], sg: &[f64], sc: &[f64], vectors: &[f64], n: usize, k: usize)
    requires { (length out.old ≡ n * k) × (length sg.now ≡ k) × (length sc.now ≡ k) × (length vectors.now ≡ k * n) }
    ensures { out.new ≡ coords n k sg.now sc.now vectors.now }
{
    for i in 0..n {
        coord_row(&mut out[i * k..i * k + k], sg, sc, vectors, n, i);
    }
}

// Values and their shares.
fn describe(out: &mut [f64], values: &[f64], total: f64)
    requires { length out.old ≡ length values.now + length values.now }
    ensures { out.new ≡ values.now ++ shares total values.now }
{
    let k = values.len();
    out[..k].copy_from_slice(values);
    fill_shares(&mut out[k..], values, total);
}

// Coordinates. `sg` and `sc` take signs and scales.
fn scale_vectors(
    out: &mut [f64],
    sg: &mut [f64],
    sc: &mut [f64],
    values: &[f64],
    vectors: &[f64],
    n: usize,
    k: usize,
)
    requires { (length out.old ≡ n * k) × (length sg.old ≡ k) × (length sc.old ≡ k) × (length values.now ≡ k) × (length vectors.now ≡ k * n) }
    ensures { out.new ≡ coords n k (signs n k vectors.now) (scales values.now) vectors.now }
{
    signs::fill_signs(sg, vectors, n);
    fill_scales(sc, values);
    fill_coords(out, sg, sc, vectors, n, k);
}

// The first part of an output, from k values and then k vectors.
fn finish_in(
    out: &mut [f64],
    sg: &mut [f64],
    sc: &mut [f64],
    pairs: &[f64],
    total: f64,
    n: usize,
    k: usize,
)
    requires { (length out.old ≡ k + k + n * k) × (length sg.old ≡ k) × (length sc.old ≡ k) × (length pairs.now ≡ k + k * n) }
    ensures { out.new ≡ laid (spec.finish n total (take k pairs.now) (drop k pairs.now)) }
{
    describe(&mut out[..k + k], &pairs[..k], total);
    scale_vectors(&mut out[k + k..], sg, sc, &pairs[..k], &pairs[k..], n, k);
}

// The same with room for signs and scales.
pub fn finish(out: &mut [f64], pairs: &[f64], total: f64, n: usize, k: usize)
    requires { (length out.old ≡ k + k + n * k) × (length pairs.now ≡ k + k * n) × (k ≤ most_components) }
    ensures { out.new ≡ laid (spec.finish n total (take k pairs.now) (drop k pairs.now)) }
{
    let mut sg = [0.0; 16];
    let mut sc = [0.0; 16];
    finish_in(out, &mut sg[..k], &mut sc[..k], pairs, total, n, k);
}
