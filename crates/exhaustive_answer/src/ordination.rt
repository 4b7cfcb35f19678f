// The ordination of a lot, once for all ways (document 01, section 6): `pcoa` with 8 components of the full matrix.
ghost use Rattle.std.specs.Prelude.{◌≡◌, length};
ghost use Rattle.ordination_coordinates.specs.Pcoa.{pcoa};
ghost use Rattle.exhaustive_answer.specs.inner.Ordination.{coords_told, coords_of, Ordinating};

use eigen_top::checks;
use outcome::Refusal;

// The coordinates of all n samples go to `coords`, after their values and shares. The others lend room.
pub fn ordinate(
    coords: &mut [f64],
    pair_terms: &mut [f64],
    weighted_squares: &mut [f64],
    eigenpairs: &mut [f64],
    vectors: &mut [f64],
    distances: &[f64],
    n: usize,
) -> Result<(), Refusal>
    requires { Ordinating n distances.now (length coords.old) (length pair_terms.old) (length weighted_squares.old) (length eigenpairs.old) (length vectors.old) }
    ensures { coords_told n result coords.new ≡ coords_of (pcoa 8 n distances.now) }
{
    let k = checks::components_used(8, n);
    let e = k + k + n * k;
    let q = n * n;
    ordination_pcoa::coordinates_of(
        distances,
        n,
        k,
        &mut coords[..e],
        &mut pair_terms[..q],
        &mut eigenpairs[..n + q],
        &mut weighted_squares[..q],
        &mut vectors[..q],
    )
}
