// Section 4 of document 01: the lines of the table for `pcoa`, and the lengths and limits that `hash_pca` shares with it.
ghost use Rattle.std.specs.Prelude.{◌≡◌, ◌*◌, ◌≤◌, min, not, ◌||◌, eqb};
ghost use Rattle.outcome.specs.Numbers.{told};
ghost use Rattle.outcome.specs.Refusals.{first};
ghost use Rattle.ordination_coordinates.specs.Lengths.{too_short, lacking};
ghost use Rattle.ordination_coordinates.specs.Lines.{bad_components, pcoa_lines};

use outcome::Refusal;

// The lengths of an output and of the work slices.
#[derive(Clone, Copy)]
pub struct Lengths {
    pub out: usize,
    pub b: usize,
    pub w: usize,
    pub m: usize,
    pub v: usize,
}

// Components that are not within 1 to 16.
pub fn bad_components(components: usize) -> bool
    ensures { result ≡ bad_components components }
{
    components == 0 || limits::MOST_COMPONENTS < components
}

// Whether a slice of these lengths is short; n * n must not wrap.
fn too_short(n: usize, k: usize, l: Lengths) -> bool
    requires { k ≤ n }
    ensures { result ≡ too_short k n l.out l.b l.w l.m l.v }
{
    if 0xffff_ffff < n {
        return true;
    }
    let s = n * n;
    outcome::is_short(
        &[l.out, l.b, l.w, l.m, l.v],
        &[k + k + n * k, s, n + s, s, s],
    )
}

// The same for `hash_pca`, which lends words too; the product of n with a row's words must not wrap.
pub fn is_lacking(n: usize, k: usize, l: Lengths, words: usize) -> bool
    requires { k ≤ n }
    ensures { result ≡ lacking k n l.out l.b l.w l.m l.v words }
{
    too_short(n, k, l) || words / limits::SELECTED_WORDS < n
}

// Whether d distances do not fit n, or a slice of these lengths is short.
fn misfits(d: usize, n: usize, k: usize, l: Lengths) -> bool
    requires { k ≤ n }
    ensures { result ≡ (not (eqb d (n * n)) || too_short k n l.out l.b l.w l.m l.v) }
{
    !lot_checks::is_square(d, n) || too_short(n, k, l)
}

// The lines of the table for `pcoa`, for slices of these lengths and k leading components: sizes and the matrix (3 and 14) as for the tests, then 6.
pub fn check(d: &[f64], n: usize, components: usize, k: usize, l: Lengths) -> Result<(), Refusal>
    requires { k ≡ min components n }
    ensures { told result ≡ first (pcoa_lines components n d.now l.out l.b l.w l.m l.v) }
{
    let misfit = misfits(d.len(), n, k, l);
    lot_checks::check_sizes(misfit, n, bad_components(components))?;
    lot_checks::check_matrix(d, n)?;
    if n < 3 {
        return Err(Refusal::Ordination);
    }
    Ok(())
}
