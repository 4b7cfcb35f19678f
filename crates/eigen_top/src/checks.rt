// Section 4 of document 01: the lines of the table for `top_eigs`.
ghost use Rattle.std.specs.Prelude.{◌≡◌, ◌≤◌, min};
ghost use Rattle.outcome.specs.Numbers.{told};
ghost use Rattle.outcome.specs.Refusals.{first};
ghost use Rattle.eigen_top.specs.TopLines.{top_lines};
ghost use Rattle.eigen_top.specs.TopLines as Table;

use outcome::Refusal;

// Components above n mean n.
pub fn components_used(components: usize, n: usize) -> usize
    ensures { result ≡ min components n }
{
    components.min(n)
}

// Line 1, for slices of these lengths; n * n must not wrap.
fn misfits(k: usize, n: usize, a: usize, out: usize, w: usize, m: usize, v: usize) -> bool
    requires { k ≤ n }
    ensures { result ≡ Table.misfits k n a out w m v }
{
    let Some(s) = n.checked_mul(n) else {
        return true;
    };
    a != s || outcome::is_short(&[out, w, m, v], &[k + k * n, n + s, s, s])
}

// Line 2.
fn beyond(n: usize, components: usize) -> bool
    ensures { result ≡ Table.beyond n components }
{
    limits::MOST_SAMPLES < n || components == 0 || limits::MOST_COMPONENTS < components
}

// Lines 1 to 3 of the table, for slices of these lengths.
pub fn check(
    a: &[f64],
    n: usize,
    components: usize,
    k: usize,
    out: usize,
    w: usize,
    m: usize,
    v: usize,
) -> Result<(), Refusal>
    requires { k ≡ min components n }
    ensures { told result ≡ first (top_lines components n a.now out w m v) }
{
    if misfits(k, n, a.len(), out, w, m, v) {
        return Err(Refusal::Length);
    }
    if beyond(n, components) {
        return Err(Refusal::Limit);
    }
    if eigen_matrix::has_not_finite(a) {
        return Err(Refusal::Value);
    }
    Ok(())
}
