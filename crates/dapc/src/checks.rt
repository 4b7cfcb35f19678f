// Section 5 of document 01: the lines of the table for `dapc`.
ghost use Rattle.std.specs.Prelude.{◌≡◌};
ghost use Rattle.lists.specs.Filters.{any};
ghost use Rattle.outcome.specs.Numbers.{told};
ghost use Rattle.outcome.specs.Refusals.{first};
ghost use Rattle.dapc.specs.DapcLines.{bad_coordinate, shape_lines, group_lines};
ghost use Rattle.dapc.specs.DapcLines as Table;

use outcome::Refusal;

// Line 1, for slices of these lengths, where n times columns must not wrap.
fn misfits(n: usize, columns: usize, x: usize, labels: usize, out: usize, assigned: usize) -> bool
    ensures { result ≡ Table.misfits n columns x labels out assigned }
{
    let Some(k) = n.checked_mul(columns) else {
        return true;
    };
    if x != k {
        return true;
    }
    if labels != n {
        return true;
    }
    // columns + x, which is asked of `out`, may be past what a `usize` holds
    if out < columns {
        return true;
    }
    out - columns < x || assigned < n
}

// Line 3: whether a coordinate is NaN or beyond 2 ^ 40 in magnitude.
pub fn beyond(x: &[f64]) -> bool
    ensures { result ≡ any bad_coordinate x.now }
{
    lot_checks::any_outside(-1099511627776.0, 1099511627776.0, x)
}

// Lines 1 to 3, for slices of these lengths.
pub fn check(
    x: &[f64],
    n: usize,
    columns: usize,
    labels: usize,
    out: usize,
    assigned: usize,
) -> Result<(), Refusal>
    ensures { told result ≡ first (shape_lines n columns x.now labels out assigned) }
{
    if misfits(n, columns, x.len(), labels, out, assigned) {
        return Err(Refusal::Length);
    }
    if limits::MOST_SAMPLES < n {
        return Err(Refusal::Limit);
    }
    if limits::MOST_COLUMNS < columns {
        return Err(Refusal::Limit);
    }
    if beyond(x) {
        return Err(Refusal::Value);
    }
    Ok(())
}

// Lines 5 and 9.
pub fn check_groups(columns: usize, m: usize, g: usize) -> Result<(), Refusal>
    ensures { told result ≡ first (group_lines columns m g) }
{
    if g < 2 {
        return Err(Refusal::Labels);
    }
    if dapc_discriminant::columns_used(columns, m, g) < 2 {
        return Err(Refusal::Columns);
    }
    Ok(())
}
