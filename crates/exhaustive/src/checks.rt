// Line 1 of the table for the exhaustive test.
ghost use Rattle.std.specs.Prelude.{◌≡◌};
ghost use Rattle.outcome.specs.Refusals.{short};
ghost use Rattle.exhaustive_hits.specs.Call.{exhaustive_asks};

// Line 1, for outputs and work slices of these lengths. Where n times n does not fit, it is above every length.
pub fn too_short(n: usize, lent: &[usize; 9]) -> bool
    ensures { result ≡ short lent.now (exhaustive_asks n) }
{
    let Some(q) = n.checked_mul(n) else {
        return true;
    };
    let coords = limits::JUDGED_VALUES + limits::JUDGED_COMPONENTS * n;
    outcome::is_short(lent, &[n, n, n, q, q, coords, n + q, q, q])
}
