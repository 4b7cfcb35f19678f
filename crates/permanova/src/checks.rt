// Lines 1 and 2 of the table for a call of the sampled test (document 01, section 8).
ghost use Rattle.std.specs.Prelude.{◌≡◌, ltb};
ghost use Rattle.limits.specs.Limits.{most_shuffles};
ghost use Rattle.permanova.specs.Call.{too_short};

// Line 1, for outputs and work slices of these lengths. A work slice of n by n that no `usize` counts is short.
pub fn too_short(
    n: usize,
    group_labels: usize,
    counts: usize,
    means: usize,
    pair_terms: usize,
    weighted_squares: usize,
) -> bool
    ensures { result ≡ too_short n group_labels counts means pair_terms weighted_squares }
{
    let Some(square) = n.checked_mul(n) else {
        return true;
    };
    outcome::is_short(
        &[group_labels, counts, means, pair_terms, weighted_squares],
        &[n, n, n, square, square],
    )
}

// Line 2, for this number of shuffles.
pub fn too_many(n_perm: u64) -> bool
    ensures { result ≡ ltb most_shuffles n_perm }
{
    limits::MOST_SHUFFLES < n_perm
}
