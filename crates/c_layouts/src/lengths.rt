// For callers that allocate: the lengths that are asked of what an operation is lent, in the order of its parameters. They are refused by line 2 where n,
// components or columns are past document 01's limits: then the operation refuses whatever is lent.
ghost use Rattle.std.specs.Prelude.{◌≡◌, ◌||◌, false, true, ◌+◌, ◌*◌, ◌<◌, ◌≤◌, min, ltb, MatchResult};
ghost use Rattle.limits.specs.Limits.{most_columns, most_printed, most_samples};
ghost use Rattle.outcome.specs.Numbers.{outcome_of};
ghost use Rattle.outcome.specs.declared.Refusal.TheVariants.{Limit};
ghost use Rattle.ordination_coordinates.specs.Lines.{bad_components};
ghost use Rattle.permanova.specs.Call.{test_asks};
ghost use Rattle.exhaustive_hits.specs.Call.{exhaustive_asks};
ghost use Rattle.ordination_coordinates.specs.Lengths.{pcoa_asks, hash_pca_asks};
ghost use Rattle.dapc.specs.DapcLines.{dapc_asks};
ghost use Rattle.eigen_jacobi.specs.Call.{jacobi_asks};
ghost use Rattle.eigen_top.specs.TopLines.{top_asks};
ghost use Rattle.ordination_sets.specs.Lines.{gram_asks};
ghost use Rattle.c_layouts.specs.Lengths.{asked};

use ordination_coordinates::checks;
use outcome::Refusal;

// ---- within the limits

// n times n, of an n that is not past the limit.
fn square(n: usize) -> Result<usize, Refusal>
    ensures { MatchResult result (λ q. (n ≤ most_samples) × (q ≡ n * n) × (q ≤ 65536)) (λ e. (most_samples < n) × (e ≡ Limit)) }
{
    if limits::MOST_SAMPLES < n {
        return Err(Refusal::Limit);
    }
    Ok(n * n)
}

// How many components of n samples are used, of as many as may be asked.
fn components_used(components: usize, n: usize) -> Result<usize, Refusal>
    ensures { MatchResult result (λ k. (bad_components components ≡ false) × (k ≡ min components n)) (λ e. (bad_components components ≡ true) × (e ≡ Limit)) }
{
    if checks::bad_components(components) {
        return Err(Refusal::Limit);
    }
    Ok(eigen_top::checks::components_used(components, n))
}

// k values, k shares and coordinates n by k.
fn ordination(n: usize, k: usize) -> usize
    requires { (n ≤ most_samples) × (k ≤ n) }
    ensures { result ≡ k + k + n * k }
{
    k + k + n * k
}

// k values and k rows of n.
fn pairs(n: usize, k: usize) -> usize
    requires { (n ≤ most_samples) × (k ≤ n) }
    ensures { result ≡ k + k * n }
{
    k + k * n
}

// ---- for each operation

pub fn test_lengths(n: usize) -> Result<[usize; 5], Refusal>
    ensures { outcome_of result ≡ asked (ltb most_samples n) (test_asks n) }
{
    let q = square(n)?;
    Ok([n, n, n, q, q])
}

pub fn exhaustive_lengths(n: usize) -> Result<[usize; 9], Refusal>
    ensures { outcome_of result ≡ asked (ltb most_samples n) (exhaustive_asks n) }
{
    let q = square(n)?;
    let coords = limits::JUDGED_VALUES + limits::JUDGED_COMPONENTS * n;
    Ok([n, n, n, q, q, coords, n + q, q, q])
}

pub fn pcoa_lengths(n: usize, components: usize) -> Result<[usize; 5], Refusal>
    ensures { outcome_of result ≡ asked (ltb most_samples n || bad_components components) (pcoa_asks n (min components n)) }
{
    let q = square(n)?;
    let k = components_used(components, n)?;
    Ok([ordination(n, k), q, n + q, q, q])
}

pub fn hash_pca_lengths(n: usize, components: usize) -> Result<[usize; 6], Refusal>
    ensures { outcome_of result ≡ asked (ltb most_samples n || bad_components components) (hash_pca_asks n (min components n)) }
{
    let q = square(n)?;
    let k = components_used(components, n)?;
    let words = n * limits::SELECTED_WORDS;
    Ok([ordination(n, k), q, n + q, q, q, words])
}

pub fn dapc_lengths(n: usize, columns: usize) -> Result<[usize; 2], Refusal>
    ensures { outcome_of result ≡ asked (ltb most_samples n || ltb most_columns columns) (dapc_asks n columns) }
{
    if limits::MOST_SAMPLES < n || limits::MOST_COLUMNS < columns {
        return Err(Refusal::Limit);
    }
    Ok([columns + n * columns, n])
}

pub fn jacobi_lengths(n: usize) -> Result<[usize; 3], Refusal>
    ensures { outcome_of result ≡ asked (ltb most_samples n) (jacobi_asks n) }
{
    let q = square(n)?;
    Ok([n + q, q, q])
}

pub fn top_eigs_lengths(n: usize, components: usize) -> Result<[usize; 4], Refusal>
    ensures { outcome_of result ≡ asked (ltb most_samples n || bad_components components) (top_asks n (min components n)) }
{
    let q = square(n)?;
    let k = components_used(components, n)?;
    Ok([pairs(n, k), n + q, q, q])
}

pub fn gram_lengths(n: usize) -> Result<[usize; 2], Refusal>
    ensures { outcome_of result ≡ asked (ltb most_samples n) (gram_asks n) }
{
    let q = square(n)?;
    Ok([q, n * limits::SELECTED_WORDS])
}

pub fn judge_length() -> usize
    ensures { result ≡ most_printed }
{
    limits::MOST_PRINTED
}
