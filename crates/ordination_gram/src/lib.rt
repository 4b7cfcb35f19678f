// `gram_matrix` (document 01, section 4): the centred Gram matrix of sets of hashes. It asks nothing of its arguments, and its contract equates the
// whole outcome, the answer and the final contents of both lent slices, with `gram_call` of specs/Call.antt. `matrix` is the same for an operation that
// goes on with the matrix.
#![tactic(auto)]

pub mod bitsets;
pub mod columns;

ghost use Rattle.std.specs.Prelude.{◌≡◌, false, ◌*◌, ◌≤◌, length};
ghost use Rattle.limits.specs.Limits.{most_samples, most_selected, selected_words};
ghost use Rattle.ordination_gram.specs.Call.{gram_call, called};
ghost use Rattle.ordination_gram.specs.inner.Call.{Checked, matrix_call};

use outcome::Refusal;

// Lines 1, 2, 6, 13 and 7. `short` says that a slice of the operation is short, `beyond` that another of its arguments is beyond its limit. `chosen` and
// `means` lend room; where the answer is a number of hashes, the selected hashes and their means are left there.
fn check_gram(
    chosen: &mut [u64],
    means: &mut [f64],
    hashes: &[u64],
    offsets: &[usize],
    n: usize,
    short: bool,
    beyond: bool,
) -> Result<usize, Refusal>
    requires { (most_selected ≤ length chosen.old) × (most_selected ≤ length means.old) }
    ensures { Checked n hashes.now offsets.now short beyond result chosen.new means.new }
{
    ordination_sets::early(offsets, n, hashes.len(), short, beyond)?;
    let m = ordination_hashes::select(chosen, means, hashes, n);
    ordination_sets::late(m)?;
    Ok(m)
}

// The lines of the table, and where none holds the Gram matrix, in front of `b`; the words are cleared then. `chosen`, `means` and `sums` lend room.
// The answer is the number of selected hashes.
fn matrix_in(
    b: &mut [f64],
    words: &mut [u64],
    chosen: &mut [u64],
    means: &mut [f64],
    sums: &mut [f64],
    hashes: &[u64],
    offsets: &[usize],
    n: usize,
    short: bool,
    beyond: bool,
) -> Result<usize, Refusal>
    requires most_selected_in_bounds { (most_selected ≤ length chosen.old) × (most_selected ≤ length means.old) × (most_samples ≤ length sums.old) }
    requires n_in_bounds { short ≡ false → (n * n ≤ length b.old) × (n * selected_words ≤ length words.old) }
    ensures { called result b.new words.new
        ≡ matrix_call n hashes.now offsets.now short beyond b.old words.old }
{
    let m = check_gram(chosen, means, hashes, offsets, n, short, beyond)?;
    columns::fill_gram(
        b,
        words,
        sums,
        hashes,
        &chosen[..m],
        &means[..m],
        offsets,
        n,
    );
    Ok(m)
}

// The same, with 18 KiB of stack. Nothing lent may be written before the selection is known.
pub fn matrix(
    b: &mut [f64],
    words: &mut [u64],
    hashes: &[u64],
    offsets: &[usize],
    n: usize,
    short: bool,
    beyond: bool,
) -> Result<usize, Refusal>
    requires { short ≡ false → (n * n ≤ length b.old) × (n * selected_words ≤ length words.old) }
    ensures { called result b.new words.new
        ≡ matrix_call n hashes.now offsets.now short beyond b.old words.old }
{
    let mut chosen = [0u64; limits::MOST_SELECTED];
    let mut means = [0.0; limits::MOST_SELECTED];
    let mut sums = [0.0; limits::MOST_SAMPLES];
    matrix_in(
        b,
        words,
        &mut chosen,
        &mut means,
        &mut sums,
        hashes,
        offsets,
        n,
        short,
        beyond,
    )
}

// The centred Gram matrix of n sets, in front of `out`. The set i has the hashes from offsets[i] to offsets[i + 1]. `words` lends a row of bits for each set.
pub fn gram_matrix(
    hashes: &[u64],
    offsets: &[usize],
    n: usize,
    out: &mut [f64],
    words: &mut [u64],
) -> Result<usize, Refusal>
    ensures { called result out.new words.new
        ≡ gram_call n hashes.now offsets.now out.old words.old }
{
    let short = ordination_sets::too_short(n, out.len(), words.len());
    matrix(out, words, hashes, offsets, n, short, false)
}
