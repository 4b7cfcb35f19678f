// The centred matrix of sets of hashes by their columns: from the sets' bits, their sums of means and the sum of squared means.
ghost use Rattle.std.specs.Prelude.{◌≡◌, map, ◌++◌, ◌+◌, ◌*◌, ◌<◌, ◌≤◌, min, max, length, get_or, take, set, replicate};
ghost use Rattle.std.specs.Float.{nan};
ghost use Rattle.limits.specs.Limits.{most_selected, selected_words};
ghost use Rattle.lists.specs.Ranges.{range, table, rows, grid};
ghost use Rattle.lists.specs.Loops.{in_turn};
ghost use Rattle.lists.specs.Sums.{sum⁻};
ghost use Rattle.lists.specs.Writes.{over, cleared};
ghost use Rattle.ordination_hashes.specs.inner.Columns.{column_of};
ghost use Rattle.ordination_hashes.specs.inner.Stretches.{Climbs};
ghost use Rattle.ordination_sets.specs.Sets.{set_at};
ghost use Rattle.ordination_sets.specs.inner.Offsets.{Offsets};
ghost use Rattle.ordination_gram.specs.inner.Bits.{packed, present};
ghost use Rattle.ordination_gram.specs.inner.Columns.{square, column_sum, entry_at, column_gram};

use crate::bitsets;
use ordination_hashes::columns::Columns;

// The sum of squared means.
fn square_sum(means: &[f64]) -> f64
    ensures { result ≡ sum⁻ (map square means.now) }
{
    let mut s = -0.0;
    for x in means {
        s += *x * *x;
    }
    s
}

// The bits of a set's columns, in a row of zeros, and the sum of their means.
fn mark_hashes(row: &mut [u64], set: &[u64], columns: &Columns) -> f64
    requires { (length columns.now.means.now ≤ length row.old * 64) × (row.old ≡ replicate (length row.old) 0) × (length columns.now.means.now ≤ most_selected) }
    ensures { (result ≡ column_sum columns.now.means.now (map (column_of columns.now.hashes.now) set.now))
        × (row.new ≡ packed (length row.old) (present (length columns.now.means.now) (map (column_of columns.now.hashes.now) set.now))) }
{
    let mut s = -0.0;
    for &h in set {
        if let Some(c) = columns.find(h) {
            if c < columns.means.len() {
                bitsets::mark_bit(row, c);
                s += columns.means[c];
            }
        }
    }
    s
}

// The same, in any row.
fn mark_set(row: &mut [u64], set: &[u64], columns: &Columns) -> f64
    requires { (length columns.now.means.now ≤ length row.old * 64) × (length columns.now.means.now ≤ most_selected) }
    ensures { (result ≡ column_sum columns.now.means.now (map (column_of columns.now.hashes.now) set.now))
        × (row.new ≡ packed (length row.old) (present (length columns.now.means.now) (map (column_of columns.now.hashes.now) set.now))) }
{
    row.fill(0);
    mark_hashes(row, set, columns)
}

// The bits of the n sets, a row of w words for each, and their sums.
fn mark_sets(
    words: &mut [u64],
    sums: &mut [f64],
    hashes: &[u64],
    offsets: &[usize],
    n: usize,
    w: usize,
    columns: &Columns,
)
    requires { Offsets n offsets.now (length hashes.now) × (n * w ≤ length words.old) × (n ≤ length sums.old) × (length columns.now.means.now ≤ w * 64) × (length columns.now.means.now ≤ most_selected) }
    ensures { (words.new
        ≡ over (rows n (λ i. packed w (present (length columns.now.means.now) (set_at (map (column_of columns.now.hashes.now) hashes.now) offsets.now i)))) words.old)
        × (sums.new
        ≡ over (table n (λ i. column_sum columns.now.means.now (set_at (map (column_of columns.now.hashes.now) hashes.now) offsets.now i))) sums.old) }
{
    for i in 0..n {
        let a = offsets[i];
        let e = offsets[i + 1];
        sums[i] = mark_set(&mut words[i * w..i * w + w], &hashes[a..e], columns);
    }
}

// The entry of the sets i and j.
fn entry(words: &[u64], w: usize, sums: &[f64], t: f64, i: usize, j: usize) -> f64
    requires { (i * w + w ≤ length words.now) × (j * w + w ≤ length words.now) × (w ≤ selected_words) × (i < length sums.now) × (j < length sums.now) }
    ensures { result ≡ entry_at w words.now sums.now t i j }
{
    let c = bitsets::common_bits(&words[i * w..i * w + w], &words[j * w..j * w + w]);
    c as f64 - sums[i] - sums[j] + t
}

// Row i from the diagonal on.
fn fill_row(row: &mut [f64], i: usize, words: &[u64], w: usize, sums: &[f64], t: f64)
    requires { (i < length row.old) × (length row.old * w ≤ length words.now) × (w ≤ selected_words) × (length row.old ≤ length sums.now) }
    ensures { row.new
        ≡ take i row.old ++ map (entry_at w words.now sums.now t i) (range i (length row.old)) }
{
    for j in i..row.len() {
        row[j] = entry(words, w, sums, t, i, j);
    }
}

// Row i before the diagonal: what the rows above have in column i.
fn mirror_row(out: &mut [f64], n: usize, i: usize)
    requires { (i < n) × (n * n ≤ length out.old) }
    ensures { out.new ≡ in_turn (λ j l. set l (i * n + j) (get_or l (j * n + i) nan)) i out.old }
{
    for j in 0..i {
        out[i * n + j] = out[j * n + i];
    }
}

// The n by n entries, in front of `out`.
fn fill(out: &mut [f64], n: usize, words: &[u64], w: usize, sums: &[f64], t: f64)
    requires { (n * n ≤ length out.old) × (n * w ≤ length words.now) × (w ≤ selected_words) × (n ≤ length sums.now) }
    ensures { out.new
        ≡ over (grid n n (λ i j. entry_at w words.now sums.now t (min i j) (max i j))) out.old }
{
    for i in 0..n {
        mirror_row(out, n, i);
        fill_row(&mut out[i * n..i * n + n], i, words, w, sums, t);
    }
}

// The matrix of sets of hashes, in front of `out`, by their columns among the chosen ones, which go upward. `words` lends a row of bits for each set, and is
// cleared; `sums` lends a number for each. The hints of the columns are 2 KiB of stack.
pub fn fill_gram(
    out: &mut [f64],
    words: &mut [u64],
    sums: &mut [f64],
    hashes: &[u64],
    chosen: &[u64],
    means: &[f64],
    offsets: &[usize],
    n: usize,
)
    requires offsets { Offsets n offsets.now (length hashes.now) × (length means.now ≤ most_selected) × Climbs chosen.now }
    requires n_in_bounds { (n * n ≤ length out.old) × (n * selected_words ≤ length words.old) × (n ≤ length sums.old) }
    ensures { (out.new
        ≡ over (column_gram n (map (column_of chosen.now) hashes.now) offsets.now means.now) out.old)
        × (words.new ≡ cleared 0 words.old) }
{
    let mut starts = [0; 1025];
    let columns = Columns::new(chosen, means, &mut starts);
    let w = means.len().div_ceil(64);
    mark_sets(words, sums, hashes, offsets, n, w, &columns);
    let t = square_sum(means);
    fill(out, n, words, w, sums, t);
    words.fill(0);
}
