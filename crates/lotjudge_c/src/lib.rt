// The library for other languages (include/lotjudge.h): each operation on numbers and slices, with a number for its outcome: 0, or the refusal's.
#![tactic(auto)]

ghost use Rattle.std.specs.Prelude.{◌≡◌, ◌||◌, [], cond, min, ltb};
ghost use Rattle.limits.specs.Limits.{most_columns, most_printed, most_samples};
ghost use Rattle.square_root.specs.Root.{root};
ghost use Rattle.lot.specs.Given.{lot_given};
ghost use Rattle.lot.specs.Lot.{lot_of};
ghost use Rattle.permanova.specs.Call.{slices_of, test_call};
ghost use Rattle.exhaustive_hits.specs.Call as ways;
ghost use Rattle.ordination_pcoa.specs.Call.{pcoa_call};
ghost use Rattle.ordination_coordinates.specs.Lines.{bad_components};
ghost use Rattle.ordination_hash_pca.specs.Call.{hash_pca_call};
ghost use Rattle.dapc.specs.Call.{dapc_call};
ghost use Rattle.eigen_jacobi.specs.Call.{jacobi_call};
ghost use Rattle.eigen_top.specs.Call.{top_call};
ghost use Rattle.ordination_gram.specs.Call.{gram_call};
ghost use Rattle.judge_printing.specs.Page.{page, onto};
ghost use Rattle.judge.specs.Judge.{judge_text};
ghost use Rattle.c_layouts.specs.Coded.{arrays};
ghost use Rattle.permanova.specs.Call.{test_asks};
ghost use Rattle.exhaustive_hits.specs.Call.{exhaustive_asks};
ghost use Rattle.ordination_coordinates.specs.Lengths.{pcoa_asks, hash_pca_asks};
ghost use Rattle.dapc.specs.DapcLines.{dapc_asks};
ghost use Rattle.eigen_jacobi.specs.Call.{jacobi_asks};
ghost use Rattle.eigen_top.specs.TopLines.{top_asks};
ghost use Rattle.ordination_sets.specs.Lines.{gram_asks};
ghost use Rattle.c_layouts.specs.Lengths.{tell, told};
ghost use Rattle.lotjudge_c.specs.Exported.{export_test, test_export, export_ways, ways_export, export_pcoa, pcoa_export, export_hash_pca, hash_pca_export};
ghost use Rattle.lotjudge_c.specs.Exported.{export_dapc, dapc_export, export_jacobi, jacobi_export, export_top, top_export, export_gram, gram_export};

use c_layouts::{layouts, lengths};
use lot::Lot;

// A lot by its parts, of which strata and weights are given or not. C has no options.
fn lot_from<'a>(
    n: usize,
    distances: &'a [f64],
    labels: &'a [u16],
    strata_given: bool,
    strata: &'a [u16],
    weights_given: bool,
    weights: &'a [f64],
) -> Lot<'a>
    ensures { lot_given result ≡ lot_of n distances.now labels.now strata_given (cond strata_given strata.now []) weights_given (cond weights_given weights.now []) }
{
    Lot {
        n,
        distances,
        labels,
        strata: strata_given.then_some(strata),
        weights: weights_given.then_some(weights),
    }
}

#[unsafe(no_mangle)]
pub extern "C" fn lotjudge_test(
    n: usize,
    distances: &[f64],
    labels: &[u16],
    strata_given: bool,
    strata: &[u16],
    weights_given: bool,
    weights: &[f64],
    seed: u64,
    n_perm: u64,
    group_labels: &mut [u16],
    counts: &mut [u16],
    means: &mut [f64],
    pair_terms: &mut [f64],
    weighted_squares: &mut [f64],
    values: &mut [f64; 6],
    numbers: &mut [u64; 5],
) -> u8
    ensures { test_export result (arrays values.new numbers.new) (slices_of group_labels.new counts.new means.new pair_terms.new weighted_squares.new)
        ≡ export_test (test_call (lot_of n distances.now labels.now strata_given strata.now weights_given weights.now) seed n_perm (slices_of group_labels.old counts.old means.old pair_terms.old weighted_squares.old)) (arrays values.old numbers.old) }
{
    let lot = lot_from(
        n,
        distances,
        labels,
        strata_given,
        strata,
        weights_given,
        weights,
    );
    let r = permanova::test(
        lot,
        seed,
        n_perm,
        group_labels,
        counts,
        means,
        pair_terms,
        weighted_squares,
    );
    layouts::lay_test(r, values, numbers)
}

#[unsafe(no_mangle)]
pub extern "C" fn lotjudge_exhaustive(
    n: usize,
    distances: &[f64],
    labels: &[u16],
    strata_given: bool,
    strata: &[u16],
    weights_given: bool,
    weights: &[f64],
    group_labels: &mut [u16],
    counts: &mut [u16],
    means: &mut [f64],
    pair_terms: &mut [f64],
    weighted_squares: &mut [f64],
    coords: &mut [f64],
    eigenpairs: &mut [f64],
    vectors: &mut [f64],
    label_counts: &mut [u16],
    values: &mut [f64; 4],
    numbers: &mut [u64; 11],
) -> u8
    ensures { ways_export result (arrays values.new numbers.new) (ways.slices_of group_labels.new counts.new means.new pair_terms.new weighted_squares.new coords.new eigenpairs.new vectors.new label_counts.new)
        ≡ export_ways (ways.exhaustive_call (lot_of n distances.now labels.now strata_given strata.now weights_given weights.now)
        (ways.slices_of group_labels.old counts.old means.old pair_terms.old weighted_squares.old coords.old eigenpairs.old vectors.old label_counts.old)) (arrays values.old numbers.old) }
{
    let lot = lot_from(
        n,
        distances,
        labels,
        strata_given,
        strata,
        weights_given,
        weights,
    );
    let r = exhaustive::exhaustive(
        lot,
        group_labels,
        counts,
        means,
        pair_terms,
        weighted_squares,
        coords,
        eigenpairs,
        vectors,
        label_counts,
    );
    layouts::lay_ways(r, values, numbers)
}

#[unsafe(no_mangle)]
pub extern "C" fn lotjudge_pcoa(
    distances: &[f64],
    n: usize,
    components: usize,
    out: &mut [f64],
    centred: &mut [f64],
    eigenpairs: &mut [f64],
    rotated: &mut [f64],
    vectors: &mut [f64],
) -> u8
    ensures { pcoa_export result out.new centred.new eigenpairs.new rotated.new vectors.new
        ≡ export_pcoa (pcoa_call components n distances.now out.old centred.old eigenpairs.old rotated.old vectors.old) }
{
    let r = ordination_pcoa::pcoa(
        distances, n, components, out, centred, eigenpairs, rotated, vectors,
    );
    layouts::code_of(r)
}

#[unsafe(no_mangle)]
pub extern "C" fn lotjudge_hash_pca(
    hashes: &[u64],
    offsets: &[usize],
    n: usize,
    components: usize,
    out: &mut [f64],
    gram: &mut [f64],
    eigenpairs: &mut [f64],
    rotated: &mut [f64],
    vectors: &mut [f64],
    words: &mut [u64],
    selected: &mut usize,
) -> u8
    ensures { hash_pca_export result selected.new out.new gram.new eigenpairs.new rotated.new vectors.new words.new
        ≡ export_hash_pca (hash_pca_call components n hashes.now offsets.now out.old gram.old eigenpairs.old rotated.old vectors.old words.old) selected.old }
{
    let r = ordination_hash_pca::hash_pca(
        hashes, offsets, n, components, out, gram, eigenpairs, rotated, vectors, words,
    );
    layouts::lay(r, selected)
}

#[unsafe(no_mangle)]
pub extern "C" fn lotjudge_dapc(
    x: &[f64],
    n: usize,
    columns: usize,
    labels: &[u16],
    out: &mut [f64],
    assigned: &mut [u16],
    numbers: &mut [usize; 3],
) -> u8
    ensures { dapc_export result out.new assigned.new numbers.new
        ≡ export_dapc (dapc_call n columns x.now labels.now out.old assigned.old) numbers.old }
{
    let r = dapc::dapc(x, n, columns, labels, out, assigned);
    layouts::lay_scores(r, numbers)
}

#[unsafe(no_mangle)]
pub extern "C" fn lotjudge_jacobi_eigen(
    a: &[f64],
    n: usize,
    out: &mut [f64],
    rotated: &mut [f64],
    vectors: &mut [f64],
    sweeps: &mut usize,
) -> u8
    ensures { jacobi_export result sweeps.new out.new rotated.new vectors.new
        ≡ export_jacobi (jacobi_call n a.now out.old rotated.old vectors.old) sweeps.old }
{
    let r = eigen_jacobi::jacobi_eigen(a, n, out, rotated, vectors);
    layouts::lay(r, sweeps)
}

#[unsafe(no_mangle)]
pub extern "C" fn lotjudge_top_eigs(
    a: &[f64],
    n: usize,
    components: usize,
    out: &mut [f64],
    eigenpairs: &mut [f64],
    rotated: &mut [f64],
    vectors: &mut [f64],
) -> u8
    ensures { top_export result out.new eigenpairs.new rotated.new vectors.new
        ≡ export_top (top_call components n a.now out.old eigenpairs.old rotated.old vectors.old) }
{
    let r = eigen_top::top_eigs(a, n, components, out, eigenpairs, rotated, vectors);
    layouts::code_of(r)
}

#[unsafe(no_mangle)]
pub extern "C" fn lotjudge_gram_matrix(
    hashes: &[u64],
    offsets: &[usize],
    n: usize,
    out: &mut [f64],
    words: &mut [u64],
    selected: &mut usize,
) -> u8
    ensures { gram_export result selected.new out.new words.new
        ≡ export_gram (gram_call n hashes.now offsets.now out.old words.old) selected.old }
{
    let r = ordination_gram::gram_matrix(hashes, offsets, n, out, words);
    layouts::lay(r, selected)
}

#[unsafe(no_mangle)]
pub extern "C" fn lotjudge_judge(text: &[u8], out: &mut [u8; limits::MOST_PRINTED]) -> usize
    ensures { page result out.new ≡ onto (judge_text text.now) out.old }
{
    judge::judge(text, out)
}

// The root that every operation uses.
#[unsafe(no_mangle)]
pub extern "C" fn lotjudge_sqrt(x: f64) -> f64
    ensures { result ≡ root x }
{
    square_root::sqrt(x)
}

// ---- the lengths that are asked

#[unsafe(no_mangle)]
pub extern "C" fn lotjudge_test_lengths(n: usize, lengths: &mut [usize; 5]) -> u8
    ensures { told result lengths.new ≡ tell (ltb most_samples n) (test_asks n) lengths.old }
{
    layouts::lay(lengths::test_lengths(n), lengths)
}

#[unsafe(no_mangle)]
pub extern "C" fn lotjudge_exhaustive_lengths(n: usize, lengths: &mut [usize; 9]) -> u8
    ensures { told result lengths.new ≡ tell (ltb most_samples n) (exhaustive_asks n) lengths.old }
{
    layouts::lay(lengths::exhaustive_lengths(n), lengths)
}

#[unsafe(no_mangle)]
pub extern "C" fn lotjudge_pcoa_lengths(n: usize, components: usize, lengths: &mut [usize; 5]) -> u8
    ensures { told result lengths.new ≡ tell (ltb most_samples n || bad_components components) (pcoa_asks n (min components n)) lengths.old }
{
    layouts::lay(lengths::pcoa_lengths(n, components), lengths)
}

#[unsafe(no_mangle)]
pub extern "C" fn lotjudge_hash_pca_lengths(
    n: usize,
    components: usize,
    lengths: &mut [usize; 6],
) -> u8
    ensures { told result lengths.new ≡ tell (ltb most_samples n || bad_components components) (hash_pca_asks n (min components n)) lengths.old }
{
    layouts::lay(lengths::hash_pca_lengths(n, components), lengths)
}

#[unsafe(no_mangle)]
pub extern "C" fn lotjudge_dapc_lengths(n: usize, columns: usize, lengths: &mut [usize; 2]) -> u8
    ensures { told result lengths.new ≡ tell (ltb most_samples n || ltb most_columns columns) (dapc_asks n columns) lengths.old }
{
    layouts::lay(lengths::dapc_lengths(n, columns), lengths)
}

#[unsafe(no_mangle)]
pub extern "C" fn lotjudge_jacobi_eigen_lengths(n: usize, lengths: &mut [usize; 3]) -> u8
    ensures { told result lengths.new ≡ tell (ltb most_samples n) (jacobi_asks n) lengths.old }
{
    layouts::lay(lengths::jacobi_lengths(n), lengths)
}

#[unsafe(no_mangle)]
pub extern "C" fn lotjudge_top_eigs_lengths(
    n: usize,
    components: usize,
    lengths: &mut [usize; 4],
) -> u8
    ensures { told result lengths.new ≡ tell (ltb most_samples n || bad_components components) (top_asks n (min components n)) lengths.old }
{
    layouts::lay(lengths::top_eigs_lengths(n, components), lengths)
}

#[unsafe(no_mangle)]
pub extern "C" fn lotjudge_gram_matrix_lengths(n: usize, lengths: &mut [usize; 2]) -> u8
    ensures { told result lengths.new ≡ tell (ltb most_samples n) (gram_asks n) lengths.old }
{
    layouts::lay(lengths::gram_lengths(n), lengths)
}

#[unsafe(no_mangle)]
pub extern "C" fn lotjudge_judge_length() -> usize
    ensures { result ≡ most_printed }
{
    lengths::judge_length()
}
