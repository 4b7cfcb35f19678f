// Squares, weights, terms and weighted squares of the kept samples (document 01, section 2), worked out once.
ghost use Rattle.std.specs.Prelude.{◌≡◌, map, ℕ, ◌+◌, ◌*◌, ◌<◌, length, true, is_some, Float};
ghost use Rattle.lists.specs.inner.Numbers.{Below};
ghost use Rattle.lists.specs.Ranges.{table, grid};
ghost use Rattle.lot.specs.Given.{held_by};
ghost use Rattle.permanova_sums.specs.Squares.{square_at, pair_term_at, pair_terms, weighted_square_at, weighted_squares, weight_at};

// ---- squares, weights and terms of the kept samples `ks`

// Distance of the kept samples a and b, squared.
fn square(d: &[f64], n: usize, ks: &[u16], a: usize, b: usize) -> f64
    requires { (length d.now ≡ n * n) × Below n ks.now × (a < length ks.now) × (b < length ks.now) }
    ensures { result ≡ square_at d.now n ks.now a b }
{
    let x = lists::cell(d, n, ks[a] as usize, ks[b] as usize);
    x * x
}

// Row a of a matrix: what f gives of a and each place.
fn fill_row<F: Fn(usize, usize) -> f64>(row: &mut [f64], a: usize, f: &F)
    requires { (b : ℕ) → b < length row.old → F.pre f.now a b }
    ensures { (h : ℕ → Float) → ((b : ℕ) (x : Float) → b < length row.old → F.post f.now a b x → x ≡ h b) → row.new ≡ table (length row.old) h }
{
    for b in 0..row.len() {
        row[b] = f(a, b);
    }
}

// An m by m matrix, row by row: what f gives of each two places.
fn fill_matrix<F: Fn(usize, usize) -> f64>(t: &mut [f64], m: usize, f: F)
    requires { (length t.old ≡ m * m) × ((a b : ℕ) → a < m → b < m → F.pre f a b) }
    ensures { (h : ℕ → ℕ → Float) → ((a b : ℕ) (x : Float) → a < m → b < m → F.post f a b x → x ≡ h a b) → t.new ≡ grid m m h }
{
    for a in 0..m {
        fill_row(&mut t[a * m..a * m + m], a, &f);
    }
}

// The terms of m kept samples, row by row.
pub fn fill_pair_terms(t: &mut [f64], d: &[f64], n: usize, ks: &[u16], w: &[f64], m: usize)
    requires { (length t.old ≡ m * m) × (length ks.now ≡ m) × (length w.now ≡ m) × (length d.now ≡ n * n) × Below n ks.now }
    ensures { t.new ≡ pair_terms d.now n ks.now w.now m }
{
    fill_matrix(t, m, |a, b| w[a] * w[b] * square(d, n, ks, a, b));
}

// The weighted squares of m kept samples, row by row.
pub fn fill_weighted_squares(p: &mut [f64], d: &[f64], n: usize, ks: &[u16], w: &[f64], m: usize)
    requires { (length p.old ≡ m * m) × (length ks.now ≡ m) × (length w.now ≡ m) × (length d.now ≡ n * n) × Below n ks.now }
    ensures { p.new ≡ weighted_squares d.now n ks.now w.now m }
{
    fill_matrix(p, m, |a, b| w[b] * square(d, n, ks, a, b));
}

// The weight of sample i: 1 where none are given.
fn weight_of(weights: Option<&[f64]>, i: usize) -> f64
    requires { is_some weights ≡ true → i < length (held_by weights) }
    ensures { result ≡ weight_at (is_some weights.entry) (held_by weights.entry) i }
{
    weights.map_or(1.0, |w| w[i])
}

// The weights of the kept samples.
pub fn fill_weights(w: &mut [f64], weights: Option<&[f64]>, ks: &[u16])
    requires { (length w.old ≡ length ks.now) × (is_some weights ≡ true → Below (length (held_by weights)) ks.now) }
    ensures { w.new ≡ map (weight_at (is_some weights.entry) (held_by weights.entry)) ks.now }
{
    for a in 0..w.len() {
        w[a] = weight_of(weights, ks[a] as usize);
    }
}
