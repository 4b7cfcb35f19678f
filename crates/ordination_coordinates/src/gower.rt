// Section 4 of document 01: Gower's centred matrix of distances.
ghost use Rattle.std.specs.Prelude.{◌≡◌, ◌*◌, ◌≤◌, length, get_or};
ghost use Rattle.std.specs.Float.{nan};
ghost use Rattle.limits.specs.Limits.{most_samples};
ghost use Rattle.lists.specs.Ranges.{table, grid};
ghost use Rattle.ordination_coordinates.specs.Centred.{squares, mean, row_means, centring, centred_at, centred};

use eigen_matrix::entrywise;

// The squares of the distances.
fn fill_squares(out: &mut [f64], d: &[f64])
    requires { length out.old ≡ length d.now }
    ensures { out.new ≡ squares d.now }
{
    entrywise::rewrite(out, |i, _| d[i] * d[i]);
}

// The mean of n numbers.
fn mean(l: &[f64], n: usize) -> f64
    requires { n ≤ most_samples }
    ensures { result ≡ mean n l.now }
{
    let mut s = -0.0;
    for x in l {
        s += *x;
    }
    s / n as f64
}

// The mean of each row.
fn fill_means(out: &mut [f64], s: &[f64], n: usize)
    requires { (length out.old ≡ n) × (length s.now ≡ n * n) × (n ≤ most_samples) }
    ensures { out.new ≡ row_means n s.now }
{
    for i in 0..n {
        out[i] = mean(&s[i * n..i * n + n], n);
    }
}

// A row of squares, whose mean is a, becomes centred; m are the means, and `all` is their mean.
fn centre_row(row: &mut [f64], m: &[f64], a: f64, all: f64)
    requires { length m.now ≡ length row.old }
    ensures { row.new ≡ table (length row.old) (λ j. centring (get_or row.old j nan) a (get_or m.now j nan) all) }
{
    entrywise::rewrite(row, |j, x| -0.5 * (x - a - m[j] + all));
}

// All rows.
fn centre_rows(b: &mut [f64], m: &[f64], all: f64, n: usize)
    requires { (length b.old ≡ n * n) × (length m.now ≡ n) }
    ensures { b.new ≡ grid n n (centred_at n b.old m.now all) }
{
    for i in 0..n {
        centre_row(&mut b[i * n..i * n + n], m, m[i], all);
    }
}

// The centred matrix of the distances d goes to b. `m` takes the row means.
fn centre_in(b: &mut [f64], m: &mut [f64], d: &[f64], n: usize)
    requires { (length b.old ≡ n * n) × (length m.old ≡ n) × (length d.now ≡ n * n) × (n ≤ most_samples) }
    ensures { b.new ≡ centred n d.now }
{
    fill_squares(b, d);
    fill_means(m, b, n);
    let all = mean(m, n);
    centre_rows(b, m, all, n);
}

// The same with room for the means.
pub fn centre(b: &mut [f64], d: &[f64], n: usize)
    requires { (length b.old ≡ n * n) × (length d.now ≡ n * n) × (n ≤ most_samples) }
    ensures { b.new ≡ centred n d.now }
{
    let mut m = [0.0; limits::MOST_SAMPLES];
    centre_in(b, &mut m[..n], d, n);
}
