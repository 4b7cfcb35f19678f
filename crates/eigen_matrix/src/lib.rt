// Leaves on matrices lent as slices: rows copied out and in, and entries that are NaN or not finite.
#![tactic(auto)]

pub mod entrywise;
pub mod square;

ghost use Rattle.std.specs.Prelude.{◌≡◌, ℕ, ◌+◌, ◌*◌, ◌<◌, ◌≤◌, List, length, Float};
ghost use Rattle.std.specs.Float.Ieee.{is_nan};
ghost use Rattle.lists.specs.Filters.{any};
ghost use Rattle.lists.specs.Ranges.{rows};
ghost use Rattle.lists.specs.Rows.{row, put_row};
ghost use Rattle.eigen_matrix.specs.Finite.{not_finite};

// Each of n rows of w entries is filled by f, which is given its place and the row.
pub fn fill_rows<F: Fn(usize, &mut [f64])>(m: &mut [f64], n: usize, w: usize, f: F)
    requires size { length m.old ≡ n * w }
    requires may { (i : ℕ) (row : _) → i < n → length row.now ≡ w → F.pre f i row }
    ensures { (h : ℕ → List Float) → ((i : ℕ) → length (h i) ≡ w)
        → ((i : ℕ) (row filled : _) → i < n → length row.now ≡ w → F.post f i row tt filled → filled.now ≡ h i) → m.new ≡ rows n h }
{
    for i in 0..n {
        f(i, &mut m[i * w..i * w + w]);
    }
}

// Row i goes to dst.
pub fn copy_row(dst: &mut [f64], m: &[f64], n: usize, i: usize)
    requires { (length dst.old ≡ n) × (i * n + n ≤ length m.now) }
    ensures { dst.new ≡ row n i m.now }
{
    entrywise::copy(dst, &m[i * n..i * n + n]);
}

// src goes to row i.
pub fn put_row(m: &mut [f64], src: &[f64], n: usize, i: usize)
    requires { (length src.now ≡ n) × (i * n + n ≤ length m.old) }
    ensures { m.new ≡ put_row n i src.now m.old }
{
    entrywise::copy(&mut m[i * n..i * n + n], src);
}

// Whether an entry is NaN.
pub fn has_nan(d: &[f64]) -> bool
    ensures { result ≡ any is_nan d.now }
{
    d.iter().any(|x| x.is_nan())
}

// Whether an entry is not finite.
pub fn has_not_finite(a: &[f64]) -> bool
    ensures { result ≡ any not_finite a.now }
{
    a.iter().any(|x| !float::is_finite(*x))
}
