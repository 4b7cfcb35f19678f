// Rows, entry by entry.
ghost use Rattle.std.specs.Prelude.{◌≡◌, ◌+◌, ◌*◌, length, get_or};
ghost use Rattle.std.specs.Float.{nan};
ghost use Rattle.float.specs.Floats.{◌⊕◌, ◌⊖◌, ◌⊗◌, ◌⊘◌};
ghost use Rattle.lists.specs.Ranges.{table};
ghost use Rattle.eigen_matrix.specs.inner.Rewriting.{Rewriting, Rewrites};

// Each entry becomes f of its place and itself.
pub fn rewrite<F: Fn(usize, f64) -> f64>(row: &mut [f64], f: F)
    requires { Rewriting (F.pre f) (length row.old) }
    ensures { Rewrites (F.post f) row.old row.new }
{
    for c in 0..row.len() {
        row[c] = f(c, row[c]);
    }
}

// The entries of other. (Slices' own `copy_from_slice` calls memmove where it cannot tell that the two lie apart.)
pub fn copy(row: &mut [f64], other: &[f64])
    requires { length row.old ≡ length other.now }
    ensures { row.new ≡ other.now }
{
    rewrite(row, |c, _| other[c]);
}

// row + other.
pub fn add(row: &mut [f64], other: &[f64])
    requires { length other.now ≡ length row.old }
    ensures { row.new ≡ table (length row.old) (λ c. get_or row.old c nan ⊕ get_or other.now c nan) }
{
    rewrite(row, |c, r| r + other[c]);
}

// row + s * other.
pub fn add_multiple(row: &mut [f64], s: f64, other: &[f64])
    requires { length other.now ≡ length row.old }
    ensures { row.new ≡ table (length row.old) (λ c. get_or row.old c nan ⊕ s ⊗ get_or other.now c nan) }
{
    rewrite(row, |c, r| r + s * other[c]);
}

// row / by.
pub fn divide(row: &mut [f64], by: f64)
    ensures { row.new ≡ table (length row.old) (λ c. get_or row.old c nan ⊘ by) }
{
    rewrite(row, |_, r| r / by);
}

// w * d.
pub fn scale(row: &mut [f64], w: f64, d: &[f64])
    requires { length d.now ≡ length row.old }
    ensures { row.new ≡ table (length row.old) (λ c. w ⊗ get_or d.now c nan) }
{
    rewrite(row, |c, _| w * d[c]);
}

// a - b.
pub fn subtract(row: &mut [f64], a: &[f64], b: &[f64])
    requires { (length a.now ≡ length row.old) × (length b.now ≡ length row.old) }
    ensures { row.new ≡ table (length row.old) (λ c. get_or a.now c nan ⊖ get_or b.now c nan) }
{
    rewrite(row, |c, _| a[c] - b[c]);
}
