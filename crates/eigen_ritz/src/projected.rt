// Section 4 of document 01: the small matrix of a block, for the Rayleigh-Ritz step of `top_eigs`. A block q of b columns of n entries is lent as one
// slice, its product with the matrix as another.
ghost use Rattle.std.specs.Prelude.{◌≡◌, ◌+◌, ◌*◌, ◌<◌, length};
ghost use Rattle.lists.specs.Ranges.{table};
ghost use Rattle.eigen_ritz.specs.Projected.{projected_at, projected_matrix};

// Row i: column i of the block with each column of its product.
fn projected_row(row: &mut [f64], q: &[f64], aq: &[f64], n: usize, b: usize, i: usize)
    requires { (length row.old ≡ b) × (length q.now ≡ b * n) × (length aq.now ≡ b * n) × (i < b) }
    ensures { row.new ≡ table b (projected_at n q.now aq.now i) }
{
    for j in 0..b {
        row[j] = eigen_vectors::dot_rows(q, aq, n, i, j);
    }
}

pub fn fill_projected(t: &mut [f64], q: &[f64], aq: &[f64], n: usize, b: usize)
    requires { (length t.old ≡ b * b) × (length q.now ≡ b * n) × (length aq.now ≡ b * n) }
    ensures { t.new ≡ projected_matrix n b q.now aq.now }
{
    eigen_matrix::fill_rows(t, b, b, |i, row| projected_row(row, q, aq, n, b, i));
}
