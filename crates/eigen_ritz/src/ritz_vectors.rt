// Section 4 of document 01: the eigenvectors of a block's small matrix turned back into vectors of n entries.
ghost use Rattle.std.specs.Prelude.{◌≡◌, ◌++◌, ◌+◌, ◌*◌, ◌<◌, ◌≤◌, length, take, drop};
ghost use Rattle.lists.specs.Ranges.{table};
ghost use Rattle.eigen_ritz.specs.RitzVectors.{ritz_vector_at, ritz_vectors};

use eigen_matrix::entrywise;

// Entry i of the sum of the block's columns, each times its entry in row j of v.
fn combine_at(v: &[f64], q: &[f64], n: usize, b: usize, j: usize, i: usize) -> f64
    requires { (length v.now ≡ b * b) × (length q.now ≡ b * n) × (j < b) × (i < n) }
    ensures { result ≡ ritz_vector_at n b v.now q.now j i }
{
    let mut s = -0.0;
    for c in 0..b {
        s = s + v[j * b + c] * q[c * n + i];
    }
    s
}

fn combine_row(row: &mut [f64], v: &[f64], q: &[f64], n: usize, b: usize, j: usize)
    requires { (length row.old ≡ n) × (length v.now ≡ b * b) × (length q.now ≡ b * n) × (j < b) }
    ensures { row.new ≡ table n (ritz_vector_at n b v.now q.now j) }
{
    for i in 0..n {
        row[i] = combine_at(v, q, n, b, j, i);
    }
}

fn combine(out: &mut [f64], v: &[f64], q: &[f64], n: usize, b: usize, k: usize)
    requires { (length out.old ≡ k * n) × (length v.now ≡ b * b) × (length q.now ≡ b * n) × (k ≤ b) }
    ensures { out.new ≡ ritz_vectors n b k v.now q.now }
{
    eigen_matrix::fill_rows(out, k, n, |j, row| combine_row(row, v, q, n, b, j));
}

// The first k of the small matrix's eigenpairs: the values, and the vectors turned back.
pub fn turn_back(out: &mut [f64], pairs: &[f64], q: &[f64], n: usize, b: usize, k: usize)
    requires { (length out.old ≡ k + k * n) × (length pairs.now ≡ b + b * b) × (length q.now ≡ b * n) × (k ≤ b) }
    ensures { out.new ≡ take k pairs.now ++ ritz_vectors n b k (drop b pairs.now) q.now }
{
    entrywise::copy(&mut out[..k], &pairs[..k]);
    combine(&mut out[k..], &pairs[b..], q, n, b, k);
}
