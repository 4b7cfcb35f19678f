// Rounds of the block iteration for the largest eigenvalues of a symmetric n by n matrix (section 4 of document 01). A block of b columns is lent as
// one slice.
#![tactic(auto)]

pub mod orthonormal;
pub mod power;

ghost use Rattle.std.specs.Prelude.{◌≡◌, ◌*◌, ◌≤◌, length};
ghost use Rattle.eigen_vectors.specs.Products.{times_block};
ghost use Rattle.eigen_block.specs.Rounds.{block_step, ritz, converged_at, converged, iterate};

use eigen_matrix::entrywise;
use eigen_matrix::square::Square;
use eigen_vectors::products;

// One step of the block q, whose product aq with the matrix is held beside it.
fn block_step(q: &mut [f64], aq: &mut [f64], a: Square<'_>, b: usize, shift: f64)
    requires { (length q.old ≡ b * a.n) × (length aq.old ≡ b * a.n) × (aq.old ≡ times_block a.n a.entries.now b q.old) }
    ensures { (q.new ≡ block_step a.entry.n a.entry.entries.now b shift q.old)
        × (aq.new ≡ times_block a.entry.n a.entry.entries.now b q.new) }
{
    entrywise::add_multiple(aq, shift, q);
    orthonormal::orthonormalize(q, aq, a.n, b);
    products::matvec_block(aq, a, q, b);
}

// Whether the Ritz value r has settled since p.
fn has_settled(r: f64, p: f64) -> bool
    ensures { result ≡ converged_at r p }
{
    float::abs(r - p) <= 1e-10 * float::max(float::abs(r), 1e-12)
}

// The Ritz values take the place of those before; whether all have settled.
fn update_ritz_values(before: &mut [f64], q: &[f64], aq: &[f64], n: usize) -> bool
    requires { (length before.old * n ≤ length q.now) × (length before.old * n ≤ length aq.now) }
    ensures { (before.new ≡ ritz n (length before.old) q.now aq.now)
        × (result ≡ converged before.new before.old) }
{
    let mut settled = true;
    for j in 0..before.len() {
        let r = eigen_vectors::dot_rows(q, aq, n, j, j);
        settled &= has_settled(r, before[j]);
        before[j] = r;
    }
    settled
}

// One round: the block stepped, and whether its Ritz values, as many as before, have settled.
fn round(
    q: &mut [f64],
    aq: &mut [f64],
    before: &mut [f64],
    a: Square<'_>,
    b: usize,
    shift: f64,
) -> bool
    requires { (length q.old ≡ b * a.n) × (length aq.old ≡ b * a.n) × (length before.old ≤ b) × (aq.old ≡ times_block a.n a.entries.now b q.old) }
    ensures { (q.new ≡ block_step a.entry.n a.entry.entries.now b shift q.old)
        × (aq.new ≡ times_block a.entry.n a.entry.entries.now b q.new)
        × (before.new ≡ ritz a.entry.n (length before.old) q.new (times_block a.entry.n a.entry.entries.now b q.new))
        × (result ≡ converged before.new before.old) }
{
    block_step(q, aq, a, b, shift);
    update_ritz_values(before, q, aq, a.n)
}

// At most 3,000 rounds from the block q, whose product aq is held beside it. `before` takes the Ritz values.
pub fn iterate(
    q: &mut [f64],
    aq: &mut [f64],
    before: &mut [f64],
    a: Square<'_>,
    b: usize,
    shift: f64,
)
    requires { (length q.old ≡ b * a.n) × (length aq.old ≡ b * a.n) × (length before.old ≤ b) × (aq.old ≡ times_block a.n a.entries.now b q.old) }
    ensures { (q.new ≡ iterate 3000 a.entry.n a.entry.entries.now b (length before.old) shift before.old q.old)
        × (aq.new ≡ times_block a.entry.n a.entry.entries.now b q.new) }
{
    for _t in 0..3000usize {
        if round(q, aq, before, a, b, shift) {
            return;
        }
    }
}
