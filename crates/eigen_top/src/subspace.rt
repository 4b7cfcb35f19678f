// Section 4 of document 01: the eigenpairs of the largest values above n = 64, by a block of b columns.
ghost use Rattle.std.specs.Prelude.{◌≡◌, ◌+◌, ◌*◌, ◌≤◌, length, replicate};
ghost use Rattle.limits.specs.Limits.{most_components, most_samples};
ghost use Rattle.float.specs.Floats.{zero⁺};
ghost use Rattle.eigen_vectors.specs.Products.{times_block};
ghost use Rattle.eigen_block.specs.Orthonormal.{first_block};
ghost use Rattle.eigen_ritz.specs.inner.Given.{given, gives};
ghost use Rattle.eigen_top.specs.Subspace.{shift_of, last_block, by_block};

use eigen_block::{orthonormal, power};
use eigen_matrix::entrywise;
use eigen_matrix::square::Square;
use eigen_vectors::products;
use outcome::Refusal;

// The first block goes to q; the shift is returned. z, x and y are work.
fn prepare(
    q: &mut [f64],
    z: &mut [f64],
    x: &mut [f64],
    y: &mut [f64],
    a: Square<'_>,
    b: usize,
) -> f64
    requires { (length q.old ≡ b * a.n) × (length z.old ≡ b * a.n) × (length x.old ≡ a.n) × (length y.old ≡ a.n) × (a.n ≤ b * a.n) }
    ensures { (q.new ≡ first_block a.entry.n b) × (result ≡ shift_of a.entry.n a.entry.entries.now (first_block a.entry.n b)) }
{
    orthonormal::first_block(q, z, a.n, b);
    entrywise::copy(x, &q[..a.n]);
    power::power_bound(x, y, a) * 1.05
}

// The block at the end of the rounds goes to q, its product to aq. `before` takes the Ritz values that are watched; x and y are work.
fn find_last_block(
    q: &mut [f64],
    aq: &mut [f64],
    before: &mut [f64],
    x: &mut [f64],
    y: &mut [f64],
    a: Square<'_>,
    b: usize,
    k: usize,
)
    requires q_len { (length q.old ≡ b * a.n) × (length aq.old ≡ b * a.n) × (before.old ≡ replicate k zero⁺) × (length x.old ≡ a.n) × (length y.old ≡ a.n) }
    requires b_room { (a.n ≤ b * a.n) × (k ≤ b) }
    ensures { (q.new ≡ last_block k b a.entry.n a.entry.entries.now) × (aq.new ≡ times_block a.entry.n a.entry.entries.now b q.new) }
{
    let shift = prepare(q, aq, x, y, a, b);
    products::matvec_block(aq, a, q, b);
    eigen_block::iterate(q, aq, before, a, b, shift);
}

// The same with room of its own.
fn last_block(q: &mut [f64], aq: &mut [f64], a: Square<'_>, b: usize, k: usize)
    requires { (length q.old ≡ b * a.n) × (length aq.old ≡ b * a.n) × (a.n ≤ b * a.n) × (k ≤ b) × (a.n ≤ most_samples) × (k ≤ most_components) }
    ensures { (q.new ≡ last_block k b a.entry.n a.entry.entries.now) × (aq.new ≡ times_block a.entry.n a.entry.entries.now b q.new) }
{
    let mut before = [0.0; 16];
    let mut x = [0.0; limits::MOST_SAMPLES];
    let mut y = [0.0; limits::MOST_SAMPLES];
    find_last_block(
        q,
        aq,
        &mut before[..k],
        &mut x[..a.n],
        &mut y[..a.n],
        a,
        b,
        k,
    );
}

// The first k pairs that the last block tells.
pub fn by_block(
    out: &mut [f64],
    q: &mut [f64],
    aq: &mut [f64],
    a: Square<'_>,
    b: usize,
    k: usize,
) -> Result<(), Refusal>
    requires out_len { (length out.old ≡ k + k * a.n) × (length q.old ≡ b * a.n) × (length aq.old ≡ b * a.n) × (a.n ≤ b * a.n) × (a.n ≤ most_samples) }
    requires k_le_b { (k ≤ b) × (k ≤ most_components) × (b ≤ 24) }
    ensures { given k result out.new ≡ gives k a.entry.n (by_block k b a.entry.n a.entry.entries.now) out.old }
{
    last_block(q, aq, a, b, k);
    eigen_ritz::rayleigh_ritz(out, q, aq, a.n, b, k)
}
