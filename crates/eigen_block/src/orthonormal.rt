// A block of b columns of n entries, lent as one slice, made orthonormal, and the first block (section 4 of document 01).
ghost use Rattle.std.specs.Prelude.{◌≡◌, map, ◌+◌, ◌*◌, ◌≤◌, length};
ghost use Rattle.lists.specs.Loops.{in_turn};
ghost use Rattle.lists.specs.Rows.{row, put_row, on_row};
ghost use Rattle.splitmix.specs.SplitMix.{uniform};
ghost use Rattle.eigen_vectors.specs.Vectors.{projected_off, unit};
ghost use Rattle.eigen_block.specs.Orthonormal.{orthonormal, states, first_block};

// ---- Gram-Schmidt

// x without its parts along the first j columns of q, one after the other.
fn project_off_all(x: &mut [f64], q: &[f64], n: usize, j: usize)
    requires { (length x.old ≡ n) × (j * n ≤ length q.now) }
    ensures { x.new ≡ in_turn (λ i. projected_off (row n i q.now)) j x.old }
{
    for i in 0..j {
        eigen_vectors::project_off(x, &q[i * n..i * n + n]);
    }
}

// Column j: of z without its parts along the first j columns of q, and in q at length 1.
fn orthonormalize_column(q: &mut [f64], z: &mut [f64], n: usize, j: usize)
    requires { (j * n + n ≤ length q.old) × (j * n + n ≤ length z.old) }
    ensures { (z.new ≡ on_row n (in_turn (λ i. projected_off (row n i q.old)) j) j z.old)
        × (q.new ≡ put_row n j (unit (row n j z.new)) q.old) }
{
    project_off_all(&mut z[j * n..j * n + n], q, n, j);
    eigen_vectors::put_unit(&mut q[j * n..j * n + n], &z[j * n..j * n + n]);
}

// The block z made orthonormal goes to q. z is worked in.
pub fn orthonormalize(q: &mut [f64], z: &mut [f64], n: usize, b: usize)
    requires { (length q.old ≡ b * n) × (length z.old ≡ b * n) }
    ensures { q.new ≡ orthonormal n b z.old }
{
    for j in 0..b {
        orthonormalize_column(q, z, n, j);
    }
}

// ---- the first block

// Drawn from C0FFEE, entry by entry.
fn draw(z: &mut [f64])
    ensures { z.new ≡ map uniform (states (length z.old) 0xc0ffee) }
{
    let mut s: u64 = 0xc0ffee;
    for x in z.iter_mut() {
        s = splitmix::advance(s);
        *x = splitmix::uniform(s);
    }
}

// The first block goes to q. z is worked in.
pub fn first_block(q: &mut [f64], z: &mut [f64], n: usize, b: usize)
    requires { (length q.old ≡ b * n) × (length z.old ≡ b * n) }
    ensures { q.new ≡ first_block n b }
{
    draw(z);
    orthonormalize(q, z, n, b);
}
