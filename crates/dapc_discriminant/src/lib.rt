// Section 5 of document 01: discriminant scores: what is answered, and the columns and axes that are used.
#![tactic(auto)]

pub mod allocation;
pub mod analysis;

ghost use Rattle.std.specs.Prelude.{◌≡◌, ◌+◌, ◌*◌, ◌≤◌, length, replicate};
ghost use Rattle.float.specs.Floats.{zero⁺};
ghost use Rattle.lists.specs.Writes.{over};
ghost use Rattle.outcome.specs.Numbers.{number};
ghost use Rattle.dapc_discriminant.specs.Dapc.{columns_used, axes_of};
ghost use Rattle.dapc_discriminant.specs.Outputs.{called};
ghost use Rattle.dapc_discriminant.specs.inner.Outputs.{refusal};

use outcome::Refusal;

// What the scores tell: the columns used, the axes, and how many samples were found to be in their own group.
#[derive(Clone, Copy)]
pub struct Separation {
    pub columns: usize,
    pub axes: usize,
    pub right: usize,
}

// ---- the outputs

// The refusal r, by which the first part of both outputs becomes zero.
pub fn refuse(
    out: &mut [f64],
    assigned: &mut [u16],
    n: usize,
    axes: usize,
    r: Refusal,
) -> Result<Separation, Refusal>
    requires { (axes + n * axes ≤ length out.old) × (n ≤ length assigned.old) }
    ensures { called result out.new assigned.new ≡ refusal (number r) (over (replicate (axes + n * axes) zero⁺) out.old) (over (replicate n 0) assigned.old) }
{
    out[..axes + n * axes].fill(0.0);
    assigned[..n].fill(0);
    Err(r)
}

// ---- from the coordinates

// How many axes there are.
pub fn axes_of(g: usize, p: usize) -> usize
    requires { 2 ≤ g }
    ensures { result ≡ axes_of g p }
{
    (g - 1).min(p)
}

// ---- the lines of the table

// How many columns lead.
pub fn columns_used(columns: usize, m: usize, g: usize) -> usize
    ensures { result ≡ columns_used columns m g }
{
    columns.min(m.saturating_sub(g).saturating_sub(1))
}
