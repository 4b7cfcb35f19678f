// Section 5 of document 01: discriminant scores, `dapc`.
#![tactic(auto)]

pub mod checks;

ghost use Rattle.std.specs.Prelude.{◌≡◌, length};
ghost use Rattle.dapc_discriminant.specs.Outputs.{called};
ghost use Rattle.dapc.specs.Call.{dapc_call};
ghost use Rattle.dapc.specs.inner.Call.{groups_call};
ghost use Rattle.dapc.specs.inner.Scores.{scores_call, Sized, Scorable};

use dapc_discriminant::{Separation, analysis};
use lot_design::{Design, kept};
use outcome::Refusal;

// Each kept sample gets its group, the others none, and the scores are found on the columns that lead.
fn assess(
    out: &mut [f64],
    assigned: &mut [u16],
    x: &[f64],
    columns: usize,
    d: Design,
) -> Result<Separation, Refusal>
    requires { Scorable columns x.now d (length out.old) (length assigned.old) }
    ensures { called result out.new assigned.new ≡ scores_call columns x.now d out.old assigned.old }
{
    let n = d.n;
    let m = d.kept;
    let g = d.groups;
    let ks = d.samples;
    let gs = d.group;
    let mut each = [limits::NONE; limits::MOST_SAMPLES];
    kept::groups::place(&mut each[..n], &ks[..m], &gs[..m]);
    let p = dapc_discriminant::columns_used(columns, m, g);
    analysis::discriminate(out, assigned, x, &each[..n], columns, p, m, g)
}

// Lines 5 and 9 by the design of the labels, and then the scores.
fn analyse(
    out: &mut [f64],
    assigned: &mut [u16],
    x: &[f64],
    columns: usize,
    labels: &[u16],
) -> Result<Separation, Refusal>
    requires { Sized columns x.now labels.now (length out.old) (length assigned.old) }
    ensures { called result out.new assigned.new ≡ groups_call (length labels.now) columns x.now labels.now out.old assigned.old }
{
    let d = lot_design::design_of(labels, None);
    checks::check_groups(columns, d.kept, d.groups)?;
    assess(out, assigned, x, columns, d)
}

// Discriminant scores of n samples, rows of `columns` coordinates, by their labels. `out` gets one value per axis and then the scores, row by row;
// `assigned` the group found for each sample, or none.
pub fn dapc(
    x: &[f64],
    n: usize,
    columns: usize,
    labels: &[u16],
    out: &mut [f64],
    assigned: &mut [u16],
) -> Result<Separation, Refusal>
    ensures { called result out.new assigned.new ≡ dapc_call n columns x.now labels.now out.old assigned.old }
{
    checks::check(x, n, columns, labels.len(), out.len(), assigned.len())?;
    analyse(out, assigned, x, columns, labels)
}
