// What both tests tell of a lot beside their statistics: kept samples, groups, r2, the informative fraction, warnings (document 01, sections 2 and 8).
ghost use Rattle.std.specs.Prelude.{◌≡◌, ◌≤◌};
ghost use Rattle.lot.specs.Lot.{Lot};
ghost use Rattle.permanova_statistics.specs.Warnings.{sizes_of};
ghost use Rattle.lot_design.specs.inner.Designs.{Describes, Sound};
ghost use Rattle.permanova_statistics.specs.inner.Observed.{observed_of};
ghost use Rattle.permanova_statistics.specs.Summaries.{summary_of};

use crate::observation::Observed;
use lot_design::{Design, strata};

#[derive(Clone, Copy)]
pub struct Summary {
    // kept samples and groups
    pub n: usize,
    pub n_groups: usize,
    // the share of the total that the labels explain
    pub r2: f64,
    // the share of the samples in strata that inform
    pub informative_fraction: f64,
    // bits 0 to 6
    pub warnings: u8,
}

// The summary of the lot that a design describes, from what was observed of it. `counts` are the groups' sizes, `more` the bits above bit 4.
pub fn summarise(d: Design, o: Observed, counts: &[u16], more: u8) -> Summary
    requires { Sound d × (more ≤ 96) }
    ensures { (lot : Lot) → Describes lot d → o ≡ observed_of lot → counts.now ≡ sizes_of lot → result ≡ summary_of lot more }
{
    let fraction = strata::fraction(d.informing, d.kept);
    let none = permanova_p_values::uninformed(d.stratified, d.informing);
    let few = permanova_p_values::few_inform(fraction, d.informing);
    let small = permanova_p_values::some_small(counts);
    let bits = permanova_p_values::warning(d.left_out, none, few, small, o.negative);
    Summary {
        n: d.kept,
        n_groups: d.groups,
        r2: o.r2,
        informative_fraction: fraction,
        warnings: bits + more,
    }
}
