// A lot that lines 1 to 5 and 8 of the table let pass.
ghost use Rattle.lot.specs.Given.{lot_given};
ghost use Rattle.exhaustive.specs.inner.Passing.{Admits};

use lot::Lot;
use lot_design::Design;

// A lot that the lines let pass, its design, and M.
#[derive(Clone, Copy)]
pub struct Admitted<'a> {
    pub lot: Lot<'a>,
    pub design: Design,
    pub ways: usize,
    ghost admits: { Admits (lot_given lot) design ways },
}
