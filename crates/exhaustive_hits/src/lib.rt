// Section 6: the statistics of a way, and which of the observed ones they are hits of.
#![tactic(auto)]

pub mod judgement;

ghost use Rattle.std.specs.Prelude.{◌≡◌};
ghost use Rattle.exhaustive_hits.specs.WayHits.{as_right};
ghost use Rattle.exhaustive_hits.specs.inner.WayHits.{hits_of};

use permanova_p_values::Statistic;

// What is observed. The assignment is how many kept samples were found to be in their own group, and none where `dapc` refuses.
#[derive(Clone, Copy)]
pub struct Seen {
    pub location: Statistic,
    pub dispersion: Statistic,
    pub assignment: Option<usize>,
}

// How many ways are hits of each.
#[derive(Clone, Copy)]
pub struct Hits {
    pub location: usize,
    pub dispersion: usize,
    pub assignment: usize,
}

// Whether a way's assignment is a hit of the observed one.
#[tactic(auto, unfolding(crate::specs::WayHits::as_right))]
fn as_right(observed: Option<usize>, found: Option<usize>) -> bool
    ensures { result ≡ as_right observed found }
{
    match (observed, found) {
        (Some(seen), Some(right)) => seen <= right,
        _ => false,
    }
}

// Which of the three that were observed a way's own are hits of: 1 for each.
#[tactic(auto, unfolding(crate::specs::inner::WayHits::hits_of))]
pub fn hits_of(observed: Seen, found: Seen) -> Hits
    ensures { result ≡ hits_of observed found }
{
    Hits {
        location: usize::from(permanova_p_values::hit(observed.location, found.location)),
        dispersion: usize::from(permanova_p_values::hit(observed.dispersion, found.dispersion)),
        assignment: usize::from(as_right(observed.assignment, found.assignment)),
    }
}
