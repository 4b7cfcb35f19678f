// Section 6: what is answered over all ways, from what was observed and counted.
ghost use Rattle.std.specs.Prelude.{◌≡◌};
ghost use Rattle.exhaustive_hits.specs.inner.Judgements.{concluded};

use crate::{Hits, Seen};
use permanova_p_values::Statistic;
use permanova_statistics::summary::Summary;

// A statistic of the observed way, and how many ways are its hits.
#[derive(Clone, Copy)]
pub struct Tested<T> {
    pub statistic: T,
    pub hits: usize,
}

// What is answered. Of the warnings only bits 0 to 4 are set.
#[derive(Clone, Copy)]
pub struct Judgement {
    pub summary: Summary,
    // M
    pub ways: usize,
    pub location: Tested<Statistic>,
    pub dispersion: Tested<Statistic>,
    // how many kept samples are found in their own group, and none where `dapc` refuses
    pub assigned: Tested<Option<usize>>,
}

// The three statistics of the observed way, and their hits.
#[derive(Clone, Copy)]
pub struct Counted {
    pub seen: Seen,
    pub hits: Hits,
}

// The answer, from the summary, M and what was counted.
pub fn conclude(summary: Summary, ways: usize, c: Counted) -> Judgement
    ensures { result ≡ concluded summary ways c }
{
    let Counted { seen, hits } = c;
    Judgement {
        summary,
        ways,
        location: Tested {
            statistic: seen.location,
            hits: hits.location,
        },
        dispersion: Tested {
            statistic: seen.dispersion,
            hits: hits.dispersion,
        },
        assigned: Tested {
            statistic: seen.assignment,
            hits: hits.assignment,
        },
    }
}
