// Section 6: the hits of three statistics among all ways.
ghost use Rattle.std.specs.Prelude.{◌≡◌, length};
ghost use Rattle.exhaustive_ways.specs.Ways.{ways_of};
ghost use Rattle.exhaustive_ways.specs.inner.Remaining.{HasRows};
ghost use Rattle.exhaustive_hits.specs.inner.WayHits.{hits_among};
ghost use Rattle.exhaustive_walk.specs.inner.WayStatistics.{HasRoom};
ghost use Rattle.exhaustive_walk.specs.inner.OnBasis.{statistics_on};
ghost use Rattle.exhaustive_walk.specs.inner.Walks.{Walkable};

use crate::basis::Basis;
use exhaustive_hits::{Hits, Seen};

// The hits among all ways of the groups `gs` within the strata. `counts` and `scores` lend room.
pub fn count_hits(
    counts: &mut [u16],
    scores: &mut [f64],
    strata: &[u16],
    gs: &[u16],
    b: Basis<'_>,
    observed: Seen,
) -> Hits
    requires ways { Walkable b.frame.n b.frame.groups b.samples.now strata.now gs.now × HasRows b.frame.groups strata.now counts.old }
    requires room { HasRoom b.frame (length scores.old) }
    ensures { result ≡ hits_among observed (statistics_on b.entry) (ways_of b.entry.frame.groups strata.now gs.now) }
{
    let mut way = [0u16; limits::MOST_SAMPLES];
    counts.fill(0);
    exhaustive_ways::fill_counts(strata, gs, b.frame.groups, counts);
    crate::walk(
        counts,
        &mut way[..strata.len()],
        scores,
        strata,
        b,
        observed,
    )
}
