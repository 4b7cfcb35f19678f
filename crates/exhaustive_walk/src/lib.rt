// Section 6: one walk over all ways that counts the hits of three statistics.
#![tactic(auto)]

pub mod basis;
pub mod hit_counts;
pub mod way_statistics;

ghost use Rattle.std.specs.Prelude.{◌≡◌, length};
ghost use Rattle.exhaustive_ways.specs.inner.Remaining.{onward};
ghost use Rattle.exhaustive_hits.specs.inner.WayHits.{hits_among};
ghost use Rattle.exhaustive_walk.specs.inner.WayStatistics.{HasRoom};
ghost use Rattle.exhaustive_walk.specs.inner.OnBasis.{statistics_on};
ghost use Rattle.exhaustive_walk.specs.inner.Walks.{Walking};

use basis::Basis;
use exhaustive_hits::{Hits, Seen};

// The hits among all ways within the strata `ss`, from way to way. Row s of `counts` has how many of each label are left for stratum s; `way` and `scores`
// lend room.
pub fn walk(
    counts: &mut [u16],
    way: &mut [u16],
    scores: &mut [f64],
    ss: &[u16],
    b: Basis<'_>,
    observed: Seen,
) -> Hits
    requires walking { Walking b.frame b.samples.now ss.now counts.old way.old }
    requires room { HasRoom b.frame (length scores.old) }
    ensures { result ≡ hits_among observed (statistics_on b.entry) (onward b.entry.frame.groups ss.now counts.old 0) }
{
    let g = b.frame.groups;
    let mut hits = Hits {
        location: 0,
        dispersion: 0,
        assignment: 0,
    };
    exhaustive_ways::fill(counts, way, ss, 0, g);
    'ways: loop {
        let more = way_statistics::hits_of_way(scores, b, way, observed);
        hits.location += more.location;
        hits.dispersion += more.dispersion;
        hits.assignment += more.assignment;
        if !exhaustive_ways::next_way(counts, way, ss, g) {
            return hits;
        }
    }
}
