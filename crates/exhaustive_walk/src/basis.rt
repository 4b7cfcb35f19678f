// Section 6: what every way is judged on.
ghost use Rattle.std.specs.Prelude.{length};
ghost use Rattle.exhaustive_walk.specs.inner.WayStatistics.{Prepared};

use crate::way_statistics::Frame;

// What every way is judged on, worked out once: the frame; the terms, weighted squares and weights of the kept samples; the coordinates of all samples; and which
// are kept.
#[derive(Clone, Copy)]
pub struct Basis<'a> {
    pub frame: Frame,
    pub pair_terms: &'a [f64],
    pub weighted_squares: &'a [f64],
    pub weights: &'a [f64],
    pub coords: &'a [f64],
    pub samples: &'a [u16],
    ghost prepared: { Prepared frame (length samples.now) pair_terms.now weighted_squares.now weights.now coords.now samples.now },
}
