// Section 5: means of groups of samples, the scatter within and between the groups, and the ridge.
ghost use Rattle.std.specs.Prelude.{◌≡◌, length};
ghost use Rattle.dapc_scatter.specs.Means.{grouped};
ghost use Rattle.dapc_scatter.specs.inner.Moments.{Cleared, Filled};

use crate::means;
use crate::samples::{Leading, Samples};

// The mean of each leading column, the count of each group, the scatter within groups with its ridge, and that between groups. All four begin as
// zeros, the mean's of -0.0.
pub fn fill(mean: &mut [f64], counts: &mut [u16], sw: &mut [f64], sb: &mut [f64], samples: Samples)
    requires { Cleared samples.sizes mean.old counts.old sw.old sb.old × (samples.sizes.kept ≡ length (grouped samples.groups.now)) }
    ensures { let s = samples.entry in Filled s.sizes s.x.now s.groups.now mean.new counts.new sw.new sb.new }
{
    let p = samples.sizes.lead;
    let g = samples.sizes.groups;
    let k = g * p;
    let leading = Leading {
        x: samples.x,
        groups: samples.groups,
        columns: samples.sizes.columns,
        lead: p,
    };
    let mut mu = [0.0; 2048];
    let mut d = [0.0; 16];
    let mut s = [0.0; 16];
    means::fill_mean(mean, leading, samples.sizes.kept);
    means::fill_group_means(&mut mu[..k], counts, leading, g);
    crate::fill_scatter(
        sw,
        sb,
        &mut d[..p],
        &mut s[..p],
        leading,
        g,
        &mu[..k],
        mean,
        counts,
    );
}
