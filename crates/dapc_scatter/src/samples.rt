// Section 5: coordinates of samples, and the group of each.
ghost use Rattle.std.specs.Prelude.{◌≡◌, ◌*◌, ◌<◌, ◌≤◌, length, get_or, MatchOption};
ghost use Rattle.limits.specs.Limits.{most_columns, most_samples, none};
ghost use Rattle.dapc_scatter.specs.inner.Means.{Numbered};

// The sizes of an analysis: the columns of the coordinates and how many of them lead, the axes of the scores, the samples that have a group, the groups.
#[derive(Clone, Copy)]
pub struct Dimensions {
    pub columns: usize,
    pub lead: usize,
    pub axes: usize,
    pub kept: usize,
    pub groups: usize,
}

// The leading columns of the coordinates of samples, row by row, and the group of each sample, or none.
#[derive(Clone, Copy)]
pub struct Leading<'a> {
    pub x: &'a [f64],
    pub groups: &'a [u16],
    pub columns: usize,
    pub lead: usize,
    pub ghost coordinates: { length x.now ≡ length groups.now * columns },
    pub ghost leads: { lead ≤ columns },
}

impl<'a> Leading<'a> {
    // The group of sample i, if it has one.
    pub fn group(self, i: usize) -> Option<usize>
        requires { i < length self.groups.now }
        ensures { MatchOption result (get_or self.entry.groups.now i 0 ≡ none) (λ j. (j ≡ get_or self.entry.groups.now i 0) × (j ≡ none → ⊥)) }
    {
        let j = self.groups[i];
        if j != limits::NONE {
            return Some(usize::from(j));
        }
        None
    }
}

// Coordinates of samples, row by row, and the number of each sample's group, or none.
#[derive(Clone, Copy)]
pub struct Samples<'a> {
    pub x: &'a [f64],
    pub groups: &'a [u16],
    pub sizes: Dimensions,
    pub ghost coordinates: { length x.now ≡ length groups.now * sizes.columns },
    pub ghost leads: { sizes.lead ≤ sizes.columns },
    pub ghost narrow: { sizes.lead ≤ most_columns },
    pub ghost two: { 2 ≤ sizes.groups },
    pub ghost most: { sizes.groups ≤ 128 },
    pub ghost few: { length groups.now ≤ most_samples },
    pub ghost numbered: { Numbered sizes.groups groups.now },
}

impl<'a> Samples<'a> {
    // The group of sample i, if it has one.
    pub fn group(self, i: usize) -> Option<usize>
        requires { i < length self.groups.now }
        ensures { MatchOption result (get_or self.entry.groups.now i 0 ≡ none) (λ j. (j ≡ get_or self.entry.groups.now i 0) × (j < self.entry.sizes.groups)) }
    {
        let j = self.groups[i];
        if j == limits::NONE {
            return None;
        }
        Some(usize::from(j))
    }
}
