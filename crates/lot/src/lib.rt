// Section 2: a lot, its kept samples, groups and strata, and the lines of the table that both tests share: what they mean.
#![tactic(auto)]

ghost use Rattle.std.specs.Prelude.{◌≡◌, ◌<◌, length};
ghost use Rattle.lists.specs.Numbers.{how_many};

// How many samples have the label l. A count of 16 bits in step with the labels: `filter(..).count()`, which counts in 64, made `dapc` of 256 samples twice as long.
pub fn how_many(labels: &[u16], l: u16) -> u16
    requires { length labels.now < 65536 }
    ensures { result ≡ how_many l labels.now }
{
    let mut count: u16 = 0;
    for i in 0..labels.len() {
        if l == labels[i] {
            count += 1;
        }
    }
    count
}

// What the tests are given of n samples: n by n distances row by row, a label for each, and for each a stratum and a weight where they are given.
#[derive(Clone, Copy)]
pub struct Lot<'a> {
    pub n: usize,
    pub distances: &'a [f64],
    pub labels: &'a [u16],
    pub strata: Option<&'a [u16]>,
    pub weights: Option<&'a [f64]>,
}

// How many samples are kept, and how many groups they are in.
#[derive(Drop)]
pub struct Sizes {
    pub kept: usize,
    pub groups: usize,
}

// How many samples are kept, how many groups they are in, and how many strata.
#[derive(Clone, Copy)]
pub struct Shape {
    pub kept: usize,
    pub groups: usize,
    pub strata: usize,
}
