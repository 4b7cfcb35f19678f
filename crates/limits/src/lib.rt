// The limits of documents 01 and 02, once for all code. Each is the number of the same name in specs/.
#![tactic(auto)]

// Samples in a lot.
pub const MOST_SAMPLES: usize = 256;
// Shuffles of the sampled test.
pub const MOST_SHUFFLES: u64 = 999999;
// Components of an ordination, and those of the exhaustive test's.
pub const MOST_COMPONENTS: usize = 16;

pub const JUDGED_COMPONENTS: usize = 8;
// Values and shares of the latter.
pub const JUDGED_VALUES: usize = 16;
// Columns of coordinates.
pub const MOST_COLUMNS: usize = 16;
// Hashes given, and hashes selected.
pub const MOST_HASHES: usize = 65536;

pub const MOST_SELECTED: usize = 1024;
// Words of 64 bits that hold a bit for each selected hash.
pub const SELECTED_WORDS: usize = MOST_SELECTED / 64;
// Ways of the labels, and what stands for every number above.
pub const MOST_WAYS: usize = 20000;

pub const ABOVE_MOST_WAYS: usize = MOST_WAYS + 1;
// No label, no stratum, no group.
pub const NONE: u16 = 65535;
// Bytes of a text that describes a lot, and bytes that are printed.
pub const MOST_TEXT: usize = 11834;

pub const MOST_PRINTED: usize = 93;
// The byte that ends a line.
pub const LINE_FEED: u8 = 10;
