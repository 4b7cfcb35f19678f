// The columns of the matrix, and a hash looked up among them.
ghost use Rattle.std.specs.Prelude.{◌≡◌, ◌-◌, ◌<◌, ◌≤◌, true, false, length, slice_index, Option};
ghost use Rattle.ordination_hashes.specs.inner.Columns.{column_at};
ghost use Rattle.ordination_hashes.specs.inner.Stretches.{Climbs, Cut};

// Hashes that go upward, and the means of the columns. Two slices, since the search reads hashes alone. `starts`, which is lent, and `shift` are hints where to look:
// a part is told by ten bits of a hash, from bit `shift` on, and entry p of `starts` is how many hashes come before part p. No proof says so, and none needs it.
#[derive(Drop)]
pub struct Columns<'a> {
    pub hashes: &'a [u64],
    pub means: &'a [f64],
    starts: &'a [u16; 1025],
    shift: u32,
    pub ghost climbs: { Climbs hashes.now },
}

// The part of a hash.
fn part_of(h: u64, shift: u32) -> usize
    ensures { result < 1024 }
{
    (h.wrapping_shr(shift) % 1024) as usize
}

// The place of the highest ten bits of the last hash.
fn shift_of(hashes: &[u64]) -> u32 {
    match hashes.last() {
        Some(h) => 54u32.saturating_sub(h.leading_zeros()),
        None => 0,
    }
}

// How many hashes in front come before part p.
fn before(hashes: &[u64], shift: u32, p: usize) -> usize
    ensures { result ≤ length hashes.now }
{
    hashes
        .iter()
        .take_while(|h| part_of(**h, shift) < p)
        .count()
}

// The first entries of the hints, for hashes that go upward.
fn fill_starts(starts: &mut [u16; 1025], hashes: &[u64], shift: u32) {
    let mut i = 0;
    for p in 0..1025 {
        i += before(&hashes[i..], shift, p);
        starts[p] = (i % 65536) as u16;
    }
}

// Whether the hashes before place `from` are below h, and those from place `to` on are not.
fn encloses(hashes: &[u64], from: usize, to: usize, h: u64) -> bool
    ensures { result ≡ true → (from ≤ to) × (to ≤ length hashes.now)
        × (0 < from → slice_index hashes.now (from - 1) < h) × (to < length hashes.now → h ≤ slice_index hashes.now to) }
{
    from <= to
        && to <= hashes.len()
        && (from == 0 || hashes[from - 1] < h)
        && (to == hashes.len() || h <= hashes[to])
}

// k, or 0.
fn only_if(b: bool, k: usize) -> usize
    ensures { (b ≡ true → result ≡ k) × (b ≡ false → result ≡ 0) }
{
    if b { k } else { 0 }
}

// How many of the hashes, which go upward, are below h. It is looked for from one place up to another. Each turn halves what is left, whichever half it is.
// `partition_point` in its place took up to a third more time a hash.
fn below(hashes: &[u64], from: usize, to: usize, h: u64) -> usize
    requires climbs { Climbs hashes.now × (from ≤ to) × (to ≤ length hashes.now) }
    requires from_bound { (0 < from → slice_index hashes.now (from - 1) < h) × (to < length hashes.now → h ≤ slice_index hashes.now to) }
    ensures { Cut h hashes.now result }
{
    let mut lo = from;
    let mut left = to - from;
    while left > 0 {
        let half = left - left / 2;
        lo += only_if(hashes[lo + half - 1] < h, half);
        left /= 2;
    }
    lo
}

impl<'a> Columns<'a> {
    // The columns of these hashes. `starts` lends room for the hints.
    pub fn new(hashes: &'a [u64], means: &'a [f64], starts: &'a mut [u16; 1025]) -> Columns<'a>
        requires { Climbs hashes.now }
        ensures { (result.hashes.now ≡ hashes.now) × (result.means.now ≡ means.now) }
    {
        let shift = shift_of(hashes);
        fill_starts(starts, hashes, shift);
        Columns {
            hashes,
            means,
            starts,
            shift,
        }
    }

    // How many of the hashes are below h, by the hints: where they mislead, among all.
    fn place(&self, h: u64) -> usize
        ensures { Cut h self.now.hashes.now result }
    {
        let p = part_of(h, self.shift);
        let from = usize::from(self.starts[p]);
        let to = usize::from(self.starts[p + 1]);
        if encloses(self.hashes, from, to, h) {
            below(self.hashes, from, to, h)
        } else {
            below(self.hashes, 0, self.hashes.len(), h)
        }
    }

    // The column of a hash, if it is one of them: right by any hints, and quick by those of `fill_starts`.
    pub fn find(&self, h: u64) -> Option<usize>
        ensures { result ≡ column_at self.now.hashes.now h }
    {
        let i = self.place(h);
        if i < self.hashes.len() && self.hashes[i] == h {
            Some(i)
        } else {
            None
        }
    }
}
