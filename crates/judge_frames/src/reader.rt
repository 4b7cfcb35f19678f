// A line of the input of `lotjudge` (document 01, section 7): hexadecimal digits, the frame reader, and the line's frame.
ghost use Rattle.std.specs.Prelude.{◌≡◌, ◌<◌, ◌≤◌, ◌^◌, length, IfSome};
ghost use Rattle.judge_frames.specs.Hex.{nibble, spelled, field_at};
ghost use Rattle.judge_frames.specs.inner.Reader.{moved};
ghost use Rattle.judge_frames.specs.Frame.{opening, sample, pair, frame};

// ---- the covered core: hexadecimal digits on a plain slice

// The value of a digit of either case.
fn nibble_of(c: u8) -> Option<u64>
    ensures value { result ≡ nibble c }
    ensures fits { IfSome result (λ d. d < 16) }
{
    match c {
        b'0'..=b'9' => Some(u64::from(c - b'0')),
        b'A'..=b'F' => Some(u64::from(c - b'A' + 10)),
        b'a'..=b'f' => Some(u64::from(c - b'a' + 10)),
        _ => None,
    }
}

// The number that digits spell, at most 16 of them.
fn spelled(digits: &[u8]) -> Option<u64>
    requires { length digits.now ≤ 16 }
    ensures value { result ≡ spelled 0 digits.now }
    ensures fits { IfSome result (λ v. v < 16 ^ length digits.now) }
{
    let mut v = 0;
    for c in digits {
        v = v * 16 + nibble_of(*c)?;
    }
    Some(v)
}

// The number in the count digits from place at on.
pub fn digits_at(line: &[u8], at: usize, count: usize) -> Option<u64>
    ensures value { result ≡ field_at line.now at count }
    ensures fits { IfSome result (λ v. v < 16 ^ count) }
{
    if 16 < count || line.len() < count || line.len() - count < at {
        return None;
    }
    spelled(&line[at..at + count])
}

// ---- the frame reader: it holds the line and its position, and leaves the work to `digits_at`

#[derive(Clone, Copy)]
pub struct FrameReader<'a> {
    pub line: &'a [u8],
    pub at: usize,
}

impl<'a> FrameReader<'a> {
    // At the line's start.
    pub fn new(line: &'a [u8]) -> FrameReader<'a>
        ensures { result ≡ record { line = line.entry; at = 0 } }
    {
        FrameReader { line, at: 0 }
    }

    // The number in the next count digits; the reader moves past them, or to the line's end where that comes first.
    pub fn next(&mut self, count: usize) -> Option<u64>
        ensures value { result ≡ field_at self.old.line.now self.old.at count }
        ensures moved { self.new ≡ moved self.old count }
        ensures fits { IfSome result (λ v. v < 16 ^ count) }
    {
        let field = digits_at(self.line, self.at, count);
        self.at = self.at.saturating_add(count).min(self.line.len());
        field
    }
}

// ---- one line

// `a1`: n, and whether strata are given.
#[derive(Clone, Copy, Debug, PartialEq, Eq)]
pub struct Opening {
    pub n: u8,
    pub flag: u8,
}

// `a2`: a sample's label and stratum.
#[derive(Clone, Copy, Debug, PartialEq, Eq)]
pub struct Sample {
    pub index: u8,
    pub label: u16,
    pub stratum: u16,
}

// `a3`: two samples, and the bits of their distance.
#[derive(Clone, Copy, Debug, PartialEq, Eq)]
pub struct Pair {
    pub i: u8,
    pub j: u8,
    pub bits: u64,
}

// A line's frame, by its kind.
#[derive(Clone, Copy, Debug, PartialEq, Eq)]
pub enum Frame {
    Header(Opening),
    Sample(Sample),
    Pair(Pair),
    End,
}

// The frame of a line whose kind the reader has passed, by its numbers.
#[tactic(auto, unfolding(crate::specs::Frame::opening))]
fn opening_on(mut r: FrameReader) -> Option<Frame>
    requires { (r.at ≡ 2) × (length r.line.now ≡ 6) }
    ensures { result ≡ opening r.entry.line.now }
{
    let n = r.next(2)?;
    let flag = r.next(2)?;
    Some(Frame::Header(Opening {
        n: n as u8,
        flag: flag as u8,
    }))
}

#[tactic(auto, unfolding(crate::specs::Frame::sample))]
fn sample_on(mut r: FrameReader) -> Option<Frame>
    requires { (r.at ≡ 2) × (length r.line.now ≡ 12) }
    ensures { result ≡ sample r.entry.line.now }
{
    let index = r.next(2)?;
    let label = r.next(4)?;
    let stratum = r.next(4)?;
    Some(Frame::Sample(Sample {
        index: index as u8,
        label: label as u16,
        stratum: stratum as u16,
    }))
}

#[tactic(auto, unfolding(crate::specs::Frame::pair))]
fn pair_on(mut r: FrameReader) -> Option<Frame>
    requires { (r.at ≡ 2) × (length r.line.now ≡ 22) }
    ensures { result ≡ pair r.entry.line.now }
{
    let i = r.next(2)?;
    let j = r.next(2)?;
    let bits = r.next(16)?;
    Some(Frame::Pair(Pair {
        i: i as u8,
        j: j as u8,
        bits,
    }))
}

// The line's frame.
#[tactic(auto, unfolding(crate::specs::Frame::frame, crate::specs::Frame::of_kind))]
pub fn parse(line: &[u8]) -> Option<Frame>
    ensures { result ≡ frame line.now }
{
    let mut r = FrameReader::new(line);
    match r.next(2)? {
        0xa1 if line.len() == 6 => opening_on(r),
        0xa2 if line.len() == 12 => sample_on(r),
        0xa3 if line.len() == 22 => pair_on(r),
        0xaf if line.len() == 2 => Some(Frame::End),
        _ => None,
    }
}
