// The input of `lotjudge` (document 01, section 7): frames are read into a lot.
#![tactic(auto)]

pub mod lines;
pub mod pairs;
pub mod reader;

ghost use Rattle.std.specs.Prelude.{◌≡◌, [], ◌≤◌, false, replicate};
ghost use Rattle.judge_frames.specs.inner.Places.{frames_from};
ghost use Rattle.judge_frames.specs.Frames.{sample_in, pair_in, pair_count, several};
ghost use Rattle.judge_frames.specs.Call.{no_numbers, no_distances, read_call, called};
ghost use Rattle.judge_frames.specs.inner.Stages.{OpenedBy, ReachedBy, Sampled, Paired, Room, Cleared, ReadBy};

use outcome::Refusal;
use reader::Frame;

// n, and whether strata are given.
#[derive(Clone, Copy, Debug, PartialEq, Eq)]
pub struct Header {
    pub n: usize,
    pub stratified: bool,
}

// The header, and where the next line starts.
fn read_header(text: &[u8]) -> Option<(Header, usize)>
    ensures { OpenedBy text.now result }
{
    let l = lines::line_at(text, 0);
    let Frame::Header(f) = l.frame? else {
        return None;
    };
    if 32 < f.n {
        return None;
    }
    if 1 < f.flag {
        return None;
    }
    let header = Header {
        n: usize::from(f.n),
        stratified: f.flag == 1,
    };
    Some((header, l.next))
}

// The n samples whose frames start at place from, and where the frames go on; none if one of them is malformed, missing or out of order.
fn read_samples(
    text: &[u8],
    from: usize,
    n: usize,
    labels: &mut [u16],
    strata: &mut [u16],
) -> Option<usize>
    requires { (n ≤ 32) × (labels.old ≡ no_numbers) × (strata.old ≡ no_numbers) }
    ensures { ReachedBy text.now (several sample_in n [] (frames_from text.now from)) (Sampled labels.new strata.new) result }
{
    let mut at = from;
    for k in 0..n {
        let l = lines::line_at(text, at);
        let Frame::Sample(f) = l.frame? else {
            return None;
        };
        if usize::from(f.index) != k {
            return None;
        }
        labels[k] = f.label;
        strata[k] = f.stratum;
        at = l.next;
    }
    Some(at)
}

// The pairs whose frames start at place from, over zeros, and where the frames go on; none if one of them is malformed, missing or repeated.
fn read_pairs(
    text: &[u8],
    from: usize,
    n: usize,
    distances: &mut [f64],
    seen: &mut [bool],
) -> Option<usize>
    requires { (n ≤ 32) × (distances.old ≡ no_distances) × (seen.old ≡ replicate 1024 false) }
    ensures { ReachedBy text.now (several (pair_in n) (pair_count n) [] (frames_from text.now from)) (Paired n distances.new) result }
{
    let mut at = from;
    for k in 0..(n * n - n) / 2 {
        let l = lines::line_at(text, at);
        let Frame::Pair(f) = l.frame? else {
            return None;
        };
        if !pairs::put_pair(f, n, distances, seen) {
            return None;
        }
        at = l.next;
    }
    Some(at)
}

// The lot that the text describes, over zeros.
fn read_over(
    text: &[u8],
    labels: &mut [u16],
    strata: &mut [u16],
    distances: &mut [f64],
    seen: &mut [bool],
) -> Option<Header>
    requires { Cleared labels.old strata.old distances.old × (seen.old ≡ replicate 1024 false) }
    ensures { ReadBy text.now labels.new strata.new distances.new result }
{
    let (header, next) = read_header(text)?;
    let at = read_samples(text, next, header.n, labels, strata)?;
    let last = read_pairs(text, at, header.n, distances, seen)?;
    lines::ends_at(text, last).then_some(header)
}

// All three become zeros.
fn clear_all(labels: &mut [u16], strata: &mut [u16], distances: &mut [f64])
    requires { Room labels.old strata.old distances.old }
    ensures { Cleared labels.new strata.new distances.new }
{
    labels.fill(0);
    strata.fill(0);
    distances.fill(0.0);
}

// The same over any contents; a refusal leaves zeros.
fn read_with(
    text: &[u8],
    labels: &mut [u16],
    strata: &mut [u16],
    distances: &mut [f64],
    seen: &mut [bool],
) -> Result<Header, Refusal>
    requires { Room labels.old strata.old distances.old × (seen.old ≡ replicate 1024 false) }
    ensures { called result labels.new strata.new distances.new ≡ read_call text.now }
{
    clear_all(labels, strata, distances);
    let Some(header) = read_over(text, labels, strata, distances, seen) else {
        clear_all(labels, strata, distances);
        return Err(Refusal::Frame);
    };
    Ok(header)
}

// `read_lot` on slices.
pub fn read_into(
    text: &[u8],
    labels: &mut [u16],
    strata: &mut [u16],
    distances: &mut [f64],
) -> Result<Header, Refusal>
    requires { Room labels.old strata.old distances.old }
    ensures { called result labels.new strata.new distances.new ≡ read_call text.now }
{
    let mut seen = [false; 1024];
    read_with(text, labels, strata, distances, &mut seen)
}

// The lot that the text describes: n labels, n strata and n by n distances, and zeros behind them. A refusal is 12, and leaves zeros.
pub fn read_lot(
    text: &[u8],
    labels: &mut [u16; 32],
    strata: &mut [u16; 32],
    distances: &mut [f64; 1024],
) -> Result<Header, Refusal>
    ensures { called result labels.new strata.new distances.new ≡ read_call text.now }
{
    read_into(text, labels, strata, distances)
}
