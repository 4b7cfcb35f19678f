// Reads replay files (oracle/README.md): words of 64 bits, little endian, and holds answers against them. Writes numbers by their bits.
#![tactic(auto)]

ghost use Rattle.std.specs.Prelude.{◌≤◌, length};

use std::fmt;
use std::io::Read;

// ---- words

// What is left of a record; past its end each word is 0.
#[derive(Clone, Copy)]
pub struct Record<'a> {
    words: &'a [[u8; 8]],
}

impl<'a> Record<'a> {
    pub fn new(bytes: &'a [u8]) -> Record<'a> {
        let (words, _) = bytes.as_chunks::<8>();
        Record { words }
    }

    // Word k of those that are left.
    pub fn word(&self, k: usize) -> u64 {
        self.words.get(k).map_or(0, |w| u64::from_le_bytes(*w))
    }

    // Leaves out k words.
    pub fn skip(&mut self, k: usize) {
        self.words = self.words.get(k..).unwrap_or(&[]);
    }

    // The next word.
    pub fn next(&mut self) -> u64 {
        let w = self.word(0);
        self.skip(1);
        w
    }

    // The next word, if it is at most `most`; `most` otherwise.
    pub fn number(&mut self, most: usize) -> usize
        ensures { result ≤ most }
    {
        self.next().min(most as u64) as usize
    }

    // Each entry is what the next word says.
    pub fn fill<T: Copy, F: Fn(u64) -> T>(&mut self, x: &mut [T], of: F)
        requires { F.IsAlwaysCallable of }
    {
        for to in x {
            *to = of(self.next());
        }
    }

    // Whether the next words are those of the entries.
    pub fn tells<T: Copy, F: Fn(T) -> u64>(&mut self, x: &[T], word_of: F) -> bool
        requires { F.IsAlwaysCallable word_of }
    {
        for y in x {
            if word_of(*y) != self.next() {
                return false;
            }
        }
        true
    }

    // The entries of a matrix of n rows, in the form that stands before them.
    pub fn matrix(&mut self, n: usize, x: &mut [f64]) {
        let form = Form::new(self.next());
        for (t, to) in x.iter_mut().enumerate() {
            *to = form.entry(*self, form.place(n, t));
        }
        self.skip(form.words(n));
    }

    // Whether every entry of a matrix of n rows is that which stands for it, where the entries i <= j stand row by row.
    pub fn tells_upper(&self, n: usize, x: &[f64]) -> bool {
        x.iter()
            .enumerate()
            .all(|(t, y)| pattern(*y) == self.word(upper_place(n, t)))
    }

    // A refusal by number r, as the outcome that comes next.
    pub fn refused(&mut self, r: u8) -> Option<Held> {
        (self.next() != 0 && self.next() == u64::from(r)).then_some(Held::Refusal)
    }
}

// The f64 of a pattern.
pub fn value(w: u64) -> f64 {
    if w % 0x8000_0000_0000_0000 <= 0x7ff0_0000_0000_0000 {
        return f64::from_bits(w);
    }
    f64::NAN
}

// The pattern of an f64; NaNs have one.
pub fn pattern(x: f64) -> u64 {
    if x.is_nan() {
        return 0x7ff8_0000_0000_0000;
    }
    x.to_bits()
}

// An f64 written by its bits, or `nan`.
#[derive(Clone, Copy, Debug)]
pub struct Bits(pub f64);

impl fmt::Display for Bits {
    fn fmt<W: fmt::Write>(&self, f: &mut fmt::Formatter<W>) -> fmt::Result {
        if self.0.is_nan() {
            return write!(f, "nan");
        }
        write!(f, "{:016x}", pattern(self.0))
    }
}

// ---- matrices

// How the entries of a matrix stand: one of each pair that mirror each other, or all; whole, or in 16 bits each, with a scale and an offset before them.
#[derive(Clone, Copy)]
struct Form {
    upper: bool,
    packed: bool,
}

impl Form {
    fn new(form: u64) -> Form {
        Form {
            upper: form % 2 == 1,
            packed: 2 <= form,
        }
    }

    // The place of entry t of all n by n among those that the file has.
    fn place(self, n: usize, t: usize) -> usize {
        if self.upper { upper_place(n, t) } else { t }
    }

    // Entry k of those that stand in r.
    fn entry(self, r: Record, k: usize) -> f64 {
        if !self.packed {
            return value(r.word(k));
        }
        let scale = value(r.word(0));
        let offset = value(r.word(1));
        let w = r.word((k / 4).saturating_add(2));
        let quarter = (w >> (16 * (k % 4))) % 65536;
        (quarter as f64 - offset) * scale
    }

    // How many words they take.
    fn words(self, n: usize) -> usize {
        let all = n.saturating_mul(n);
        let k = if self.upper {
            all.saturating_add(n) / 2
        } else {
            all
        };
        if self.packed {
            (k.saturating_add(3) / 4).saturating_add(2)
        } else {
            k
        }
    }
}

// The place of entry t of all n by n among those of the upper half.
fn upper_place(n: usize, t: usize) -> usize {
    if n == 0 {
        return t;
    }
    let i = (t / n).min(t % n);
    let j = (t / n).max(t % n);
    let whole = i.saturating_mul(n).saturating_add(j);
    whole.saturating_sub(i.saturating_mul(i.saturating_add(1)) / 2)
}

// ---- the file

// The next record goes to the front of b; how many bytes it has, or 0 where there is no room.
pub fn next<R: Read>(file: &mut R, b: &mut [u8]) -> usize
    ensures { result ≤ length b.new }
{
    let mut head = [0u8; 8];
    let _ = file.read_exact(&mut head);
    let k = 8 * Record::new(&head).number(80000);
    let Some(front) = b.get_mut(..k) else {
        return 0;
    };
    let _ = file.read_exact(front);
    k
}

// How many records there are of an operation; 0 where the file is none of its.
pub fn records<R: Read>(file: &mut R, op: u64) -> usize {
    let mut head = [0u8; 32];
    let _ = file.read_exact(&mut head);
    let mut r = Record::new(&head);
    if r.next() != u64::from_le_bytes(*b"replay01") || r.next() != op {
        return 0;
    }
    r.number(1000000)
}

// ---- what came of it

// How an answer is like its record: both answer alike, or both refuse alike.
#[derive(Clone, Copy, Debug, PartialEq, Eq)]
pub enum Held {
    Answer,
    Refusal,
}

// How many of each so far.
#[derive(Clone, Copy, Debug, Default)]
pub struct Tally {
    answers: usize,
    refusals: usize,
    differences: usize,
}

impl Tally {
    // One more record; none where it differs.
    pub fn add(&mut self, h: Option<Held>) {
        let count = match h {
            Some(Held::Answer) => &mut self.answers,
            Some(Held::Refusal) => &mut self.refusals,
            None => &mut self.differences,
        };
        *count = count.saturating_add(1);
    }
}

impl fmt::Display for Tally {
    fn fmt<W: fmt::Write>(&self, f: &mut fmt::Formatter<W>) -> fmt::Result {
        writeln!(f, "  answers alike: {}", self.answers)?;
        writeln!(f, "  refusals alike: {}", self.refusals)?;
        writeln!(f, "  different: {}", self.differences)
    }
}
