// Numbers and lists written, and what a slice holds that was 7 at first.
use replay::Bits;

// A write that fails is passed over.
pub fn put(rt: &impl Print, text: &str) {
    let _ = rt.print(text);
}

// A line of numbers.
pub fn show(rt: &impl Print, s: &[f64]) {
    for x in s {
        let _ = print!(rt; " {}", Bits(*x));
    }
    put(rt, "\n");
}

// Whether every entry is x.
pub fn all_are<T: Copy + PartialEq>(s: &[T], x: T) -> bool {
    s.iter().all(|y| *y == x)
}
