// The published vectors of SplitMix64: the first five words from seed 1234567 in decimal, and the first word from seed 0 in hexadecimal.

pub fn run(rt: &impl Print) {
    let mut state = 1234567;
    for _ in 0..5 {
        let d = splitmix::next(state);
        let _ = println!(rt; "{}", d.word);
        state = d.state;
    }
    let _ = println!(rt; "{:016x}", splitmix::next(0).word);
}
