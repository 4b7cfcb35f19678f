// SplitMix64 (sections 4 and 8 of document 01), and an f64 drawn from it.
#![tactic(auto)]

ghost use Rattle.std.specs.Prelude.{◌≡◌};
ghost use Rattle.splitmix.specs.SplitMix.{advance, mix, next, uniform};

// The next state, and its word.
#[derive(Drop)]
pub struct Draw {
    pub state: u64,
    pub word: u64,
}

// The next state.
pub fn advance(s: u64) -> u64
    ensures { result ≡ advance s }
{
    s.wrapping_add(0x9e37_79b9_7f4a_7c15)
}

// The word that a state gives.
pub fn mix(s: u64) -> u64
    ensures { result ≡ mix s }
{
    let a = (s ^ (s >> 30)).wrapping_mul(0xbf58_476d_1ce4_e5b9);
    let b = (a ^ (a >> 27)).wrapping_mul(0x94d0_49bb_1331_11eb);
    b ^ (b >> 31)
}

// One draw: the next state, and its word.
pub fn next(s: u64) -> Draw
    ensures { result ≡ next s }
{
    let state = advance(s);
    let word = mix(state);
    Draw { state, word }
}

// The f64 that a state gives, from -0.5 up to 0.5.
pub fn uniform(s: u64) -> f64
    ensures { result ≡ uniform s }
{
    let w = mix(s) >> 11;
    w as f64 / 9007199254740992.0 - 0.5
}
