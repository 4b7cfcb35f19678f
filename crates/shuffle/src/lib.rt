// Shuffles of labels within strata (document 01, section 8), drawn from SplitMix64.
#![tactic(auto)]

ghost use Rattle.std.specs.Prelude.{◌≡◌, ◌<◌, length};
ghost use Rattle.lists.specs.Loops.{in_turn};
ghost use Rattle.lists.specs.inner.Numbers.{Below};
ghost use Rattle.grouping.specs.inner.Parts.{part, Parts};
ghost use Rattle.shuffle.specs.Shuffle.{seeded, draw_below, swap_drawn, shuffle_stratum};
ghost use Rattle.shuffle.specs.inner.Shuffle.{shuffling};
ghost use Rattle.shuffle.specs.inner.Parted.{after_shuffle_by};

use grouping::Groups;

// The state that shuffle t starts from.
pub fn seeded(seed: u64, t: u64) -> u64
    ensures { result ≡ seeded seed t }
{
    seed ^ t.wrapping_mul(0xd6e8_feb8_6659_fd93)
}

// A place below the bound: the next word mod the bound.
pub fn draw_below(state: &mut u64, bound: u64) -> usize
    requires { 0 < bound }
    ensures { (state.new ≡ (draw_below state.old bound).state) × (result ≡ (draw_below state.old bound).place) }
{
    let d = splitmix::next(*state);
    *state = d.state;
    (d.word % bound) as usize
}

// One swap: position i of the stratum with (draw mod (i + 1)).
fn swap_drawn(lab: &mut [u16], state: &mut u64, stratum: &[u16], i: usize)
    requires { (i < length stratum.now) × Below (length lab.old) stratum.now }
    ensures { shuffling state.new lab.new ≡ swap_drawn stratum.now i (shuffling state.old lab.old) }
{
    let place = draw_below(state, i as u64 + 1);
    let x = lists::entry(stratum, i);
    let y = lists::entry(stratum, place);
    // Slices' own `swap` first asks which place is the lower: with it a shuffle takes an eighth longer.
    let moved = lab[x];
    lab[x] = lab[y];
    lab[y] = moved;
}

// A stratum, from its last position down.
pub fn shuffle_stratum(lab: &mut [u16], state: &mut u64, stratum: &[u16])
    requires { Below (length lab.old) stratum.now }
    ensures { shuffling state.new lab.new ≡ shuffle_stratum stratum.now (shuffling state.old lab.old) }
{
    for i in (1..stratum.len()).rev() {
        swap_drawn(lab, state, stratum, i);
    }
}

// The labels are shuffled within each of the s strata, upward.
fn shuffle(lab: &mut [u16], state: &mut u64, strata: &Groups, s: usize)
    requires { Parts (length lab.old) s strata.now.starts strata.now.members }
    ensures { shuffling state.new lab.new ≡ in_turn (λ k. shuffle_stratum (part strata.now.starts strata.now.members k)) s (shuffling state.old lab.old) }
{
    for k in 0..s {
        shuffle_stratum(lab, state, strata.part(k));
    }
}

// Shuffle t of the labels `gs` goes to `lab`. Returned is the state that it leaves.
pub fn shuffle_again(
    lab: &mut [u16],
    gs: &[u16],
    strata: &Groups,
    s: usize,
    seed: u64,
    t: u64,
) -> u64
    requires { Parts (length lab.old) s strata.now.starts strata.now.members × (length gs.now ≡ length lab.old) }
    ensures { shuffling result lab.new ≡ after_shuffle_by strata.now.starts strata.now.members s gs.now seed t }
{
    lab.copy_from_slice(gs);
    let mut state = seeded(seed, t);
    shuffle(lab, &mut state, strata, s);
    state
}
