// What a statistic says by itself (document 01, sections 6 and 8): finite or unbounded, a hit, a p by cases, warnings, and both tests read together.
#![tactic(auto)]

ghost use Rattle.std.specs.Prelude.{◌≡◌, not, ◌&&◌, ◌<◌, ◌≤◌, max, min, eqb, ltb};
ghost use Rattle.std.specs.Float.Ieee.{lt};
ghost use Rattle.limits.specs.Limits.{most_shuffles};
ghost use Rattle.float.specs.Floats.{0·5};
ghost use Rattle.lists.specs.Filters.{any};
ghost use Rattle.permanova_p_values.specs.Hits as hits;
ghost use Rattle.permanova_p_values.specs.PValues.{p_value};
ghost use Rattle.permanova_p_values.specs.WarningBits.{bit, warning_bits};
ghost use Rattle.permanova_p_values.specs.Together.{largest, smallest, alarmed, together};

// One of each: of the location test, and of the dispersion test.
#[derive(Clone, Copy)]
pub struct Both<T> {
    pub location: T,
    pub dispersion: T,
}

// A statistic: a finite F, or unbounded. No Option: unbounded is not the lack of a statistic, but stands above all others, and a hit of every one.
#[derive(Clone, Copy)]
pub enum Statistic {
    Finite(f64),
    Unbounded,
}

// The statistic that an F is.
#[tactic(auto, unfolding(crate::specs::Hits::statistic))]
pub fn statistic_of(f: f64) -> Statistic
    ensures { result ≡ hits.statistic f }
{
    if float::is_finite(f) {
        Statistic::Finite(f)
    } else {
        Statistic::Unbounded
    }
}

// Whether the F of a shuffle is a hit of the observed statistic. `let .. else`, here and below, is the form that document 01 names.
#[tactic(auto, unfolding(crate::specs::Hits::shuffle_hit))]
pub fn shuffle_hit(observed: Statistic, f: f64) -> bool
    ensures { result ≡ hits.shuffle_hit observed f }
{
    let Statistic::Finite(x) = observed else {
        return false;
    };
    float::as_large(x, f)
}

// Whether the statistic of a way is a hit of the observed one.
#[tactic(auto, unfolding(crate::specs::Hits::hit))]
pub fn hit(observed: Statistic, found: Statistic) -> bool
    ensures { result ≡ hits.hit observed found }
{
    let Statistic::Finite(f) = found else {
        return true;
    };
    let Statistic::Finite(x) = observed else {
        return false;
    };
    float::as_large(x, f)
}

// 1 for a finite F, 0 for an unbounded one: the C arrays' number.
pub fn state_of(s: Statistic) -> u64
    ensures { result ≡ hits.state_of s }
{
    match s {
        Statistic::Finite(_) => 1,
        Statistic::Unbounded => 0,
    }
}

// F, 0 where it is unbounded: the C arrays' value.
pub fn value_of(s: Statistic) -> f64
    ensures { result ≡ hits.value_of s }
{
    match s {
        Statistic::Finite(f) => f,
        Statistic::Unbounded => 0.0,
    }
}

// ---- p

// p = (1 + hits)/(1 + n). None where the strata tell nothing, or the observed statistic is unbounded.
#[tactic(auto, unfolding(crate::specs::PValues::p_value))]
pub fn p_value_of(none: bool, seen: Statistic, hits: usize, n: u64) -> Option<f64>
    requires { (hits ≤ most_shuffles) × (n ≤ most_shuffles) }
    ensures { result ≡ p_value none seen hits n }
{
    match seen {
        Statistic::Finite(_) if !none => Some((1 + hits) as f64 / (1 + n) as f64),
        _ => None,
    }
}

// ---- warnings: bits 0 to 4

// Whether strata are given and none informs.
pub fn uninformed(stratified: bool, informing: usize) -> bool
    ensures { result ≡ (stratified && eqb informing 0) }
{
    stratified && informing == 0
}

// Whether the informative fraction is below 0.5, and some inform.
pub fn few_inform(fraction: f64, informing: usize) -> bool
    ensures { result ≡ (lt fraction 0·5 && not (eqb informing 0)) }
{
    fraction < 0.5 && informing != 0
}

// Whether some group has fewer than 5 samples.
pub fn some_small(sizes: &[u16]) -> bool
    ensures { result ≡ any (λ c. ltb c 5) sizes.now }
{
    sizes.iter().any(|size| *size < 5)
}

// The bit b where it is on.
fn flag(b: u8, on: bool) -> u8
    ensures { result ≡ bit b on }
{
    if on { b } else { 0 }
}

// Bits 0 to 4.
pub fn warning(left: bool, uninformed: bool, few: bool, small: bool, negative: bool) -> u8
    ensures { result ≡ warning_bits left uninformed few small negative }
{
    flag(1, left) + flag(2, uninformed) + flag(4, few) + flag(8, small) + flag(16, negative)
}

// ---- warnings: bits 5 and 6, of both tests together

// The size of the largest group.
fn largest(sizes: &[u16]) -> u16
    ensures { result ≡ largest sizes.now }
{
    sizes.iter().copied().max().unwrap_or(0)
}

// The size of the smallest group.
fn smallest(sizes: &[u16]) -> u16
    ensures { result ≡ smallest sizes.now }
{
    sizes.iter().copied().min().unwrap_or(0)
}

// Bits 5 and 6, of both p.
#[tactic(auto, unfolding(crate::specs::Together::together))]
pub fn together_of(sizes: &[u16], location: Option<f64>, dispersion: Option<f64>) -> u8
    ensures { result ≡ together sizes.now location dispersion }
{
    match (location, dispersion) {
        (Some(p), Some(q)) => alarm(p, q, largest(sizes), smallest(sizes)),
        _ => 0,
    }
}

// Bits 5 and 6, of both p and the sizes of the largest and the smallest group.
#[tactic(auto, unfolding(crate::specs::Together::alarmed))]
fn alarm(p: f64, q: f64, most: u16, least: u16) -> u8
    ensures { result ≡ alarmed p q most least }
{
    if p < 0.05 && q < 0.05 {
        return 32;
    }
    flag(64, p < 0.05 && most as f64 >= 3.0 * least as f64 && q < 0.2)
}
