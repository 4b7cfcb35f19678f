// Strata of the kept samples, and which of them inform (section 2).
ghost use Rattle.std.specs.Prelude.{◌≡◌, ◌+◌, ◌<◌, ◌≤◌, true, length, get_or, take, is_some};
ghost use Rattle.limits.specs.Limits.{most_samples, none};
ghost use Rattle.float.specs.Floats.{◌⊘◌, num};
ghost use Rattle.lists.specs.inner.Numbers.{Below};
ghost use Rattle.lists.specs.Numbers as numbers;
ghost use Rattle.lot.specs.inner.Filled.{Filled};
ghost use Rattle.lot.specs.inner.Description.{Stratified};
ghost use Rattle.lot.specs.Given.{held_by};
ghost use Rattle.lot.specs.Strata as spec;
ghost use Rattle.lot.specs.inner.Strata.{noted};
ghost use Rattle.lot_design.specs.inner.Told.{Told};

use crate::kept;

// The stratum s joins the first k entries, unless it is none or stands there. Returns how many there are then.
fn note(ns: &mut [u16], k: usize, s: u16) -> usize
    requires { k < length ns.old }
    ensures { Filled (noted (take k ns.old) s) ns.old ns.new result }
{
    if s == limits::NONE || ns[..k].contains(&s) {
        return k;
    }
    ns[k] = s;
    k + 1
}

// The strata that these samples name, by first appearance, go to the front of `ns`. Returns how many they are.
fn fill_named(held: &[u16], ns: &mut [u16]) -> usize
    requires { length held.now ≤ length ns.old }
    ensures { Filled (spec.named held.now) ns.old ns.new result }
{
    let mut k: usize = 0;
    for s in held {
        k = note(ns, k, *s);
    }
    k
}

// What each sample holds gives way to its stratum's number. Returns how many strata there are.
fn number_by(held: &mut [u16], ns: &[u16]) -> usize
    requires { (ns.now ≡ spec.named held.old) × (length held.old < 32768) }
    ensures { (held.new ≡ spec.numbered held.old)
        × (result ≡ length (spec.named held.old) + numbers.how_many none held.old) }
{
    let mut next = ns.len();
    for k in 0..held.len() {
        let s = held[k];
        if s == limits::NONE {
            held[k] = next as u16;
            next += 1;
        } else {
            held[k] = kept::place_of(ns, s) as u16;
        }
    }
    next
}

// The same, with room for the named strata.
fn number_with(held: &mut [u16], ns: &mut [u16]) -> usize
    requires { (length held.old < 32768) × (length held.old ≤ length ns.old) }
    ensures { (held.new ≡ spec.numbered held.old)
        × (result ≡ length (spec.named held.old) + numbers.how_many none held.old) }
{
    let k = fill_named(held, ns);
    number_by(held, &ns[..k])
}

// The same, with room of its own.
fn number(held: &mut [u16]) -> usize
    requires { length held.old ≤ most_samples }
    ensures { (held.new ≡ spec.numbered held.old)
        × (result ≡ length (spec.named held.old) + numbers.how_many none held.old) }
{
    let mut ns = [0u16; limits::MOST_SAMPLES];
    number_with(held, &mut ns)
}

// The stratum of each of the samples `ks` goes to the front of `out`. Returns how many strata there are.
pub fn stratify(given: Option<&[u16]>, ks: &[u16], out: &mut [u16]) -> usize
    requires { (is_some given ≡ true → Below (length (held_by given)) ks.now) × (length ks.now ≤ most_samples) × (length ks.now ≤ length out.old) }
    ensures { Stratified (is_some given.entry) (held_by given.entry) ks.now out.old out.new result }
{
    let m = ks.len();
    match given {
        Some(strata) => {
            kept::gather(strata, ks, out);
            number(&mut out[..m])
        }
        None => {
            out[..m].fill(0);
            1
        }
    }
}

// Whether the stratum of the sample k informs: one of its samples is in another group.
fn informs(ss: &[u16], gs: &[u16], k: usize) -> bool
    requires { (length gs.now ≡ length ss.now) × (k < length ss.now) }
    ensures { result ≡ spec.informs ss.now gs.now (length ss.now) (get_or ss.now k 0) }
{
    let s = ss[k];
    let g = gs[k];
    ss.iter().zip(gs).any(|(t, h)| *t == s && *h != g)
}

// The same, where `told` says it of the sample before k: samples of one stratum in a row are looked at once.
fn informs_too(ss: &[u16], gs: &[u16], k: usize, told: bool) -> bool
    requires { (length gs.now ≡ length ss.now) × (k < length ss.now) × Told ss.now gs.now k told }
    ensures { result ≡ spec.informs ss.now gs.now (length ss.now) (get_or ss.now k 0) }
{
    if 0 < k && ss[k] == ss[k - 1] {
        return told;
    }
    informs(ss, gs, k)
}

// How many samples are in strata that inform.
pub fn informative(ss: &[u16], gs: &[u16]) -> usize
    requires { length gs.now ≡ length ss.now }
    ensures { result ≡ spec.informative ss.now gs.now (length ss.now) }
{
    let mut count: usize = 0;
    let mut told = false;
    for k in 0..ss.len() {
        told = informs_too(ss, gs, k, told);
        if told {
            count += 1;
        }
    }
    count
}

// Their part of the m kept samples.
pub fn fraction(count: usize, m: usize) -> f64
    requires { (count < 65536) × (m < 65536) }
    ensures { result ≡ num count ⊘ num m }
{
    count as f64 / m as f64
}
