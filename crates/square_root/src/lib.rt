// Section 1 of document 01: the square root of an f64, correctly rounded.
#![tactic(auto)]

ghost use Rattle.std.specs.Prelude.{◌≡◌};
ghost use Rattle.square_root.specs.Root.{root};

// The f64 nearest to the root of x (`NearestRoot`). A zero gives itself, a number below zero NaN: the NaN that has no sign, which std's own would have.
pub fn sqrt(x: f64) -> f64
    ensures { result ≡ root x }
{
    if 0.0 <= x { x.sqrt() } else { 0.0 / 0.0 }
}
