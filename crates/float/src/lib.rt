// Section 1 of document 01: absolute value, the larger of two, finiteness, the sign; the sign of an axis of section 4; and the tolerance of
// sections 6 and 8. The square root is `square_root`.
#![tactic(auto)]

ghost use Rattle.std.specs.Prelude.{◌≡◌, cond};
ghost use Rattle.std.specs.Float.Ieee.Scale.{finite};
ghost use Rattle.float.specs.Floats.{1·0, -1·0};
ghost use Rattle.float.specs.Order.{magnitude, larger, below_zero};
ghost use Rattle.float.specs.Order as Order;
ghost use Rattle.float.specs.Tolerance.{as_large};
ghost use Rattle.float.specs.Tolerance as Tolerance;

// x without its sign; NaN stays NaN.
#[tactic(auto, using(crate::proofs::Library::magnitude_from))]
pub fn abs(x: f64) -> f64
    ensures { result ≡ magnitude x }
{
    x.abs()
}

// The larger of a and b: 0.0 of -0.0 and 0.0, and the number of NaN and a number. (std's `max` may give either zero.)
pub fn max(a: f64, b: f64) -> f64
    ensures { result ≡ larger a b }
{
    if a != a {
        return b;
    }
    if a < b {
        return b;
    }
    if a == 0.0 {
        if b == 0.0 {
            return a + b;
        }
    }
    a
}

// Whether x is a number, and no infinity.
#[tactic(auto, using(crate::proofs::Library::finite_from))]
pub fn is_finite(x: f64) -> bool
    ensures { result ≡ finite x }
{
    x.is_finite()
}

// 1 with the sign of x, also of a zero; NaN of NaN.
#[tactic(auto, using(crate::proofs::Library::signum_from))]
pub fn signum(x: f64) -> f64
    ensures { result ≡ Order.signum x }
{
    x.signum()
}

// -1 where x is below zero, else 1, of both zeros and NaN too. No branch: one minus twice a number that is 1 below zero and else 0.
pub fn axis_sign(x: f64) -> f64
    ensures { result ≡ cond (below_zero x) -1·0 1·0 }
{
    1.0 - 2.0 * ((x < 0.0) as u8 as f64)
}

// F - 1e-12·|F|.
pub fn threshold(f: f64) -> f64
    ensures { result ≡ Tolerance.threshold f }
{
    f - 1e-12 * abs(f)
}

// Whether f2 is as large as f, within the tolerance.
pub fn as_large(f: f64, f2: f64) -> bool
    ensures { result ≡ as_large f f2 }
{
    threshold(f) <= f2
}
