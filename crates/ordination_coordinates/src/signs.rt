// Section 4 of document 01: the sign of each component, which makes the entry of largest magnitude positive.
ghost use Rattle.std.specs.Prelude.{◌≡◌, ◌*◌, length};
ghost use Rattle.ordination_coordinates.specs.Signs.{stronger, largest, orient, signs};

// Of m and x the one of larger magnitude, m of equals.
fn stronger(m: f64, x: f64) -> f64
    ensures { result ≡ stronger m x }
{
    if float::abs(m) < float::abs(x) { x } else { m }
}

// The entry of largest magnitude, the first of equals.
fn largest(v: &[f64]) -> f64
    ensures { result ≡ largest v.now }
{
    let mut m = 0.0;
    for x in v {
        m = stronger(m, *x);
    }
    m
}

// The sign that makes it positive, without a branch.
fn orient(v: &[f64]) -> f64
    ensures { result ≡ orient v.now }
{
    float::axis_sign(largest(v))
}

// The sign of each vector, a row of n.
pub fn fill_signs(out: &mut [f64], vectors: &[f64], n: usize)
    requires { length vectors.now ≡ length out.old * n }
    ensures { out.new ≡ signs n (length out.old) vectors.now }
{
    for c in 0..out.len() {
        out[c] = orient(&vectors[c * n..c * n + n]);
    }
}
