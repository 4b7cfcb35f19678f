// Section 5: a tiny ridge on the diagonal of the scatter within groups.
ghost use Rattle.std.specs.Prelude.{◌≡◌, cond, ◌*◌, ◌≤◌, eqb, length};
ghost use Rattle.float.specs.Floats.{◌⊕◌};
ghost use Rattle.lists.specs.Ranges.{grid};
ghost use Rattle.lists.specs.Rows.{entry};
ghost use Rattle.dapc_scatter.specs.Ridge.{ridged};

use eigen_matrix::square;

// sw with r added on its diagonal.
fn raise(sw: &mut [f64], p: usize, r: f64)
    requires { length sw.old ≡ p * p }
    ensures { sw.new ≡ grid p p (λ a b. cond (eqb a b) (entry p sw.old a b ⊕ r) (entry p sw.old a b)) }
{
    for a in 0..p {
        let k = a * p + a;
        sw[k] = sw[k] + r;
    }
}

// sw with its ridge.
pub fn add_ridge(sw: &mut [f64], p: usize)
    requires { (length sw.old ≡ p * p) × (p ≤ 16) }
    ensures { sw.new ≡ ridged p sw.old }
{
    let r = 1e-8 * float::max(square::trace(sw, p), 1e-12) / (p as f64);
    raise(sw, p, r);
}
