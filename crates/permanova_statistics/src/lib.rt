// The statistics of a lot with the labels of a way (document 01, sections 2, 3 and 6), and the sizes of its groups.
#![tactic(auto)]

pub mod observation;
pub mod summary;

ghost use Rattle.std.specs.Prelude.{◌≡◌, ◌*◌, length};
ghost use Rattle.permanova_location.specs.Location.{total};

// The total over the terms, divided by the sum of weights.
pub fn total(t: &[f64], w: &[f64], m: usize) -> f64
    requires { length t.now ≡ m * m }
    ensures { result ≡ total t.now w.now m }
{
    permanova_sums::rows_sum(t, m) / permanova_sums::sum(w)
}
