// What an operation answers, as a number and arrays, for languages that have no enums: 0 and the parts of the answer, or the refusal's number and the
// arrays untouched.
ghost use Rattle.std.specs.Prelude.{◌≡◌};
ghost use Rattle.c_layouts.specs.Coded.{coded, coded_as, same, arrays};
ghost use Rattle.c_layouts.specs.Layouts.{row_arrays, test_row, test_arrays, way_row, way_arrays, dapc_numbers};
ghost use Rattle.outcome.specs.Numbers.{outcome_of, told};
ghost use Rattle.outcome.specs.Outcome.{code};

use dapc_discriminant::Separation;
use exhaustive_hits::judgement::Judgement;
use outcome::Refusal;
use permanova_sampling::TestResult;

// A check's number.
pub fn code_of(c: Result<(), Refusal>) -> u8
    ensures { result ≡ code (told c) }
{
    match c {
        Ok(()) => 0,
        Err(e) => u8::from(e),
    }
}

// An answer's number. The answer goes to `at`; with a refusal what was there stays.
#[tactic(auto, unfolding(crate::specs::Coded::coded))]
pub fn lay<T: Copy>(answer: Result<T, Refusal>, at: &mut T) -> u8
    ensures { coded_as result at.new ≡ coded same (outcome_of answer) at.old }
{
    match answer {
        Ok(parts) => {
            *at = parts;
            0
        }
        Err(e) => u8::from(e),
    }
}

// An answer of a test in a row: values, and numbers.
#[derive(Clone, Copy)]
pub struct Row<const V: usize, const N: usize> {
    pub values: [f64; V],
    pub numbers: [u64; N],
}

// A row's number. The row goes to the arrays; with a refusal what was there stays.
#[tactic(auto, unfolding(crate::specs::Coded::coded))]
fn lay_row<const V: usize, const N: usize>(
    row: Result<Row<V, N>, Refusal>,
    values: &mut [f64; V],
    numbers: &mut [u64; N],
) -> u8
    ensures { coded_as result (arrays values.new numbers.new) ≡ coded row_arrays (outcome_of row.entry) (arrays values.old numbers.old) }
{
    match row {
        Ok(r) => {
            values.copy_from_slice(&r.values);
            numbers.copy_from_slice(&r.numbers);
            0
        }
        Err(e) => u8::from(e),
    }
}

// ---- `test`

// The parts of an answer of `test` in a row.
#[tactic(auto, unfolding(crate::specs::Layouts::test_row))]
pub fn test_row(t: TestResult) -> Row<6, 5>
    ensures { result ≡ test_row t }
{
    let s = t.summary;
    let first = t.p.unwrap_or(0.0);
    let second = t.disp_p.unwrap_or(0.0);
    Row {
        values: [t.f, s.r2, first, t.disp_f, second, s.informative_fraction],
        numbers: [
            s.n as u64,
            s.n_groups as u64,
            u64::from(t.p.is_some()),
            u64::from(t.disp_p.is_some()),
            u64::from(s.warnings),
        ],
    }
}

#[tactic(auto, unfolding(crate::specs::Coded::coded))]
pub fn lay_test(a: Result<TestResult, Refusal>, values: &mut [f64; 6], numbers: &mut [u64; 5]) -> u8
    ensures { coded_as result (arrays values.new numbers.new) ≡ coded test_arrays (outcome_of a) (arrays values.old numbers.old) }
{
    lay_row(a.map(test_row), values, numbers)
}

// ---- `exhaustive`

// The parts of an answer of `exhaustive` in a row.
#[tactic(auto, unfolding(crate::specs::Layouts::way_row))]
pub fn way_row(j: Judgement) -> Row<4, 11>
    ensures { result ≡ way_row j }
{
    let s = j.summary;
    let l = j.location;
    let d = j.dispersion;
    let a = j.assigned;
    let f = permanova_p_values::value_of(l.statistic);
    let disp_f = permanova_p_values::value_of(d.statistic);
    Row {
        values: [f, s.r2, disp_f, s.informative_fraction],
        numbers: [
            s.n as u64,
            s.n_groups as u64,
            j.ways as u64,
            permanova_p_values::state_of(l.statistic),
            l.hits as u64,
            permanova_p_values::state_of(d.statistic),
            d.hits as u64,
            u64::from(a.statistic.is_some()),
            a.statistic.unwrap_or(0) as u64,
            a.hits as u64,
            u64::from(s.warnings),
        ],
    }
}

#[tactic(auto, unfolding(crate::specs::Coded::coded))]
pub fn lay_ways(a: Result<Judgement, Refusal>, values: &mut [f64; 4], numbers: &mut [u64; 11]) -> u8
    ensures { coded_as result (arrays values.new numbers.new) ≡ coded way_arrays (outcome_of a) (arrays values.old numbers.old) }
{
    lay_row(a.map(way_row), values, numbers)
}

// ---- `dapc`

#[tactic(auto, unfolding(crate::specs::Layouts::dapc_numbers))]
fn dapc_numbers(s: Separation) -> [usize; 3]
    ensures { result ≡ dapc_numbers s }
{
    [s.columns, s.axes, s.right]
}

#[tactic(auto, unfolding(crate::specs::Coded::coded))]
pub fn lay_scores(a: Result<Separation, Refusal>, numbers: &mut [usize; 3]) -> u8
    ensures { coded_as result numbers.new ≡ coded dapc_numbers (outcome_of a) numbers.old }
{
    lay(a.map(dapc_numbers), numbers)
}
