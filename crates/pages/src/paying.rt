// Two budgets, n! and S(n), that fall as the settled sum, the steps and the lines take from them, and never a sum that
// grows.
ghost use Rattle.std.specs.Prelude.{◌≡◌, Some};
ghost use Rattle.theory.specs.Limits.{degree_limit};
ghost use Rattle.pages.specs.Budget.{budget_told, budget_of};
ghost use Rattle.pages.specs.Private.Degrees.{most_degree};

use super::tables::Tables;
use super::{Budget, Slip};
use words::SHAPE_WORDS;

// S(d), the most steps that a line of degree d can take, for the degrees 0 to 16.
pub const SPANS: [u64; words::DEGREES] = [
    0,
    1,
    3,
    10,
    41,
    206,
    1237,
    8660,
    69281,
    623530,
    6235301,
    68588312,
    823059745,
    10699776686,
    149796873605,
    2246953104076,
    35951249665217,
];

// What n! leaves after the settled size and S(n) after the steps.
pub fn first(slip: Slip, tables: &Tables) -> Option<Budget>
    ensures { budget_told result ≡ budget_of degree_limit slip }
{
    if SHAPE_WORDS <= slip.shape {
        return None;
    }
    let degree = pairs::common_degree(slip.shape, slip.class).ok()?.degree;
    if slip.steps < 0 {
        return None;
    }
    let settled = slip.settled.unsigned_abs();
    let value = tables.factorial(degree).checked_sub(settled)?;
    let steps = slip.steps.unsigned_abs();
    let span = tables.span(degree).checked_sub(steps)?;
    Some(Budget {
        degree,
        value,
        span,
    })
}

// The greatest degree of a line that a budget can be spent on.
pub fn most_degree(budget: Budget) -> u32
    ensures { result ≡ most_degree degree_limit (budget_told (Some budget)) }
{
    budget.degree.min(words::LIMIT)
}
