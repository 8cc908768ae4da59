// Whether slip and page are sound (document 01, "Sound slip and page"), in the plain mode.
ghost use Rattle.std.specs.Prelude.{◌≡◌, ◌≤◌, Some};
ghost use Rattle.theory.specs.Basics.{map};
ghost use Rattle.theory.specs.Limits.{degree_limit};
ghost use Rattle.theory.specs.Refusals.{first_of};
ghost use Rattle.words.specs.Answers.{refusal_of};
ghost use Rattle.pages.specs.Page.{line_of};
ghost use Rattle.pages.specs.Sound.{sound as is_sound, page_checks};
ghost use Rattle.pages.specs.Budget.{budget_told, budget_of, spent_all};
ghost use Rattle.pages.specs.Private.Degrees.{paid_for, Knows};

use super::degrees::{MANY, PLACES};
use super::tables::Tables;
use super::{Budget, PAGE_LIMIT, PLAIN, Slip, degrees, paying};
use words::Refusal;

// What a line of this degree leaves of a budget: its d! is taken from the one and its S(d) from the other. The degree 0
// is no line's.
fn paid(budget: Budget, degree: u32, tables: &Tables) -> Option<Budget>
    requires { degree ≤ degree_limit }
    ensures { budget_told result ≡ paid_for 1 degree (budget_told (Some budget)) }
{
    if degree == 0 {
        return None;
    }
    let value = budget.value.checked_sub(tables.factorial(degree))?;
    let span = budget.span.checked_sub(tables.span(degree))?;
    Some(Budget {
        degree: budget.degree,
        value,
        span,
    })
}

// What lines leave of a budget, words being remembered where places are lent.
fn spent_with(
    budget: Budget,
    lines: &[u64],
    tables: &Tables,
    shapes: &mut [u64],
    classes: &mut [u64],
) -> Option<Budget>
    requires { Knows shapes.old classes.old }
    ensures { budget_told result ≡ spent_all degree_limit (budget_told (Some budget)) (map line_of lines.now) }
{
    let mut left = budget;
    for &line in lines {
        let degree = degrees::degree(line, paying::most_degree(left), shapes, classes);
        left = paid(left, degree, tables)?;
    }
    Some(left)
}

// The same, with places where there are many lines, which have few words between them: they start as zeros, which are
// right, since the word 0 has the degree 0.
pub(crate) fn spent(budget: Option<Budget>, lines: &[u64], tables: &Tables) -> Option<Budget>
    ensures { budget_told result ≡ spent_all degree_limit (budget_told budget) (map line_of lines.now) }
{
    let budget = budget?;
    if lines.len() < MANY {
        let mut shapes = [0u64; 0];
        let mut classes = [0u64; 0];
        return spent_with(budget, lines, tables, &mut shapes, &mut classes);
    }
    let mut shapes = [0u64; PLACES];
    let mut classes = [0u64; PLACES];
    spent_with(budget, lines, tables, &mut shapes, &mut classes)
}

// What n! and S(n) leave after the settled size and the steps; none where the slip's words are not sound, the steps are
// negative, or one does not suffice.
pub fn budget(slip: Slip) -> Option<Budget>
    ensures { budget_told result ≡ budget_of degree_limit slip }
{
    paying::first(slip, &Tables::new())
}

// What lines leave of a budget: each has to be sound and of the budget's degree at most, and takes its d! from the one
// and its S(d) from the other.
pub fn spend(budget: Option<Budget>, lines: &[u64]) -> Option<Budget>
    ensures { budget_told result ≡ spent_all degree_limit (budget_told budget) (map line_of lines.now) }
{
    spent(budget, lines, &Tables::new())
}

// Whether slip and page are sound.
fn sound(slip: Slip, page: &[u64]) -> bool
    ensures { result ≡ is_sound degree_limit slip page.now }
{
    if slip.mode != PLAIN {
        return false;
    }
    let lines = slip.lines;
    if page.len() < lines {
        return false;
    }
    let tables = Tables::new();
    let before = paying::first(slip, &tables);
    if spent(before, &page[..lines], &tables).is_none() {
        return false;
    }
    clearing::is_clear(&page[lines..])
}

// Why a slip and a page are refused: 6, then 7.
pub fn refusal(slip: Slip, page: &[u64]) -> Result<(), Refusal>
    ensures { refusal_of result ≡ first_of (page_checks degree_limit slip page.now) }
{
    if PAGE_LIMIT < page.len() {
        return Err(Refusal::PageTooLong);
    }
    if !sound(slip, page) {
        return Err(Refusal::NotSound);
    }
    Ok(())
}
