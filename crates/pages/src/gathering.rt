// Whether slip, page and coefficients are sound (document 02, P7, "Sound then counts each d! as often as the
// coefficient's size"): the gathered mode.
ghost use Rattle.std.specs.Prelude.{◌≡◌, ◌*◌, ◌^◌, ◌≤◌, ◌<◌};
ghost use Rattle.theory.specs.Basics.{length, ◌≤?◌};
ghost use Rattle.theory.specs.Limits.{degree_limit, page_limit};
ghost use Rattle.theory.specs.Refusals.{first_of};
ghost use Rattle.words.specs.Answers.{refusal_of};
ghost use Rattle.pages.specs.declared.degrees.Kind.TheVariants.{Shape};
ghost use Rattle.pages.specs.Mode.{alongside, gathered_mode};
ghost use Rattle.pages.specs.Budget.{budget_told};
ghost use Rattle.pages.specs.Sound.{sound_in, page_checks_in};
ghost use Rattle.pages.specs.Private.Degrees.{AllKnown};
ghost use Rattle.pages.specs.Private.Gathered.{word_cost, suffices_besides, afforded as isAfforded};

use super::degrees::{Kind, MANY, PLACES};
use super::tables::Tables;
use super::{Budget, GATHERED, PAGE_LIMIT, Slip, degrees, differences, soundness};
use words::Refusal;

// 2^19: less than so often 16!, which is below 2^45, has room in 64 bits.
const FEW_TIMES: u64 = 0x8_0000;

// Whether a factorial can be taken so often from a value. The product is made only where it has room for sure, so that
// few lines need a division.
fn affords(value: u64, times: u64, cost: u64) -> bool
    requires { (1 ≤ cost) × (cost < 2 ^ 45) }
    ensures { result ≡ times * cost ≤? value }
{
    if times < FEW_TIMES {
        return times * cost <= value;
    }
    times <= value / cost
}

// d! of a line, d being the degree of its shape word, which is read once where places are lent.
fn cost(line: u64, tables: &Tables, shapes: &mut [u64]) -> u64
    requires { AllKnown Shape shapes.old }
    ensures { (result ≡ word_cost degree_limit line) × AllKnown Shape shapes.new }
{
    tables.factorial(degrees::word_degree(Kind::Shape, linewords::shape(line), shapes))
}

// Whether no sign digit is set, no coefficient is 0 and a value suffices for what the coefficients ask for besides each
// d! once. The degree of a line is asked for only where its coefficient's size is above 1.
fn besides(
    value: u64,
    lines: &[u64],
    coefficients: &[i64],
    tables: &Tables,
    shapes: &mut [u64],
) -> bool
    requires { (length lines.now ≡ length coefficients.now) × AllKnown Shape shapes.old }
    ensures { result ≡ suffices_besides degree_limit value lines.now coefficients.now }
{
    let mut left = value;
    for (&line, &coefficient) in lines.iter().zip(coefficients) {
        if linewords::minus(line) {
            return false;
        }
        let size = coefficient.unsigned_abs();
        if size == 0 {
            return false;
        }
        if 1 < size {
            let cost = cost(line, tables, shapes);
            if affords(left, size - 1, cost) {
                left -= (size - 1) * cost;
            } else {
                return false;
            }
        }
    }
    true
}

// Whether no sign digit is set, no coefficient is 0 and a budget suffices for lines: it has to suffice for the words as
// plain lines, and what these leave for what the coefficients ask for besides. There are places where there are many
// lines.
fn afforded(budget: Option<Budget>, lines: &[u64], coefficients: &[i64]) -> bool
    requires { length lines.now ≡ length coefficients.now }
    ensures { result ≡ isAfforded degree_limit (budget_told budget) (alongside lines.now coefficients.now) }
{
    let tables = Tables::new();
    let Some(after) = soundness::spent(budget, lines, &tables) else {
        return false;
    };
    if lines.len() < MANY {
        let mut shapes = [0u64; 0];
        return besides(after.value, lines, coefficients, &tables, &mut shapes);
    }
    let mut shapes = [0u64; PLACES];
    besides(after.value, lines, coefficients, &tables, &mut shapes)
}

// Whether slip, page and coefficients are sound.
fn sound(slip: Slip, page: &[u64], coefficients: &[i64]) -> bool
    requires { (length page.now ≤ page_limit) × (length page.now ≡ length coefficients.now) }
    ensures { result ≡ sound_in gathered_mode degree_limit slip (page.now, coefficients.now) }
{
    if slip.mode != GATHERED {
        return false;
    }
    let lines = slip.lines;
    if page.len() < lines {
        return false;
    }
    let before = soundness::budget(slip);
    afforded(before, &page[..lines], &coefficients[..lines])
        && differences::different(&page[..lines])
        && clearing::is_clear(&page[lines..])
        && clearing::is_clear(&coefficients[lines..])
}

// Why a slip, a page and its coefficients are refused: 6, 21, then 7.
pub fn refusal(slip: Slip, page: &[u64], coefficients: &[i64]) -> Result<(), Refusal>
    ensures { refusal_of result ≡ first_of (page_checks_in gathered_mode degree_limit slip
        (page.now, coefficients.now)) }
{
    if PAGE_LIMIT < page.len() {
        return Err(Refusal::PageTooLong);
    }
    if page.len() != coefficients.len() {
        return Err(Refusal::BadCoefficients);
    }
    if !sound(slip, page, coefficients) {
        return Err(Refusal::NotSound);
    }
    Ok(())
}
