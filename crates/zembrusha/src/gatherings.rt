// Sessions in the gathered mode: the slip goes in and comes back by value; page, coefficients, strip and text are lent,
// each a pointer and then a length.
ghost use Rattle.std.specs.Prelude.{◌≡◌};
ghost use Rattle.theory.specs.Limits.{degree_limit};
ghost use Rattle.words.specs.Answers.{Outcome};
ghost use Rattle.pages.specs.Mode.{gathered_mode};
ghost use Rattle.sessions.specs.Opening.{opening_in};
ghost use Rattle.sessions.specs.Step.{preview_in, commit_in};
ghost use Rattle.characters.specs.Watch.{watch_in};
ghost use Rattle.sessiontext.specs.SessionText.{gathered_form};
ghost use Rattle.sessiontext.specs.Calls.{save_by, load_by};
ghost use Rattle.zembrusha.specs.Exports.{given, counted, handed_run, loaded_run, number, fraction};

use super::{Handed, Loaded, Number, Slip, handing};

// Opens a gathered session of a shape on a class.
#[unsafe(no_mangle)]
pub extern "C" fn zembrusha_gathered_open(
    shape: u32,
    class: u32,
    page: &mut [u64],
    coefficients: &mut [i64],
) -> Handed
    ensures { Outcome
        (handed_run (opening_in gathered_mode degree_limit shape class (page.old, coefficients.old)))
        result (page.new, coefficients.new) }
{
    Handed::from(gathered::open(shape, class, page, coefficients))
}

// The hooks that make lines of a named line and cycle, each with its own sign, at the front of a strip; their count is
// the number.
#[unsafe(no_mangle)]
pub extern "C" fn zembrusha_gathered_preview(
    slip: Slip,
    page: &[u64],
    coefficients: &[i64],
    line: u64,
    cycle: u64,
    strip: &mut [u64],
) -> Number
    ensures { Outcome
        (counted (preview_in gathered_mode degree_limit (given slip) (page.now, coefficients.now)
        line cycle strip.old)) result strip.new }
{
    let own = pages::Slip::from(slip);
    Number::from(gathered::preview(own, page, coefficients, line as usize, cycle, strip))
}

// Finishes a step whose preview is the front of the strip: its hooks are gathered.
#[unsafe(no_mangle)]
pub extern "C" fn zembrusha_gathered_commit(
    slip: Slip,
    page: &mut [u64],
    coefficients: &mut [i64],
    line: u64,
    cycle: u64,
    strip: &[u64],
) -> Handed
    ensures { Outcome
        (handed_run (commit_in gathered_mode degree_limit (given slip) (page.old, coefficients.old)
        line cycle strip.now)) result (page.new, coefficients.new) }
{
    let own = pages::Slip::from(slip);
    Handed::from(gathered::commit(own, page, coefficients, line as usize, cycle, strip))
}

// The whole number that a watch gives, 0 where it gives none.
#[unsafe(no_mangle)]
pub extern "C" fn zembrusha_gathered_watch_whole(
    slip: Slip,
    page: &[u64],
    coefficients: &[i64],
    kind: u64,
    line: u64,
) -> i64
    ensures { result ≡ number
        (watch_in gathered_mode degree_limit (given slip) (page.now, coefficients.now) kind line).1 }
{
    let own = pages::Slip::from(slip);
    handing::whole(gathered::watch(own, page, coefficients, kind, line as usize))
}

// The ratio that a watch gives, 0 where it gives none.
#[unsafe(no_mangle)]
pub extern "C" fn zembrusha_gathered_watch_ratio(
    slip: Slip,
    page: &[u64],
    coefficients: &[i64],
    kind: u64,
    line: u64,
) -> f64
    ensures { result ≡ fraction
        (watch_in gathered_mode degree_limit (given slip) (page.now, coefficients.now) kind line).1 }
{
    let own = pages::Slip::from(slip);
    handing::ratio(gathered::watch(own, page, coefficients, kind, line as usize))
}

// The refusal number of the same watch, 0 for none.
#[unsafe(no_mangle)]
pub extern "C" fn zembrusha_gathered_watch_refusal(
    slip: Slip,
    page: &[u64],
    coefficients: &[i64],
    kind: u64,
    line: u64,
) -> u32
    ensures { result
        ≡ (watch_in gathered_mode degree_limit (given slip) (page.now, coefficients.now) kind line).0 }
{
    let own = pages::Slip::from(slip);
    handing::refusal(gathered::watch(own, page, coefficients, kind, line as usize))
}

// The text of a gathered session, at the front of a text buffer; its length is the number.
#[unsafe(no_mangle)]
pub extern "C" fn zembrusha_gathered_save(
    slip: Slip,
    page: &[u64],
    coefficients: &[i64],
    text: &mut [u8],
) -> Number
    ensures { Outcome
        (counted (save_by gathered_form degree_limit (given slip) (page.now, coefficients.now)
        text.old)) result text.new }
{
    let own = pages::Slip::from(slip);
    Number::from(sessiontext::gathered::save(own, page, coefficients, text))
}

// The gathered session whose text this is.
#[unsafe(no_mangle)]
pub extern "C" fn zembrusha_gathered_load(
    text: &[u8],
    page: &mut [u64],
    coefficients: &mut [i64],
) -> Loaded
    ensures { Outcome
        (loaded_run (load_by gathered_form degree_limit text.now (page.old, coefficients.old)))
        result (page.new, coefficients.new) }
{
    Loaded::from(sessiontext::gathered::load(text, page, coefficients))
}
