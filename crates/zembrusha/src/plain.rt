// Sessions in the plain mode: the slip goes in and comes back by value, page and strip are lent, each a pointer and then
// a length.
ghost use Rattle.std.specs.Prelude.{◌≡◌};
ghost use Rattle.theory.specs.Limits.{degree_limit};
ghost use Rattle.words.specs.Answers.{Outcome};
ghost use Rattle.sessions.specs.Opening.{opening};
ghost use Rattle.sessions.specs.Step.{preview, commit};
ghost use Rattle.characters.specs.Watch.{watch};
ghost use Rattle.zembrusha.specs.Exports.{given, counted, handed_run, number, fraction};

use super::{Handed, Number, Slip, handing};

// Opens a session of a shape on a class.
#[unsafe(no_mangle)]
pub extern "C" fn zembrusha_open(shape: u32, class: u32, page: &mut [u64]) -> Handed
    ensures { Outcome (handed_run (opening degree_limit shape class page.old)) result page.new }
{
    Handed::from(sessions::open(shape, class, page))
}

// The new lines of a named line and cycle, at the front of a strip; their count is the number.
#[unsafe(no_mangle)]
pub extern "C" fn zembrusha_preview(
    slip: Slip,
    page: &[u64],
    line: u64,
    cycle: u64,
    strip: &mut [u64],
) -> Number
    ensures { Outcome
        (counted (preview degree_limit (given slip) page.now line cycle strip.old))
        result strip.new }
{
    let own = pages::Slip::from(slip);
    Number::from(sessions::preview(own, page, line as usize, cycle, strip))
}

// Finishes a step whose preview is the front of the strip.
#[unsafe(no_mangle)]
pub extern "C" fn zembrusha_commit(
    slip: Slip,
    page: &mut [u64],
    line: u64,
    cycle: u64,
    strip: &[u64],
) -> Handed
    ensures { Outcome
        (handed_run (commit degree_limit (given slip) page.old line cycle strip.now))
        result page.new }
{
    let own = pages::Slip::from(slip);
    Handed::from(sessions::commit(own, page, line as usize, cycle, strip))
}

// The whole number that a watch gives, 0 where it gives none.
#[unsafe(no_mangle)]
pub extern "C" fn zembrusha_watch_whole(slip: Slip, page: &[u64], kind: u64, line: u64) -> i64
    ensures { result ≡ number (watch degree_limit (given slip) page.now kind line).1 }
{
    handing::whole(characters::watches::watch(pages::Slip::from(slip), page, kind, line as usize))
}

// The ratio that a watch gives, 0 where it gives none.
#[unsafe(no_mangle)]
pub extern "C" fn zembrusha_watch_ratio(slip: Slip, page: &[u64], kind: u64, line: u64) -> f64
    ensures { result ≡ fraction (watch degree_limit (given slip) page.now kind line).1 }
{
    handing::ratio(characters::watches::watch(pages::Slip::from(slip), page, kind, line as usize))
}

// The refusal number of the same watch, 0 for none.
#[unsafe(no_mangle)]
pub extern "C" fn zembrusha_watch_refusal(slip: Slip, page: &[u64], kind: u64, line: u64) -> u32
    ensures { result ≡ (watch degree_limit (given slip) page.now kind line).0 }
{
    handing::refusal(characters::watches::watch(pages::Slip::from(slip), page, kind, line as usize))
}
