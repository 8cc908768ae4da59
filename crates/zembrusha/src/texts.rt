// Sessions put away as text, and taken up again: page and text are lent, each a pointer and then a length.
ghost use Rattle.theory.specs.Limits.{degree_limit};
ghost use Rattle.words.specs.Answers.{Outcome};
ghost use Rattle.sessiontext.specs.Calls.{save_into, load_into};
ghost use Rattle.zembrusha.specs.Exports.{given, counted, loaded_run};

use super::{Loaded, Number, Slip};

// The text of a session, at the front of a text buffer; its length is the number.
#[unsafe(no_mangle)]
pub extern "C" fn zembrusha_save(slip: Slip, page: &[u64], text: &mut [u8]) -> Number
    ensures { Outcome (counted (save_into degree_limit (given slip) page.now text.old))
        result text.new }
{
    Number::from(sessiontext::save(pages::Slip::from(slip), page, text))
}

// The session whose text this is.
#[unsafe(no_mangle)]
pub extern "C" fn zembrusha_load(text: &[u8], page: &mut [u64]) -> Loaded
    ensures { Outcome (loaded_run (load_into degree_limit text.now page.old))
        result page.new }
{
    Loaded::from(sessiontext::load(text, page))
}
