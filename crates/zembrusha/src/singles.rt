// Single calls: one export gives the value, another the refusal number for the same words, 0 for none; the good word of
// a shape comes with its refusal number and the ones dropped in one struct.
ghost use Rattle.std.specs.Prelude.{◌≡◌};
ghost use Rattle.theory.specs.Limits.{degree_limit};
ghost use Rattle.theory.specs.Refusals.{first_of, class_checks};
ghost use Rattle.words.specs.Calls.{good_shape_word, shape_degree, conjugate_shape, sign_of_class, size_of_class};
ghost use Rattle.words.specs.Calls.{PeriodOfClass};
ghost use Rattle.characters.specs.Calls.{character_of, shape_character_degree};
ghost use Rattle.zembrusha.specs.Exports.{of_good, NumberOf};

use super::{Good, handing};

// The character of a shape word on a class word.
#[unsafe(no_mangle)]
pub extern "C" fn zembrusha_character(shape: u32, class: u32) -> i64
    ensures { result ≡ (character_of degree_limit shape class).number }
{
    characters::character(shape, class).unwrap_or(0)
}

#[unsafe(no_mangle)]
pub extern "C" fn zembrusha_character_refusal(shape: u32, class: u32) -> u32
    ensures { result ≡ (character_of degree_limit shape class).refused }
{
    handing::refused(characters::character(shape, class))
}

// The good word of a shape word, and how many ones in front were dropped, with the refusal number.
#[unsafe(no_mangle)]
pub extern "C" fn zembrusha_good_shape(word: u32) -> Good
    ensures { result ≡ of_good (good_shape_word degree_limit word) }
{
    Good::from(words::shapes::good(word))
}

// The degree n of a shape word.
#[unsafe(no_mangle)]
pub extern "C" fn zembrusha_degree(shape: u32) -> i64
    ensures { result ≡ (shape_degree degree_limit shape).number }
{
    words::shapes::degree(shape).unwrap_or(0) as i64
}

#[unsafe(no_mangle)]
pub extern "C" fn zembrusha_degree_refusal(shape: u32) -> u32
    ensures { result ≡ (shape_degree degree_limit shape).refused }
{
    handing::refused(words::shapes::degree(shape))
}

// The character degree of a shape word.
#[unsafe(no_mangle)]
pub extern "C" fn zembrusha_character_degree(shape: u32) -> i64
    ensures { result ≡ (shape_character_degree degree_limit shape).number }
{
    characters::character_degree(shape).unwrap_or(0)
}

#[unsafe(no_mangle)]
pub extern "C" fn zembrusha_character_degree_refusal(shape: u32) -> u32
    ensures { result ≡ (shape_character_degree degree_limit shape).refused }
{
    handing::refused(characters::character_degree(shape))
}

// The word of the conjugate shape.
#[unsafe(no_mangle)]
pub extern "C" fn zembrusha_conjugate(shape: u32) -> u32
    ensures { result ≡ (conjugate_shape degree_limit shape).word }
{
    words::shapes::conjugate(shape).unwrap_or(0)
}

#[unsafe(no_mangle)]
pub extern "C" fn zembrusha_conjugate_refusal(shape: u32) -> u32
    ensures { result ≡ (conjugate_shape degree_limit shape).refused }
{
    handing::refused(words::shapes::conjugate(shape))
}

// The sign of a class word.
#[unsafe(no_mangle)]
pub extern "C" fn zembrusha_class_sign(class: u32) -> i64
    ensures { result ≡ (sign_of_class degree_limit class).number }
{
    words::classes::sign(class).unwrap_or(0)
}

#[unsafe(no_mangle)]
pub extern "C" fn zembrusha_class_sign_refusal(class: u32) -> u32
    ensures { result ≡ (sign_of_class degree_limit class).refused }
{
    handing::refused(words::classes::sign(class))
}

// The number of elements of a class.
#[unsafe(no_mangle)]
pub extern "C" fn zembrusha_class_size(class: u32) -> i64
    ensures { result ≡ (size_of_class degree_limit class).number }
{
    words::classes::size(class).unwrap_or(0)
}

#[unsafe(no_mangle)]
pub extern "C" fn zembrusha_class_size_refusal(class: u32) -> u32
    ensures { result ≡ (size_of_class degree_limit class).refused }
{
    handing::refused(words::classes::size(class))
}

// The period of a class: the least positive number that every part divides.
#[unsafe(no_mangle)]
pub extern "C" fn zembrusha_class_period(class: u32) -> i64
    ensures { NumberOf (PeriodOfClass degree_limit class) result }
{
    words::classes::period(class).unwrap_or(0)
}

#[unsafe(no_mangle)]
pub extern "C" fn zembrusha_class_period_refusal(class: u32) -> u32
    ensures { result ≡ first_of (class_checks degree_limit class) }
{
    handing::refused(words::classes::period(class))
}
