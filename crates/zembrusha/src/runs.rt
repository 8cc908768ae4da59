// Calls with a lent run: a pointer, then a length. Each answers by value: a word or a count, 0 when refused; of a list,
// what refuses it and the index of the first bad word.
ghost use Rattle.std.specs.Prelude.{◌≡◌};
ghost use Rattle.theory.specs.Limits.{degree_limit};
ghost use Rattle.words.specs.Answers.{Outcome};
ghost use Rattle.words.specs.Calls.{shape_word_from, class_word_from, shape_parts_into, class_parts_into};
ghost use Rattle.oldlists.specs.Calls.{shapes_from_old, shapes_to_old};
ghost use Rattle.classcolumns.specs.Calls.{column_into};
ghost use Rattle.zembrusha.specs.Exports.{of_word, counted, listed};

use super::{Listed, Number};

// The shape word of a part list.
#[unsafe(no_mangle)]
pub extern "C" fn zembrusha_shape_word(parts: &[u8]) -> Number
    ensures { result ≡ of_word (shape_word_from degree_limit parts.now) }
{
    Number::from(words::shapes::word(parts))
}

// The class word of a part list.
#[unsafe(no_mangle)]
pub extern "C" fn zembrusha_class_word(parts: &[u8]) -> Number
    ensures { result ≡ of_word (class_word_from degree_limit parts.now) }
{
    Number::from(words::classes::word(parts))
}

// The rows of a shape word to the front of a column; their count.
#[unsafe(no_mangle)]
pub extern "C" fn zembrusha_shape_parts(shape: u32, column: &mut [u8]) -> Number
    ensures { Outcome (counted (shape_parts_into degree_limit shape column.old))
        result column.new }
{
    Number::from(words::shapes::parts(shape, column))
}

// The parts of a class word to the front of a column; their count.
#[unsafe(no_mangle)]
pub extern "C" fn zembrusha_class_parts(class: u32, column: &mut [u8]) -> Number
    ensures { Outcome (counted (class_parts_into degree_limit class column.old))
        result column.new }
{
    Number::from(words::classes::parts(class, column))
}

// The shape words of shapes packed by the first method, as classes are, entry by entry.
#[unsafe(no_mangle)]
pub extern "C" fn zembrusha_shapes_from_old(old: &[u32], new: &mut [u32]) -> Listed
    ensures { Outcome (listed (shapes_from_old degree_limit old.now new.old))
        result new.new }
{
    Listed::from(oldlists::from_old(old, new))
}

// And back.
#[unsafe(no_mangle)]
pub extern "C" fn zembrusha_shapes_to_old(new: &[u32], old: &mut [u32]) -> Listed
    ensures { Outcome (listed (shapes_to_old degree_limit new.now old.old))
        result old.new }
{
    Listed::from(oldlists::to_old(new, old))
}

// The values of a class for all shapes, in listing order, to the front of a column; their count.
#[unsafe(no_mangle)]
pub extern "C" fn zembrusha_column(class: u32, values: &mut [i64]) -> Number
    ensures { Outcome (counted (column_into degree_limit class values.old)) result values.new }
{
    Number::from(classcolumns::column(class, values))
}
