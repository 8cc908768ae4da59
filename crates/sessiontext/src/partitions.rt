// Partitions that stand in a text: the word of one, if it is a partition within the limit; and lines of a name and a
// partition, if they are of their form, by writing out what was read and comparing.
ghost use Rattle.std.specs.Prelude.{◌<◌, ◌≡◌, ◌≤◌, MatchOption, map, ℕ};
ghost use Rattle.theory.specs.Basics.{length};
ghost use Rattle.theory.specs.Partition.{Parts};
ghost use Rattle.theory.specs.ShapeWord.{shape_word};
ghost use Rattle.theory.specs.ClassWord.{class_word};
ghost use Rattle.theory.specs.Limits.{degree_limit};
ghost use Rattle.textreading.specs.Reading.{list_in, small};
ghost use Rattle.sessiontext.specs.Reading.{in_limit, is_list};
ghost use Rattle.sessiontext.specs.Private.Read.{Tells, ReadShape, ReadClass};

use text::fields;

// How a partition is put down as a word.
pub trait Notation {
    ghost word_of: { Parts → ℕ };

    // The word of a part list, if it is a partition within the limit.
    fn word(parts: &[u8]) -> Option<u32>
        ensures { Tells (in_limit degree_limit parts.now) (word_of parts.now) result };
}

// As the word of a shape.
pub struct Shapes;

impl Notation for Shapes {
    ghost word_of = { shape_word };

    fn word(parts: &[u8]) -> Option<u32> {
        words::shapes::word(parts).ok()
    }
}

// As the word of a class.
pub struct Classes;

impl Notation for Classes {
    ghost word_of = { class_word };

    fn word(parts: &[u8]) -> Option<u32> {
        words::classes::word(parts).ok()
    }
}

// A shape's word, and its degree.
#[derive(Clone, Copy)]
pub struct ShapeAsked {
    pub word: u32,
    pub degree: u64,
}

// The numbers of a list that stand in a text, at the front of a column, if it has room for them.
fn parts_in<'a>(text: &[u8], column: &'a mut [u8; 16]) -> Option<&'a [u8]>
    ensures { MatchOption result (16 < length (list_in text.now)) (λ parts.
        parts.now ≡ map small (list_in text.now)) }
{
    let count = textreading::list_in(text, column);
    column.get(..count)
}

// The word of the partition that stands in a text.
pub fn word_in<N: Notation>(text: &[u8]) -> Option<u32>
    ensures { Tells (in_limit degree_limit (list_in text.now)) (N.word_of (list_in text.now)) result }
{
    let mut column = [0u8; 16];
    N::word(parts_in(text, &mut column)?)
}

// The word of the partition on a line of a name and its parts.
fn listed<N: Notation>(name: &[u8], line: &[u8]) -> Option<u32>
    requires { length name.now ≤ 8 }
    ensures { Tells (is_list degree_limit name.now line.now) (N.word_of (list_in line.now)) result }
{
    let mut column = [0u8; 16];
    let parts = parts_in(line, &mut column)?;
    let word = N::word(parts)?;
    let mut own = [0u8; 64];
    let end = fields::line(name, parts, &mut own, 0);
    check::same(line, &own[..end]).then_some(word)
}

// The shape asked for, and its degree.
pub fn shape(line: &[u8]) -> Option<ShapeAsked>
    ensures { ReadShape line.now result }
{
    let word = listed::<Shapes>(b"shape=", line)?;
    let degree = words::shapes::degree(word).unwrap();
    Some(ShapeAsked {
        word,
        degree: degree as u64,
    })
}

// The class asked for.
pub fn class(line: &[u8]) -> Option<u32>
    ensures { ReadClass line.now result }
{
    listed::<Classes>(b"class=", line)
}
