// The degree of a line by its two words, each of which is read once where there are places to remember it at.
ghost use Rattle.std.specs.Prelude.{◌≡◌, ◌≤◌};
ghost use Rattle.theory.specs.Limits.{degree_limit};
ghost use Rattle.pages.specs.Page.{line_of};
ghost use Rattle.pages.specs.Private.Degrees.{sound_degree, word_degree, AllKnown, Knows};

use words::SHAPE_WORDS;

// How many places there are to remember words at: a prime number, which spreads words that end in zeros; with it
// shapes, classes and tables take less than 4,096 bytes of the stack together, so that no page of it is probed.
pub const PLACES: usize = 229;

// As many lines as make it worth while to remember their words.
pub const MANY: usize = 64;

// What a word is read as.
#[derive(Clone, Copy)]
pub enum Kind {
    Shape,
    Class,
}

// The degree of a good word within the limit, of a shape or of a class, and 0 of any other word.
fn read(kind: Kind, word: u32) -> u32
    ensures { result ≡ word_degree degree_limit kind word }
{
    match kind {
        Kind::Class => words::classes::degree(word).unwrap_or(0),
        Kind::Shape => {
            if SHAPE_WORDS <= word {
                return 0;
            }
            words::shapes::degree(word).unwrap_or(0)
        }
    }
}

// The same, read only where it is not known: what is found of a word is written to its place, where places are lent.
pub fn word_degree(kind: Kind, word: u32, known: &mut [u64]) -> u32
    requires { AllKnown kind known.old }
    ensures { (result ≡ word_degree degree_limit kind word) × AllKnown kind known.new }
{
    if known.len() < PLACES {
        return read(kind, word);
    }
    let place = word as usize % PLACES;
    let found = known[place];
    if found / 32 == word as u64 {
        return (found % 32) as u32;
    }
    let degree = read(kind, word);
    known[place] = word as u64 * 32 + degree as u64;
    degree
}

// The degree of a sound line of degree n at most, and 0 of any other word.
pub fn degree(line: u64, n: u32, shapes: &mut [u64], classes: &mut [u64]) -> u32
    requires { (n ≤ degree_limit) × Knows shapes.old classes.old }
    ensures { (result ≡ sound_degree n (line_of line)) × Knows shapes.new classes.new }
{
    let degree = word_degree(Kind::Shape, linewords::shape(line), shapes);
    let other = word_degree(Kind::Class, linewords::class(line), classes);
    if n < degree {
        return 0;
    }
    if degree == other { degree } else { 0 }
}
