// Waiting lines as a save writes them, read straight on: each byte is looked at once. What is read stands at the front
// of a text, and what is behind it is answered too. A line that is not read here may still be of its form, as one with
// the empty shape is; whoever asks reads such a line the longer way.
ghost use Rattle.std.specs.Prelude.{◌≡◌, ◌<◌};
ghost use Rattle.sessiontext.specs.Private.Stands.{SignStands, PartStands, ListStands, WordStands, LineStands};

use super::partitions::{Classes, Notation, Shapes};

// The part from 1 to 19 at the front of a text.
fn part(text: &[u8]) -> Option<(u8, &[u8])>
    ensures { PartStands text.now result }
{
    if let [b'1', second @ b'0'..=b'9', rest @ ..] = text {
        return Some((*second - 38, rest));
    }
    if let [first @ b'1'..=b'9', rest @ ..] = text {
        return Some((*first - 48, rest));
    }
    None
}

// The parts at the front of a text and the byte that stops them: how many they are, and they at the front of a column.
fn list<'a>(text: &'a [u8], stop: u8, column: &mut [u8]) -> Option<(usize, &'a [u8])>
    ensures { ListStands stop text.now column.new result }
{
    let mut left = text;
    for (i, place) in column.iter_mut().enumerate() {
        let (part, behind) = part(left)?;
        *place = part;
        match behind {
            [byte, rest @ ..] if *byte == stop => return Some((i + 1, rest)),
            [b',', rest @ ..] => left = rest,
            _ => return None,
        }
    }
    None
}

// The word of the partition at the front of a text, with the byte that stops its parts.
fn word<N: Notation>(text: &[u8], stop: u8) -> Option<(u32, &[u8])>
    ensures { WordStands N.word_of stop text.now result }
{
    let mut column = [0u8; 16];
    let (count, rest) = list(text, stop, &mut column)?;
    let word = N::word(&column[..count])?;
    Some((word, rest))
}

// Whether the sign is minus, of the front of a waiting line.
fn minus(text: &[u8]) -> Option<(bool, &[u8])>
    ensures { SignStands text.now result }
{
    match text {
        [b'l', b'i', b'n', b'e', b'=', b'+', b';', rest @ ..] => Some((false, rest)),
        [b'l', b'i', b'n', b'e', b'=', b'-', b';', rest @ ..] => Some((true, rest)),
        _ => None,
    }
}

// The word of the waiting line at the front of a text.
pub fn line(text: &[u8]) -> Option<(u64, &[u8])>
    ensures { LineStands text.now result }
{
    let (minus, rest) = minus(text)?;
    let (shape, rest) = word::<Shapes>(rest, b';')?;
    let (class, rest) = word::<Classes>(rest, b'\n')?;
    Some((linewords::word(minus, shape, class), rest))
}
