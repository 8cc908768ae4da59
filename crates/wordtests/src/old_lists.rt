// Lists of shapes in the old form, as classes are packed, and in the new: all partitions there and back, and every
// refusal at its border.
use oldlists::LIST_LIMIT;
use testing::Tally;

// The longest run that is tried, one word more than a list may have.
const MOST: usize = LIST_LIMIT + 1;

// What fills a lent run before a call: no word of a shape in either form.
const LENT: u32 = 0xA5A5_A5A5;

// Which way a list is moved.
#[derive(Clone, Copy)]
enum Way {
    ToOld,
    FromOld,
}

impl Way {
    // Moves a list, or tells the number that refuses it and the index.
    fn moved(self, given: &[u32], lent: &mut [u32]) -> Result<(), (u8, usize)> {
        let moved = match self {
            Way::ToOld => oldlists::to_old(given, lent),
            Way::FromOld => oldlists::from_old(given, lent),
        };
        moved.map_err(|rejected| (rejected.refusal.number(), rejected.index))
    }
}

// Whether a run has this word in the first places, and what it was lent with in the others.
fn holds(run: &[u32], word: u32, count: usize) -> bool {
    run.iter()
        .enumerate()
        .all(|(i, at)| *at == if i < count { word } else { LENT })
}

// Whether a list of one word is moved to a list of the other.
fn moves(way: Way, word: u32, other: u32) -> bool {
    let given = [word; 1];
    let mut lent = [LENT; 1];
    way.moved(&given, &mut lent).is_ok() & holds(&lent, other, 1)
}

// Whether the two words of a partition are moved to each other.
pub fn agrees(shape: u32, class: u32) -> bool {
    moves(Way::FromOld, class, shape) & moves(Way::ToOld, shape, class)
}

// All partitions in one list, to the old form and back: a case for each word of the list.
pub fn all() -> Tally {
    let words = listing::shape_words();
    let mut old = [LENT; listing::WORD_COUNT];
    let mut new = [LENT; listing::WORD_COUNT];
    let there = Way::ToOld.moved(&words, &mut old).is_ok();
    let back = Way::FromOld.moved(&old, &mut new).is_ok();
    let mut t = Tally::new();
    for (moved, word) in new.iter().zip(&words) {
        t = t.add(there & back & (moved == word));
    }
    t
}

// Whether a list of so many words, all alike, is moved to one of `room` words as words of the empty shape, or refused.
fn length(
    way: Way,
    count: usize,
    room: usize,
    word: u32,
    expected: Result<(), (u8, usize)>,
) -> bool {
    let from = [word; MOST];
    let mut to = [LENT; MOST];
    let (Some(given), Some(lent)) = (from.get(..count), to.get_mut(..room)) else {
        return false;
    };
    let answer = way.moved(given, lent);
    let wrote = if expected.is_ok() { count } else { 0 };
    (answer == expected) & holds(&to, 0, wrote)
}

// Lengths that are moved, and lengths that are refused, whatever the words are.
fn lengths(found: Tally, way: Way) -> Tally {
    let mut t = found;
    for count in [0, 1, LIST_LIMIT] {
        t = t.add(length(way, count, count, 0, Ok(())));
    }
    let refused = Err((20, 0));
    for (count, room) in [
        (MOST, MOST),
        (0, 1),
        (1, 0),
        (LIST_LIMIT, LIST_LIMIT - 1),
        (LIST_LIMIT - 1, LIST_LIMIT),
        (LIST_LIMIT, MOST),
        (MOST, LIST_LIMIT),
    ] {
        t = t
            .add(length(way, count, room, 0, refused))
            .add(length(way, count, room, 0xFFFF_FFFF, refused));
    }
    t
}

// Whether the longest list is refused for the word at this place, though the last word is bad too.
fn bad_at(way: Way, place: usize, word: u32, refused: u8) -> bool {
    if LIST_LIMIT <= place {
        return false;
    }
    let mut given = [0u32; LIST_LIMIT];
    given[LIST_LIMIT - 1] = 0xFFFF_FFFF;
    given[place] = word;
    let mut lent = [LENT; LIST_LIMIT];
    (way.moved(&given, &mut lent) == Err((refused, place))) & holds(&lent, 0, 0)
}

// Old words with bit 31 set, with a rise and of degree 17; new ones of 2^30, of degree 17, and of both kinds.
fn bad_words(found: Tally) -> Tally {
    let mut t = found;
    for (way, word, refused) in [
        (Way::FromOld, 0x8000_0000, 3),
        (Way::FromOld, 0x5000_0000, 3),
        (Way::FromOld, 0x0000_4000, 4),
        (Way::ToOld, 0x4000_0000, 1),
        (Way::ToOld, 0x5FFF_F000, 1),
        (Way::ToOld, 0x3FFF_E000, 2),
    ] {
        for place in [0, 1, 2047, LIST_LIMIT - 1] {
            t = t.add(bad_at(way, place, word, refused));
        }
    }
    t
}

pub fn borders() -> Tally {
    bad_words(lengths(lengths(Tally::new(), Way::FromOld), Way::ToOld))
}
