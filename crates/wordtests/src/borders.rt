// Every refusal at its border, with the examples E1 to E6 of document 01.
use super::columns::{Kind, MARK, holds};
use testing::Tally;
use words::{Good, Refusal};

// Whether parts are refused so, even by an empty column, and a column stays; or written, where nothing refuses them.
fn parts_refused(kind: Kind, word: u32, refused: Option<u8>) -> bool {
    let mut none = [MARK; 0];
    let empty = kind.parts(word, &mut none);
    let mut column = [MARK; 17];
    let read = kind.parts(word, &mut column);
    let stays = (read.unwrap_or(0) == 0) & holds(&column, b"");
    let first = refused.unwrap_or(14);
    (empty == Err(first)) & (read.err() == refused) & (stays == refused.is_some())
}

// A word as a kind: its degree or the number that refuses it; and its parts.
fn as_kind(t: Tally, kind: Kind, word: u32, degree: Result<u32, u8>) -> Tally {
    t.add(kind.degree(word) == degree)
        .add(parts_refused(kind, word, degree.err()))
}

// The number that refuses a word, where one does.
fn refused<T: Drop>(told: Result<T, Refusal>) -> Option<u8> {
    told.err().map(Refusal::number)
}

fn as_shape(t: Tally, word: u32, degree: Result<u32, u8>) -> Tally {
    as_kind(t, Kind::Shape, word, degree).add(
        refused(words::shapes::conjugate(word)) == degree.err(),
    )
}

fn as_class(t: Tally, word: u32, degree: Result<u32, u8>) -> Tally {
    as_kind(t, Kind::Class, word, degree)
        .add(refused(words::classes::sign(word)) == degree.err())
        .add(refused(words::classes::size(word)) == degree.err())
        .add(refused(words::classes::period(word)) == degree.err())
}

// Words as shapes and as classes, each with its degree or the number that refuses it. E4 is the fourth, E6 the sixth
// and the eighth.
pub fn words() -> Tally {
    let mut t = Tally::new();
    for (word, shape, class) in [
        (0x3FFF_FFFF, Err(2), Err(4)),
        (0x8000_0000, Err(1), Err(3)),
        (0xFFFF_FFFF, Err(1), Err(3)),
        (0x3FFF_E000, Err(2), Err(4)),
        (0x3FFF_C000, Ok(16), Err(4)),
        (0x5000_0000, Ok(1), Err(3)),
        (0x5FFF_F000, Err(2), Err(3)),
        (0x0000_4000, Ok(16), Err(4)),
        (0x0000_8000, Ok(15), Ok(16)),
    ] {
        t = as_class(as_shape(t, word, shape), word, class);
    }
    t
}

fn left(word: u32, dropped: u32) -> Result<Good, u8> {
    Ok(Good { word, dropped })
}

// The good word of a word and the ones dropped in front, or the number that refuses it. E4 is the first and the sixth.
// The seventh is a row of 17 with a one in front.
pub fn ones_in_front() -> Tally {
    let mut t = Tally::new();
    for (word, good) in [
        (0x4000_0000, left(0, 1)),
        (0x7FFF_FFFF, left(0, 31)),
        (0x7FFF_8000, left(0, 16)),
        (0x8000_0000, Err(1)),
        (0xFFFF_FFFF, Err(1)),
        (0x3FFF_E000, Err(2)),
        (0x5FFF_F000, Err(2)),
        (0x5000_0000, left(0x2000_0000, 1)),
        (0x3FFF_C000, left(0x3FFF_C000, 0)),
        (0x7FFF_FFFD, left(0x2000_0000, 29)),
        (0, left(0, 0)),
    ] {
        t = t.add(words::shapes::good(word).map_err(Refusal::number) == good);
    }
    t
}

// Lists that have words, as shapes and as classes: the first four are E1, E5, E2 and E3.
fn lists_given(found: Tally) -> Tally {
    let lists: [(&[u8], u32, u32); 5] = [
        (b"\x03\x02", 0x2C00_0000, 0x1400_0000),
        (b"\x05\x02\x02\x01\x01\x01", 0x3910_0000, 0x0578_0000),
        (b"\x10", 0x3FFF_C000, 0x0000_8000),
        (&[1; 16], 0x0000_4000, 0x7FFF_8000),
        (b"", 0, 0),
    ];
    let mut t = found;
    for (parts, shape, class) in lists {
        t = t
            .add(Kind::Shape.word(parts) == Ok(shape))
            .add(Kind::Class.word(parts) == Ok(class));
    }
    t
}

// Lists that are refused, and by which numbers, as shapes and as classes; the last three have 300 parts.
fn lists_refused(found: Tally) -> Tally {
    let mut rising = [1; 300];
    rising[299] = 2;
    let lists: [(&[u8], u8, u8); 8] = [
        (b"\x00", 3, 3),
        (b"\x01\x02", 3, 3),
        (b"\x11", 2, 4),
        (b"\x10\x01", 2, 4),
        (&[1; 17], 2, 4),
        (&[1; 300], 2, 4),
        (&[200; 300], 2, 4),
        (&rising, 3, 3),
    ];
    let mut t = found;
    for (parts, shape, class) in lists {
        t = t
            .add(Kind::Shape.word(parts) == Err(shape))
            .add(Kind::Class.word(parts) == Err(class));
    }
    t
}

pub fn lists() -> Tally {
    lists_refused(lists_given(Tally::new()))
}
