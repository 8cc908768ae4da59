// Words there and back: parts in columns of up to seventeen entries.
use words::Refusal;

#[derive(Clone, Copy)]
pub enum Kind {
    Shape,
    Class,
}

// A refusal is told by its number.
impl Kind {
    pub fn degree(self, word: u32) -> Result<u32, u8> {
        let told = match self {
            Kind::Shape => words::shapes::degree(word),
            Kind::Class => words::classes::degree(word),
        };
        told.map_err(Refusal::number)
    }

    pub fn parts(self, word: u32, column: &mut [u8]) -> Result<usize, u8> {
        let told = match self {
            Kind::Shape => words::shapes::parts(word, column),
            Kind::Class => words::classes::parts(word, column),
        };
        told.map_err(Refusal::number)
    }

    pub fn word(self, parts: &[u8]) -> Result<u32, u8> {
        let told = match self {
            Kind::Shape => words::shapes::word(parts),
            Kind::Class => words::classes::word(parts),
        };
        told.map_err(Refusal::number)
    }
}

// What fills a column before a call: no part of any partition.
pub const MARK: u8 = 99;

// Whether parts stand at the front of a column, and marks in the rest.
pub fn holds(column: &[u8], parts: &[u8]) -> bool {
    column
        .strip_prefix(parts)
        .is_some_and(|rest| rest.iter().all(|entry| *entry == MARK))
}

// Whether a word's parts are written to a column of `room` entries, or refused where these are too few.
pub fn written(kind: Kind, word: u32, parts: &[u8], room: usize) -> bool {
    let mut all = [MARK; 17];
    let Some(column) = all.get_mut(..room) else {
        return false;
    };
    let read = kind.parts(word, column);
    let (expected, given) = if room < parts.len() {
        (Err(14), 0)
    } else {
        (Ok(parts.len()), parts.len())
    };
    (read == expected) & holds(column, &parts[..given])
}

// Whether a partition's word was made, has the degree n and fills a column of their number with the parts.
pub fn there_and_back(kind: Kind, made: Result<u32, Refusal>, parts: &[u8], n: u8) -> bool {
    made.is_ok_and(|word| {
        (kind.degree(word) == Ok(u32::from(n))) & written(kind, word, parts, parts.len())
    })
}

// Whether an empty column and one too short by one refuse a word's parts, and the rest of a longer one stays.
pub fn fit(kind: Kind, word: u32, parts: &[u8]) -> bool {
    let count = parts.len();
    [0, count.saturating_sub(1), count + 1]
        .iter()
        .all(|room| written(kind, word, parts, *room))
}
