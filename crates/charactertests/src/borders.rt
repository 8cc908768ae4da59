// The refusals of words at their borders, in the order 1, 3, 2, 4, 5.
use testing::Tally;
use words::Refusal;

// A word that is no shape, and shapes of one row; the empty one and those of 3 and 17 with a one in front.
const NO_SHAPE: u32 = 0x8000_0000;

const EMPTY_IN_FRONT: u32 = 0x4000_0000;

const SHAPE_3_IN_FRONT: u32 = 0x5C00_0000;

const SHAPE_17_IN_FRONT: u32 = 0x5FFF_F000;

const SHAPE_3: u32 = 0x3800_0000;

const SHAPE_16: u32 = 0x3FFF_C000;

const SHAPE_17: u32 = 0x3FFF_E000;

// A word that is no class, and classes of one cycle.
const NO_CLASS: u32 = 0x5000_0000;

const CLASS_3: u32 = 0x1000_0000;

const CLASS_4: u32 = 0x0800_0000;

const CLASS_16: u32 = 0x0000_8000;

const CLASS_17: u32 = 0x0000_4000;

// A shape word on a class word: the number that refuses the pair, or the character.
pub fn pairs() -> Tally {
    let mut t = Tally::new();
    for (shape, class, told) in [
        (NO_SHAPE, NO_CLASS, Err(1)),
        (NO_SHAPE, CLASS_17, Err(1)),
        (NO_SHAPE, CLASS_3, Err(1)),
        (SHAPE_17, NO_CLASS, Err(3)),
        (SHAPE_3, NO_CLASS, Err(3)),
        (SHAPE_17, CLASS_17, Err(2)),
        (SHAPE_17, CLASS_3, Err(2)),
        (SHAPE_3, CLASS_17, Err(4)),
        (SHAPE_16, CLASS_17, Err(4)),
        (SHAPE_3, CLASS_4, Err(5)),
        (SHAPE_3, 0, Err(5)),
        (0, CLASS_3, Err(5)),
        (SHAPE_3, CLASS_3, Ok(1)),
        (SHAPE_16, CLASS_16, Ok(1)),
        (SHAPE_17_IN_FRONT, NO_CLASS, Err(3)),
        (SHAPE_17_IN_FRONT, CLASS_17, Err(2)),
        (SHAPE_3_IN_FRONT, CLASS_4, Err(5)),
        (SHAPE_3_IN_FRONT, CLASS_3, Ok(1)),
        (EMPTY_IN_FRONT, 0, Ok(1)),
        (0, 0, Ok(1)),
    ] {
        t = t.add(characters::character(shape, class).map_err(Refusal::number) == told);
    }
    t
}

// A shape word alone: the number that refuses it, or its character degree and its rank.
pub fn shapes() -> Tally {
    let mut t = Tally::new();
    for (word, degree, rank) in [
        (NO_SHAPE, Err(1), Err(1)),
        (0xFFFF_FFFF, Err(1), Err(1)),
        (SHAPE_17, Err(2), Err(2)),
        (0x3FFF_FFFF, Err(2), Err(2)),
        (SHAPE_16, Ok(1), Ok(0)),
        (0x0000_4000, Ok(1), Ok(230)),
        (0x7FFF_8001, Ok(1), Ok(134)),
        (EMPTY_IN_FRONT, Ok(1), Ok(0)),
        (0, Ok(1), Ok(0)),
    ] {
        t = t
            .add(characters::character_degree(word).map_err(Refusal::number) == degree)
            .add(listing::shape_rank(word).map_err(Refusal::number) == rank);
    }
    t
}

// A class word alone: the number that refuses it, even for an empty column, or 14 for that column, and its rank.
pub fn classes() -> Tally {
    let mut t = Tally::new();
    for (word, column, rank) in [
        (NO_CLASS, Err(3), Err(3)),
        (0xFFFF_FFFF, Err(3), Err(3)),
        (CLASS_17, Err(4), Err(4)),
        (0x7FFF_FFFF, Err(4), Err(4)),
        (CLASS_16, Err(14), Ok(0)),
        (0x7FFF_8000, Err(14), Ok(230)),
        (0, Err(14), Ok(0)),
    ] {
        let mut none = [0i64; 0];
        t = t
            .add(classcolumns::column(word, &mut none).map_err(Refusal::number) == column)
            .add(listing::class_rank(word).map_err(Refusal::number) == rank);
    }
    t
}
