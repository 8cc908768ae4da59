// The places of shape words: a column's table keeps a number for each shape at the place of its word, and no two words
// have one place.
ghost use Rattle.std.specs.Prelude.{◌≡◌, true, ◌<◌, ◌≤◌, map};
ghost use Rattle.theory.specs.ShapeWord.{good_shape, shape_word};
ghost use Rattle.theory.specs.Listing.{listing};
ghost use Rattle.theory.specs.Limits.{degree_limit};
ghost use Rattle.listing.specs.Private.Tables.{shape_words};
ghost use Rattle.classcolumns.specs.Private.Displacements.{displacement_table};
ghost use Rattle.classcolumns.specs.Private.Places.{place_of, place_count};

use super::tables::{DISPLACEMENTS, EIGHT_DIGITS};

// What a column goes by: the words of all shapes, in listing order, and the displacements that tell the place of each.
// Both are lent: a constant would be made anew at each use.
#[derive(Clone, Copy)]
pub struct Places<'a> {
    pub words: &'a [u32],
    pub displacements: &'a [u16],
    ghost listed: { words.now ≡ shape_words },
    ghost told: { displacements.now ≡ displacement_table },
}

impl<'a> Places<'a> {
    // The words of the shapes of a degree, in listing order.
    pub fn words_of(self, degree: u32) -> &'a [u32]
        requires { degree ≤ degree_limit }
        ensures { result.now ≡ map shape_word (listing degree) }
    {
        let section = listing::section(degree).unwrap();
        &self.words[section.start..section.start + section.count]
    }

    // The place of a shape word.
    pub fn place(self, word: u32) -> usize
        requires { good_shape word ≡ true }
        ensures { (result ≡ place_of word) × (result < place_count) }
    {
        let high = (word >> 22) as usize;
        let low = (word >> 14) as usize % EIGHT_DIGITS;
        usize::from(self.displacements[high]) + low
    }
}

pub fn displacements() -> [u16; EIGHT_DIGITS]
    ensures { result ≡ displacement_table }
{
    DISPLACEMENTS
}
