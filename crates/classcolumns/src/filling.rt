// How a column is filled. The cycles are taken from the last, which is the smallest. A table
// keeps the character of every shape on the cycles taken so far, at the place of its word; the next cycle makes from
// those of one degree those of a higher one, by the hooks of its length.
ghost use Rattle.std.specs.Prelude.{◌≡◌, [], true, ◌+◌, ◌≤◌, ◌<◌};
ghost use Rattle.theory.specs.Basics.{length, drop};
ghost use Rattle.theory.specs.Partition.{degree as degree_of};
ghost use Rattle.theory.specs.ShapeWord.{good_shape};
ghost use Rattle.theory.specs.Listing.{listing};
ghost use Rattle.theory.specs.Column.{column};
ghost use Rattle.theory.specs.Limits.{degree_limit};
ghost use Rattle.theory.specs.Refusals.Laws.{Within};
ghost use Rattle.words.specs.Answers.{at_front};
ghost use Rattle.classcolumns.specs.Private.Places.{shape_places};
ghost use Rattle.characters.specs.Private.Evaluation.{hook_sum};
ghost use Rattle.classcolumns.specs.Private.Columns.{entry, entries_into, Table, Cycles, Kept};

use super::lookup::{self, Places};
use super::tables::PLACE_COUNT;

impl Places<'_> {
    // What a table has for a shape word.
    fn look(self, table: &[i64; PLACE_COUNT], word: u32) -> i64
        requires { good_shape word ≡ true }
        ensures { result ≡ entry shape_places table.now word }
    {
        table[self.place(word)]
    }

    // The signed sum over the hooks of a length of what a table has for the words that they leave.
    fn hook_sum(self, table: &[i64; PLACE_COUNT], shape: u32, length: u32) -> i64
        requires table { Table shape_places table.now }
        requires within { Within degree_limit shape × (0 < length) × (length < 32) }
        ensures { result ≡ hook_sum (entry shape_places table.now) length shape }
    {
        let mut sum = 0i64;
        for hook in hooks::of(shape, length) {
            let number = self.look(table, hook.leaves);
            sum += number * hooks::sign(hook.minus);
        }
        sum
    }

    // From the table of the cycles after the i-th, that of the cycles from the i-th on, which have this degree.
    fn lift(self, table: &mut [i64; PLACE_COUNT], cycles: &[u8], i: usize, degree: u32)
        requires i_in_bounds { (i < length cycles.now) × (degree ≡ degree_of (drop i cycles.now)) }
        requires cycles { Cycles degree_limit (drop i cycles.now) × Kept shape_places table.old (drop (i + 1) cycles.now) }
        ensures { Kept shape_places table.new (drop i cycles.now) }
    {
        let cycle = cycles[i] as u32;
        for word in self.words_of(degree) {
            let number = self.hook_sum(table, *word, cycle);
            table[self.place(*word)] = number;
        }
    }

    // From the table of no cycles that of all of them.
    fn fill(self, table: &mut [i64; PLACE_COUNT], cycles: &[u8])
        requires cycles { Cycles degree_limit cycles.now × Kept shape_places table.old [] }
        ensures { Kept shape_places table.new cycles.now }
    {
        let mut degree = 0u32;
        for i in (0..cycles.len()).rev() {
            degree += cycles[i] as u32;
            self.lift(table, cycles, i, degree);
        }
    }

    // What a table has for the shapes of a degree, in listing order, to the front of a column that has room.
    fn copy_out(self, table: &[i64; PLACE_COUNT], degree: u32, values: &mut [i64])
        requires degree_small { degree ≤ degree_limit }
        requires degree_in_bounds { length (listing degree) ≤ length values.old }
        ensures { values.new ≡ entries_into shape_places table.now degree values.old }
    {
        for (i, word) in self.words_of(degree).iter().enumerate() {
            values[i] = self.look(table, *word);
        }
    }
}

// The column of a class of this degree to the front of `values`, which has room. In the table of no cycles the empty
// shape has 1. That is not put in by a function that makes the table: the compiler would move the table then.
pub fn write(cycles: &[u8], degree: u32, values: &mut [i64])
    requires cycles { Cycles degree_limit cycles.now × (degree ≡ degree_of cycles.now) }
    requires degree_in_bounds { length (listing degree) ≤ length values.old }
    ensures { values.new ≡ at_front (column cycles.now) values.old }
{
    let words = listing::shape_words();
    let displacements = lookup::displacements();
    let places = Places {
        words: &words,
        displacements: &displacements,
    };
    let mut table = [0i64; PLACE_COUNT];
    table[places.place(0)] = 1;
    places.fill(&mut table, cycles);
    places.copy_out(&table, degree, values);
}
