// The parts of a class word, one after the other.
ghost use Rattle.std.specs.Prelude.{◌≡◌, ◌<◌, ◌%◌, ◌^◌};
ghost use Rattle.theory.specs.ClassWord.{class_of};

// The digits of a word that are still to be read, moved up to the first.
#[derive(Drop)]
pub struct Parts {
    rest: u32,
    pub ghost below: { rest < 2 ^ 31 },
}

impl Parts {
    ghost use Rattle.words.specs.Parts.{parts_left};

    // The parts of a class word. Of any other word, how many digits it is from each one to the next, bit 31 left out.
    pub fn of(word: u32) -> Parts
        ensures digits { parts_left result ≡ class_of (word % 2 ^ 31) }
        ensures parts { word < 2 ^ 31 → parts_left result ≡ class_of word }
    {
        Parts {
            rest: word % 0x8000_0000,
        }
    }
}

impl Iterator for Parts {
    ghost use Rattle.std.specs.Iterator.{YieldsFirst, item_count};
    ghost use Rattle.words.specs.Parts.{parts_left};

    type Item = u32;

    ghost next_gives = { YieldsFirst parts_left };

    ghost remaining = { item_count parts_left };

    // Leading zeros give the next part.
    #[inline]
    fn next(&mut self) -> Option<u32> {
        if self.rest == 0 {
            return None;
        }
        let part = u32::leading_zeros(self.rest);
        self.rest = (self.rest << part) % 0x8000_0000;
        Some(part)
    }
}
