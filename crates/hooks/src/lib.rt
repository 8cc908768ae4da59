// The hooks of a shape word (document 01, "Hook of length h"), found by a mask. A hook has a zero, and a one as many
// places below it as it is long; its stretch is the digits behind the zero, down to the one. `of` goes over the hooks
// of one length, in order. Every call takes every input.

#![tactic(auto)]

ghost use Rattle.std.specs.Prelude.{◌≡◌, ◌<◌, ◌^◌};
ghost use Rattle.theory.specs.Basics.{pos, signed};
ghost use Rattle.theory.specs.Digits.{width};
ghost use Rattle.theory.specs.Hooks.{hook_words};
ghost use Rattle.theory.specs.Hooks.Marks.{marks as marksOf};
ghost use Rattle.theory.specs.Hooks.Marks.Stretch.{stretch as stretch_of, zeros_odd, raised};
ghost use Rattle.hooks.specs.Marked.{marked_hooks};

use std::marker::Model;

// A hook of a shape word: whether its sign is minus, and the word that it leaves.
#[derive(Clone, Copy)]
pub struct Hook {
    pub minus: bool,
    pub leaves: u32,
}

// The hooks of a shape word that are of one length, seen as the list of those that are to come. They begin at the ones
// of `left`.
#[derive(Drop)]
pub struct Hooks {
    shape: u32,
    length: u32,
    left: u32,
}

impl Model for Hooks {
    ghost use Rattle.std.specs.Prelude.{◌<◌, ◌^◌, ℕ, List};
    ghost use Rattle.theory.specs.Digits.{width};
    ghost use Rattle.theory.specs.Hooks.{Hook};

    ghost Value = { List (Hook ℕ) };

    ghost use Rattle.hooks.specs.Marked.{marked_hooks};

    ghost view = { λ hooks. marked_hooks hooks.length hooks.shape hooks.left };

    ghost invariant = { λ hooks. hooks.left < 2 ^ width };
}

impl Iterator for Hooks {
    ghost use Rattle.std.specs.Iterator.{YieldsFirstBy, item_count};
    ghost use Rattle.hooks.specs.Marked.{hook_of};

    type Item = Hook;

    ghost next_gives = { YieldsFirstBy hook_of (λ hooks. hooks) };

    ghost remaining = { item_count (λ hooks. hooks) };

    fn next(&mut self) -> Option<Hook> {
        if self.left == 0 {
            return None;
        }
        let zero = 1u32 << (31 - u32::leading_zeros(self.left));
        let stretch = stretch(zero, self.length);
        self.left -= zero;
        Some(Hook {
            minus: minus(self.shape, stretch),
            leaves: leaves(self.shape, stretch),
        })
    }
}

// The hooks of a shape word of one length, top row first.
pub fn of(shape: u32, length: u32) -> Hooks
    ensures marked { result ≡ marked_hooks length shape (marksOf shape length) }
    ensures hooks { 0 < length → shape < 2 ^ width → result ≡ hook_words length shape }
{
    Hooks {
        shape,
        length,
        left: marks(shape, length),
    }
}

// A one at each place where a hook begins: a zero with a one `length` places below it.
pub fn marks(shape: u32, length: u32) -> u32
    ensures { result ≡ marksOf shape length }
{
    if 31 < length {
        return 0;
    }
    (!shape & (shape << length)) % 0x8000_0000
}

// The stretch of a hook of a length, from the word that has a one at the place of its zero.
pub fn stretch(zero: u32, length: u32) -> u32
    ensures { result ≡ stretch_of zero length }
{
    if 32 <= length {
        return zero;
    }
    zero - (zero >> length)
}

// Whether the hook's sign is minus: the zeros of its stretch are odd in number.
pub fn minus(shape: u32, stretch: u32) -> bool
    ensures { result ≡ zeros_odd shape stretch }
{
    u32::count_ones(!shape & stretch) % 2 == 1
}

// A sign as a number, 1 or -1.
pub fn sign(minus: bool) -> i64
    ensures { result ≡ signed minus (pos 1) }
{
    if minus { -1 } else { 1 }
}

// The word that the hook leaves: its stretch is added, which exchanges its zero and its one, and leading ones are
// shifted out.
pub fn leaves(shape: u32, stretch: u32) -> u32
    ensures { result ≡ raised shape stretch }
{
    let exchanged = ((shape as u64 + stretch as u64) % 0x1_0000_0000) as u32;
    let ones = u32::leading_zeros(!(exchanged << 1));
    (exchanged << ones) % 0x8000_0000
}
