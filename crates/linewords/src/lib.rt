// A waiting line as a word (document 01, "Slip and page"): a signed shape word and a class word in one word of 64 bits.
// Every call takes every input.

#![tactic(auto)]

ghost use Rattle.std.specs.Prelude.{◌≡◌, ◌%◌, ◌^◌};
ghost use Rattle.theory.specs.Digits.{bit};
ghost use Rattle.linewords.specs.Word.{line_of, word_of, plain};

// Whether the sign is minus.
pub fn minus(line: u64) -> bool
    ensures { result ≡ bit 63 line }
{
    (line >> 63) % 2 == 1
}

// The shape word, without the sign.
pub fn shape(line: u64) -> u32
    ensures { result ≡ (line_of line).shape }
{
    ((line >> 32) % 0x8000_0000) as u32
}

pub fn class(line: u64) -> u32
    ensures { result ≡ (line_of line).class }
{
    (line % 0x1_0000_0000) as u32
}

// A line of this sign, shape word and class word; bit 31 of the shape word, where the sign goes, is left out.
pub fn word(minus: bool, shape: u32, class: u32) -> u64
    ensures { result ≡ word_of (plain minus (shape % 2 ^ 31) class) }
{
    let plus = (shape % 0x8000_0000) as u64 * 0x1_0000_0000 + class as u64;
    if minus {
        plus + 0x8000_0000_0000_0000
    } else {
        plus
    }
}
