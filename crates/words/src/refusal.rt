// Why a call is refused, by its number (document 01, the table and "Order"; document 02, each request's refusals).
ghost use Rattle.std.specs.Prelude.{◌≡◌};
ghost use Rattle.words.specs.Answers.{number_of};

// The names are those of the header for C.
#[derive(Clone, Copy, Debug, PartialEq, Eq)]
pub enum Refusal {
    BadShape = 1,
    ShapeTooLarge = 2,
    BadClass = 3,
    ClassTooLarge = 4,
    DegreesDiffer = 5,
    PageTooLong = 6,
    NotSound = 7,
    NoSuchLine = 8,
    NoSuchCycle = 9,
    PageFull = 10,
    NoSuchRank = 11,
    DegreeTooLarge = 12,
    BadInput = 13,
    ColumnTooShort = 14,
    NoSuchKind = 15,
    BadText = 16,
    BufferTooShort = 17,
    StripTooShort = 18,
    NotThatPreview = 19,
    BadLengths = 20,
    BadCoefficients = 21,
}

impl Refusal {
    // Its number.
    pub fn number(self) -> u8
        ensures { result ≡ number_of self }
    {
        self as u8
    }
}
