// What the documents tabulate of a degree.
ghost use Rattle.listing.specs.Private.Tables.{most_partitions};
ghost use Rattle.std.specs.Prelude.{◌≤◌};

// A degree from 0 to 16 and the number of its partitions.
#[derive(Clone, Copy)]
pub struct Degree {
    pub n: u32,
    pub count: u32,
    ghost within: { (1 ≤ count) × (count ≤ most_partitions) },
}

impl Degree {
    pub fn new(n: u8) -> Degree {
        Degree {
            n: u32::from(n),
            count: count(n),
        }
    }

    // The entries of a column, which stand in front.
    pub fn entries(self, column: &[i64; listing::MOST_PARTITIONS]) -> &[i64] {
        &column[..self.count as usize]
    }
}

// The number of partitions of a degree (document 01, "Listing").
fn count(degree: u8) -> u32
    ensures { (1 ≤ result) × (result ≤ most_partitions) }
{
    match degree {
        0 => 1,
        1 => 1,
        2 => 2,
        3 => 3,
        4 => 5,
        5 => 7,
        6 => 11,
        7 => 15,
        8 => 22,
        9 => 30,
        10 => 42,
        11 => 56,
        12 => 77,
        13 => 101,
        14 => 135,
        15 => 176,
        _ => 231,
    }
}

// The largest character degree (document 004, m_n for n from 1 on).
pub fn largest(degree: u32) -> i64 {
    match degree {
        1 => 1,
        2 => 1,
        3 => 2,
        4 => 3,
        5 => 6,
        6 => 16,
        7 => 35,
        8 => 90,
        9 => 216,
        10 => 768,
        11 => 2310,
        12 => 7700,
        13 => 21450,
        14 => 69498,
        15 => 292864,
        _ => 1153152,
    }
}
