// Whole numbers with room: where an answer would have none, it is 0.
ghost use Rattle.std.specs.Prelude.{◌≡◌};
ghost use Rattle.testing.specs.Numbers.{natural_of, factorial_of, has_room, sum_of};

// The greatest number whose factorial has room in 64 bits.
const MOST: u8 = 20;

// Two numbers between these have room for their sum.
const LOW: i64 = -0x4000_0000_0000_0000;

const HIGH: i64 = 0x4000_0000_0000_0000;

// A number that is not negative, and 0 for one that is.
pub fn natural(number: i64) -> u64
    ensures { result ≡ natural_of number }
{
    u64::try_from(number).unwrap_or(0)
}

// n!, and 0 above 20.
pub fn factorial(n: u8) -> u64
    ensures { result ≡ factorial_of n }
{
    if MOST < n {
        return 0;
    }
    let mut product = 1u64;
    for i in 1..=n {
        product *= u64::from(i);
    }
    product
}

// Whether a number lies between -2^62 and 2^62.
fn has_room(z: i64) -> bool
    ensures { result ≡ has_room z }
{
    (LOW < z) & (z < HIGH)
}

// A sum, and 0 where one of the two has no room for it.
pub fn sum(x: i64, y: i64) -> i64
    ensures { result ≡ sum_of x y }
{
    if has_room(x) & has_room(y) { x + y } else { 0 }
}
