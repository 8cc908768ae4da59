// The character on (1^n) by Frobenius's quotient (document 000, formula 10; document 02, P10). Of each row, l! divided
// by the differences to the later l is the product of the lengths of its hooks. So n! is divided by the lengths of all
// hooks, which divide it: nothing on the way is above n!, and the division leaves nothing.
ghost use Rattle.std.specs.Prelude.{◌≡◌, ◌*◌, ◌^◌, ◌<◌, ◌≤◌};
ghost use Rattle.theory.specs.Basics.{length as length_of, replicate, ◌=?◌};
ghost use Rattle.theory.specs.Partition.{degree as degree_of};
ghost use Rattle.theory.specs.Digits.{width};
ghost use Rattle.theory.specs.ShapeWord.{shape_of};
ghost use Rattle.theory.specs.ClassWord.{class_of, class_word};
ghost use Rattle.theory.specs.Character.{character_degree};
ghost use Rattle.theory.specs.Hooks.{hook_words};
ghost use Rattle.theory.specs.Bounds.Laws.{largest_limit};

// Whether a class word is that of (1^n): its last one, added once more, carries through all ones before it. The word is
// below 2^31, and its last one is no more than the word.
pub fn is_identity(class: u32) -> bool
    requires { (0 < degree_of (class_of class)) × (class < 2 ^ width) }
    ensures { result ≡ (class =? class_word (replicate (degree_of (class_of class)) 1)) }
{
    class + (1u32 << u32::trailing_zeros(class)) == 0x8000_0000
}

// A product and, for each hook of a length, that length as a further factor.
fn times_lengths(product: u64, shape: u32, length: u32) -> u64
    requires within { (shape < 2 ^ width) × (0 < length) × (length < 32) }
    requires fits { product * length ^ length_of (hook_words length shape) < 2 ^ 64 }
    ensures { result ≡ product * length ^ length_of (hook_words length shape) }
{
    let mut all = product;
    for _ in hooks::of(shape, length) {
        all *= length as u64;
    }
    all
}

// The character degree of a shape word of this degree: n! divided by the lengths of all hooks.
pub fn quotient(shape: u32, degree: u32) -> i64
    requires { (shape < 2 ^ width) × (degree ≡ degree_of (shape_of shape)) × (degree ≤ largest_limit) }
    ensures { result ≡ character_degree (shape_of shape) }
{
    let mut factorial = 1u64;
    let mut lengths = 1u64;
    for length in 1..degree + 1 {
        factorial *= length as u64;
        lengths = times_lengths(lengths, shape, length);
    }
    (factorial / lengths) as i64
}
