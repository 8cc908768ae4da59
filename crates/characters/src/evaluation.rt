// The character of a shape word on a class word (document 01, "The character"; document 02, P4 and P10): it is looked
// up in a table if the degree is 4 or less, it is Frobenius's quotient on (1^n), and else it is found by its hooks. The
// cycles are struck in one order, so all walks of an evaluation that end in a table end in one class: its row is taken
// out of the table before, and lent.
ghost use Rattle.std.specs.Prelude.{◌≡◌, ◌+◌, ◌<◌, ◌^◌, ◌+ℤ◌, nat_abs};
ghost use Rattle.theory.specs.Basics.{signed};
ghost use Rattle.theory.specs.Digits.{width};
ghost use Rattle.theory.specs.ShapeWord.{shape_of};
ghost use Rattle.theory.specs.ClassWord.{class_of};
ghost use Rattle.theory.specs.Character.{◌on◌};
ghost use Rattle.theory.specs.Bounds.Laws.{largest_limit};
ghost use Rattle.characters.specs.Private.Evaluation.{Evaluable};

use super::{frobenius, small_tables, walking};

// A sum with one number more, its sign turned where `minus` says so.
pub fn add_signed(sum: i64, minus: bool, number: i64) -> i64
    requires { nat_abs sum + nat_abs number < 2 ^ 63 }
    ensures { result ≡ sum +ℤ signed minus number }
{
    if minus { sum - number } else { sum + number }
}

// The character of a shape word on a class word of its degree. The longest cycle is struck first.
pub fn value(shape: u32, class: u32) -> i64
    requires { (class < 2 ^ width) × Evaluable largest_limit shape (class_of class) }
    ensures { result ≡ shape_of shape on class_of class }
{
    if small_tables::small(class) {
        return small_tables::look(shape, class);
    }
    if frobenius::is_identity(class) {
        return frobenius::quotient(shape, 31 - u32::trailing_zeros(class));
    }
    let row = small_tables::last_row(class);
    walking::hook_walk(&row, shape, class)
}
