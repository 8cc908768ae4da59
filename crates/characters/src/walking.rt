// The character by hooks (document 01, "The character"): the value of a word walks its hooks, and the hook walk asks
// for the value of each smaller word. The degree of the shape falls; once it is 4 or less, the value stands in a row of
// a table (document 02, P4), and once the class is (1^n), it is Frobenius's quotient (P10): the steps (ii) and (iii) of
// document 000.
ghost use Rattle.std.specs.Prelude.{◌≡◌, ◌<◌, ◌^◌};
ghost use Rattle.theory.specs.Partition.{degree};
ghost use Rattle.theory.specs.Digits.{width};
ghost use Rattle.theory.specs.ShapeWord.{shape_of};
ghost use Rattle.theory.specs.ClassWord.{class_of};
ghost use Rattle.theory.specs.Character.{◌on◌};
ghost use Rattle.theory.specs.Bounds.Laws.{largest_limit};
ghost use Rattle.characters.specs.Private.Evaluation.{Evaluable};
ghost use Rattle.characters.specs.Private.SmallTables.{table_limit, RowOf, cycles_left};

use super::small_tables::ROW;
use super::{evaluation, frobenius, small_tables};

// The character of a shape word on a class word of its degree, with the row at hand of the table that it may end in.
#[cycle(hook_walk_value)]
fn value(row: &[i64; ROW], shape: u32, class: u32) -> i64
    requires class_bound { (class < 2 ^ width) × Evaluable largest_limit shape (class_of class) }
    requires row_of { RowOf row.now (cycles_left (class_of class)) }
    ensures { result ≡ shape_of shape on class_of class }
{
    if small_tables::small(class) {
        let rank = small_tables::shape_rank(shape);
        return row[rank];
    }
    if frobenius::is_identity(class) {
        return frobenius::quotient(shape, 31 - u32::trailing_zeros(class));
    }
    hook_walk(row, shape, class)
}

// The same of a degree above 4: the signed sum over the hooks that are as long as the longest cycle.
#[cycle(hook_walk_value)]
pub fn hook_walk(row: &[i64; ROW], shape: u32, class: u32) -> i64
    requires class_bound { (class < 2 ^ width) × Evaluable largest_limit shape (class_of class) }
    requires row_of { RowOf row.now (cycles_left (class_of class)) × (table_limit < degree (class_of class)) }
    ensures { result ≡ shape_of shape on class_of class }
{
    let cycle = u32::leading_zeros(class);
    let rest = (class << cycle) % 0x8000_0000;
    let mut sum = 0i64;
    for hook in hooks::of(shape, cycle) {
        let number = value(row, hook.leaves, rest);
        sum = evaluation::add_signed(sum, hook.minus, number);
    }
    sum
}
