// A column of coefficients, one beside each word of a page.
ghost use Rattle.std.specs.Prelude.{◌≡◌, ◌≤◌, ◌-◌, pos, ◌++◌};
ghost use Rattle.theory.specs.Basics.{length, replicate};

// The column of a session that is opened: the coefficient of its line, where one waits, is 1, and all others are 0.
pub fn begin(column: &mut [i64], lines: usize)
    requires { (lines ≤ 1) × (lines ≤ length column.old) }
    ensures { column.new
        ≡ replicate lines (pos 1) ++ replicate (length column.old - lines) (pos 0) }
{
    clearing::clear(column, 0);
    if lines == 1 {
        column[0] = 1;
    }
}
