// Lines of a name and a number: what is read off each, if it is of its form. What was read is written out and compared
// with the line.
ghost use Rattle.sessiontext.specs.Private.Read.{Named, ReadNumber, ReadSigned, ReadInteger, ReadSteps};
ghost use Rattle.sessiontext.specs.Private.Read.{ReadSettled};

use text::fields;

// A line of a name and a number of 64 bits.
pub fn number(name: &[u8], line: &[u8]) -> Option<u64>
    requires { Named name.now }
    ensures { ReadNumber name.now line.now result }
{
    let number = textreading::number_in(line);
    let mut own = [0u8; 32];
    let end = fields::line(name, number, &mut own, 0);
    check::same(line, &own[..end]).then_some(number)
}

// The steps: a number that is held with a sign too.
pub fn steps(line: &[u8]) -> Option<i64>
    ensures { ReadSteps line.now result }
{
    let steps = number(b"steps=", line)?;
    i64::try_from(steps).ok()
}

// A number of this size with a sign, where 64 bits hold it.
fn signed(minus: bool, size: u64) -> Option<i64>
    ensures { ReadSigned minus size result }
{
    if minus {
        0i64.checked_sub_unsigned(size)
    } else {
        i64::try_from(size).ok()
    }
}

// The number with a sign that stands in a text, whatever its form, where 64 bits hold it.
pub fn integer_in(text: &[u8]) -> Option<i64>
    ensures { ReadInteger text.now result }
{
    let size = textreading::number_in(text);
    let minus = textreading::find(45, text, 0) < text.len();
    signed(minus, size)
}

// The settled sum.
pub fn settled(line: &[u8]) -> Option<i64>
    ensures { ReadSettled line.now result }
{
    let number = integer_in(line)?;
    let mut own = [0u8; 32];
    let end = fields::line(b"settled=", number, &mut own, 0);
    check::same(line, &own[..end]).then_some(number)
}
