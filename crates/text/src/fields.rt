// Lines of a name, a value and a newline (see `writing`).
ghost use Rattle.text.specs.Text.{text_line};
ghost use Rattle.text.specs.Wrote.{Wrote};

use super::{Written, writing};

pub fn line<T: Written>(name: &[u8], value: T, out: &mut [u8], at: usize) -> usize
    ensures { Wrote (text_line name.now (T.text value)) at out.old result out.new }
{
    let end = writing::put(name, out, at);
    let end = value.write(out, end);
    writing::byte(b'\n', out, end)
}
