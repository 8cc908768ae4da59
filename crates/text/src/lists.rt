// Lists of numbers, set apart by commas.
ghost use Rattle.std.specs.Prelude.{map};
ghost use Rattle.text.specs.Text.{commas};

use super::{Written, writing};

impl<T: Written> Written for &[T] {
    ghost text = { λ values. commas (map T.text values.now) };

    fn write(self, out: &mut [u8], at: usize) -> usize {
        let mut end = at;
        for (i, value) in self.iter().enumerate() {
            if i != 0 {
                end = writing::byte(b',', out, end);
            }
            end = value.write(out, end);
        }
        end
    }
}
