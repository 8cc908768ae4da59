// Numbers in decimal.
ghost use Rattle.text.specs.Text.{decimal, integer};

use super::{Written, writing};

impl Written for u8 {
    ghost text = { decimal };

    fn write(self, out: &mut [u8], at: usize) -> usize {
        u64::from(self).write(out, at)
    }
}

impl Written for u64 {
    ghost text = { decimal };

    // A number of one digit or two, as most are, needs no buffer.
    fn write(self, out: &mut [u8], at: usize) -> usize {
        if self < 10 {
            return writing::byte(b'0' + self as u8, out, at);
        }
        if self < 100 {
            let end = writing::byte(b'0' + (self / 10) as u8, out, at);
            return writing::byte(b'0' + (self % 10) as u8, out, end);
        }
        let mut digits = [0u8; 20];
        let count = io::decimal(self, &mut digits);
        writing::put(&digits[..count], out, at)
    }
}

impl Written for i64 {
    ghost text = { integer };

    // A negative number has a minus in front.
    fn write(self, out: &mut [u8], at: usize) -> usize {
        let end = if self < 0 {
            writing::byte(b'-', out, at)
        } else {
            at
        };
        self.unsigned_abs().write(out, end)
    }
}
