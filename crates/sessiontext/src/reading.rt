// The first six lines of a text.
ghost use Rattle.std.specs.Prelude.{◌≡◌};
ghost use Rattle.theory.specs.Basics.{same};
ghost use Rattle.text.specs.Text.{decimal, field};
ghost use Rattle.sessiontext.specs.Private.Read.{ReadHead};

use super::{numbers, partitions};
use pages::{PLAIN, Slip};
use text::fields;

// What the first lines of a text tell: the slip, and where they end.
#[derive(Clone, Copy)]
pub struct FirstLines {
    pub slip: Slip,
    pub end: usize,
}

// Whether a line is that of the number of lines.
fn counts(line: &[u8], count: usize) -> bool
    ensures { result ≡ same line.now (field "lines=" (decimal count)) }
{
    let mut own = [0u8; 32];
    let end = fields::line(b"lines=", count as u64, &mut own, 0);
    check::same(line, &own[..end])
}

// The first six lines, or the first of them that is at fault. A degree that is not the shape's is the degree's fault.
pub fn head(text: &[u8]) -> Result<FirstLines, usize>
    ensures { ReadHead text.now result }
{
    let shape_at = textreading::line_end(text, 0);
    let class_at = textreading::line_end(text, shape_at);
    let steps_at = textreading::line_end(text, class_at);
    let settled_at = textreading::line_end(text, steps_at);
    let count_at = textreading::line_end(text, settled_at);
    let end = textreading::line_end(text, count_at);
    let degree = numbers::number(b"degree=", &text[..shape_at]).ok_or(1usize)?;
    let shape = partitions::shape(&text[shape_at..class_at]).ok_or(2usize)?;
    if degree != shape.degree {
        return Err(1);
    }
    let class = partitions::class(&text[class_at..steps_at]).ok_or(3usize)?;
    let steps = numbers::steps(&text[steps_at..settled_at]).ok_or(4usize)?;
    let settled = numbers::settled(&text[settled_at..count_at]).ok_or(5usize)?;
    let lines = textreading::line_count(&text[end..]);
    if !counts(&text[count_at..end], lines) {
        return Err(6);
    }
    Ok(FirstLines {
        slip: Slip {
            shape: shape.word,
            class,
            settled,
            lines,
            steps,
            mode: PLAIN,
        },
        end,
    })
}
