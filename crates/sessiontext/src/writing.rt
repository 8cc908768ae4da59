// The text of a session in lent bytes (see `text::writing`).
ghost use Rattle.std.specs.Prelude.{◌≡◌, true, ◌++◌};
ghost use Rattle.theory.specs.Basics.{joined, map, Each};
ghost use Rattle.theory.specs.Partition.{degree as degree_of};
ghost use Rattle.theory.specs.ShapeWord.{shape_of};
ghost use Rattle.theory.specs.ClassWord.{class_of};
ghost use Rattle.theory.specs.Limits.{degree_limit};
ghost use Rattle.theory.specs.Refusals.Laws.{Within, WithinClass};
ghost use Rattle.text.specs.Text.{decimal, list_text, field};
ghost use Rattle.text.specs.Wrote.{Wrote};
ghost use Rattle.sessiontext.specs.SessionText.{held, sign_text, line_text, session_text};
ghost use Rattle.sessiontext.specs.SessionText.Laws.{asked_text, reached_text, behind_text};
ghost use Rattle.sessiontext.specs.SessionText.Storable.{StorableLine, Forward, Storable};
ghost use Rattle.pages.specs.Page.{line_of};

use pages::Slip;
use text::{Written, fields, writing};

// How many bytes are enough for the text of a waiting line.
pub const LINE_ROOM: usize = 72;

fn sign(minus: bool, out: &mut [u8], at: usize) -> usize
    ensures { Wrote (sign_text minus) at out.old result out.new }
{
    if minus {
        return writing::byte(45, out, at);
    }
    writing::byte(43, out, at)
}

// What stands behind the weight of a waiting line: shape and class, a semicolon in front of each, and the newline.
fn behind(shape: &[u8], class: &[u8], out: &mut [u8], at: usize) -> usize
    ensures { Wrote (behind_text shape.now class.now)
        at out.old result out.new }
{
    let end = writing::byte(59, out, at);
    let end = shape.write(out, end);
    let end = writing::byte(59, out, end);
    let end = class.write(out, end);
    writing::byte(10, out, end)
}

// What stands behind the weight of a waiting line, by the line's word.
pub fn words_behind(line: u64, out: &mut [u8], at: usize) -> usize
    requires { Within degree_limit (line_of line).shape × WithinClass degree_limit (line_of line).class }
    ensures { Wrote (behind_text (shape_of (line_of line).shape) (class_of (line_of line).class))
        at out.old result out.new }
{
    let mut shape = [0u8; 16];
    let rows = words::shapes::parts(linewords::shape(line), &mut shape).unwrap();
    let mut class = [0u8; 16];
    let cycles = words::classes::parts(linewords::class(line), &mut class).unwrap();
    behind(&shape[..rows], &class[..cycles], out, at)
}

// The line of text for a waiting line.
pub fn line(line: u64, out: &mut [u8], at: usize) -> usize
    requires { StorableLine degree_limit (line_of line) }
    ensures { Wrote (line_text (line_of line)) at out.old result out.new }
{
    let end = writing::put(b"line=", out, at);
    let end = sign(linewords::minus(line), out, end);
    words_behind(line, out, end)
}

// The lines of text for waiting lines.
fn all(lines: &[u64], out: &mut [u8], at: usize) -> usize
    requires { Each (StorableLine degree_limit) (map line_of lines.now) }
    ensures { Wrote (joined line_text (map line_of lines.now))
        at out.old result out.new }
{
    let mut end = at;
    for word in lines {
        end = line(*word, out, end);
    }
    end
}

fn shape(word: u32, out: &mut [u8], at: usize) -> usize
    requires { Within degree_limit word }
    ensures { Wrote (field "shape=" (list_text (shape_of word))) at out.old result out.new }
{
    let mut parts = [0u8; 16];
    let count = words::shapes::parts(word, &mut parts).unwrap();
    fields::line(b"shape=", &parts[..count], out, at)
}

fn class(word: u32, out: &mut [u8], at: usize) -> usize
    requires { WithinClass degree_limit word }
    ensures { Wrote (field "class=" (list_text (class_of word))) at out.old result out.new }
{
    let mut parts = [0u8; 16];
    let count = words::classes::parts(word, &mut parts).unwrap();
    fields::line(b"class=", &parts[..count], out, at)
}

// The degree of a shape, as a line of text.
fn degree(word: u32, out: &mut [u8], at: usize) -> usize
    requires { Within degree_limit word }
    ensures { Wrote (field "degree=" (decimal (degree_of (shape_of word))))
        at out.old result out.new }
{
    let degree = words::shapes::degree(word).unwrap();
    fields::line(b"degree=", degree as u64, out, at)
}

// What was asked for.
fn asked(slip: Slip, out: &mut [u8], at: usize) -> usize
    requires { Within degree_limit slip.shape × WithinClass degree_limit slip.class }
    ensures { Wrote (asked_text slip) at out.old result out.new }
{
    let end = degree(slip.shape, out, at);
    let end = shape(slip.shape, out, end);
    class(slip.class, out, end)
}

// What was reached, with so many lines waiting.
fn reached(slip: Slip, lines: usize, out: &mut [u8], at: usize) -> usize
    requires { Forward slip.steps × (held slip.settled ≡ true) }
    ensures { Wrote (reached_text slip lines) at out.old result out.new }
{
    let end = fields::line(b"steps=", slip.steps as u64, out, at);
    let end = fields::line(b"settled=", slip.settled, out, end);
    fields::line(b"lines=", lines as u64, out, end)
}

// The first six lines, with so many lines waiting.
pub fn head(slip: Slip, lines: usize, out: &mut [u8], at: usize) -> usize
    requires within { Within degree_limit slip.shape × WithinClass degree_limit slip.class }
    requires forward { Forward slip.steps × (held slip.settled ≡ true) }
    ensures { Wrote (asked_text slip ++ reached_text slip lines) at out.old result out.new }
{
    let end = asked(slip, out, at);
    reached(slip, lines, out, end)
}

// The text of a session.
pub fn session(slip: Slip, lines: &[u64], out: &mut [u8], at: usize) -> usize
    requires { Storable degree_limit slip (map line_of lines.now) }
    ensures { Wrote (session_text slip (map line_of lines.now))
        at out.old result out.new }
{
    let end = head(slip, lines.len(), out, at);
    all(lines, out, end)
}
