// Waiting lines with coefficients as text, and the text of a gathered session (document 02, P7: "the coefficient, with
// a minus where it is negative, in place of the sign").
ghost use Rattle.std.specs.Prelude.{◌≡◌};
ghost use Rattle.theory.specs.Basics.{length, joined, Each};
ghost use Rattle.theory.specs.Limits.{degree_limit};
ghost use Rattle.text.specs.Wrote.{Wrote};
ghost use Rattle.pages.specs.Mode.{weighted, alongside};
ghost use Rattle.sessiontext.specs.SessionText.{gathered_form, line_text_by, session_text_by};
ghost use Rattle.sessiontext.specs.SessionText.Faithful.Gathered.{gathered-faithful};
ghost use Rattle.sessiontext.specs.SessionText.Storable.{StorableLineBy, StorableBy};

use super::writing;
use pages::Slip;
use text::Written;

// How many bytes are enough for the text of a waiting line.
pub const LINE_ROOM: usize = 91;

// The line of text for a waiting line.
pub fn line(line: u64, coefficient: i64, out: &mut [u8], at: usize) -> usize
    requires { StorableLineBy gathered-faithful degree_limit (weighted line coefficient) }
    ensures { Wrote (line_text_by gathered_form (weighted line coefficient))
        at out.old result out.new }
{
    let end = text::writing::put(b"line=", out, at);
    let end = coefficient.write(out, end);
    writing::words_behind(line, out, end)
}

// The lines of text for waiting lines.
fn all(lines: &[u64], coefficients: &[i64], out: &mut [u8], at: usize) -> usize
    requires { (length lines.now ≡ length coefficients.now)
        × Each (StorableLineBy gathered-faithful degree_limit) (alongside lines.now coefficients.now) }
    ensures { Wrote (joined (line_text_by gathered_form)
        (alongside lines.now coefficients.now)) at out.old result out.new }
{
    let mut end = at;
    for (i, &word) in lines.iter().enumerate() {
        end = line(word, coefficients[i], out, end);
    }
    end
}

// The text of a session.
pub fn session(slip: Slip, lines: &[u64], coefficients: &[i64], out: &mut [u8], at: usize) -> usize
    requires { (length lines.now ≡ length coefficients.now)
        × StorableBy gathered-faithful degree_limit slip (alongside lines.now coefficients.now) }
    ensures { Wrote (session_text_by gathered_form slip
        (alongside lines.now coefficients.now)) at out.old result out.new }
{
    let end = text::writing::put(b"mode=gathered\n", out, at);
    let end = writing::head(slip, lines.len(), out, end);
    all(lines, coefficients, out, end)
}
