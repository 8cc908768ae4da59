// The page of a session (document 01, "Slip and page"): a line goes, later lines move down, hook lines come at the end.
ghost use Rattle.std.specs.Prelude.{◌≡◌, ◌+◌, ◌<◌, ◌≤◌};
ghost use Rattle.std.proofs.lemmas.List.Edits.{sets};
ghost use Rattle.theory.specs.Basics.{length, take, same};
ghost use Rattle.sessions.specs.Private.Pages.{Exchanges, exchanged, taken_out};

// A line is taken out, later lines move down by one, and the word that is freed becomes 0.
fn take_out(page: &mut [u64], line: usize, lines: usize)
    requires { (line < lines) × (lines ≤ length page.old) }
    ensures { page.new ≡ taken_out page.old line lines }
{
    page.copy_within(line + 1..lines, line);
    page[lines - 1] = 0;
}

// A strip of lines is put at a place that has room for them.
pub fn write_strip(page: &mut [u64], at: usize, strip: &[u64])
    requires { at + length strip.now ≤ length page.old }
    ensures { page.new ≡ sets page.old at strip.now }
{
    page[at..at + strip.len()].copy_from_slice(strip);
}

// Whether a strip begins with these words.
pub fn begins(strip: &[u64], words: &[u64]) -> bool
    ensures { result ≡ same words.now (take (length words.now) strip.now) }
{
    strip.starts_with(words)
}

// A line of a page whose other words are 0 is taken out, and a strip of lines is put at the end of the others.
pub fn exchange(page: &mut [u64], line: usize, lines: usize, strip: &[u64])
    requires { Exchanges page.old line lines strip.now }
    ensures { page.new ≡ exchanged page.old line lines strip.now }
{
    take_out(page, line, lines);
    write_strip(page, lines - 1, strip);
}
