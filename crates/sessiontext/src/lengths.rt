// How long the text of waiting lines is, told without writing it: a part takes one byte, only the longest may take two,
// and each but the last has a comma behind it.
ghost use Rattle.std.specs.Prelude.{◌≡◌, ◌≤◌, ◌<◌};
ghost use Rattle.theory.specs.Basics.{length, joined, map, Each};
ghost use Rattle.theory.specs.ShapeWord.{shape_of};
ghost use Rattle.theory.specs.ClassWord.{class_of};
ghost use Rattle.theory.specs.Limits.{degree_limit, page_limit};
ghost use Rattle.theory.specs.Refusals.Laws.{Within, WithinClass};
ghost use Rattle.text.specs.Text.{list_text};
ghost use Rattle.sessiontext.specs.SessionText.{line_text};
ghost use Rattle.sessiontext.specs.SessionText.Storable.{StorableLine};
ghost use Rattle.sessiontext.specs.Private.Lengths.{list_length};
ghost use Rattle.pages.specs.Page.{line_of};

// What a waiting line has beside its lists.
const REST: usize = 9;

// Of a list of parts, by their number and the longest of them.
fn list(count: u32, longest: u32) -> usize
    requires { (0 < count) × (count ≤ 32) }
    ensures { result ≡ list_length count longest }
{
    if longest < 10 {
        return (2 * count - 1) as usize;
    }
    (2 * count) as usize
}

// Of the list of a shape: its word has a one for each cell of the longest row.
fn shape(word: u32) -> usize
    requires { Within degree_limit word }
    ensures { result ≡ length (list_text (shape_of word)) }
{
    if word == 0 {
        return 0;
    }
    let longest = u32::count_ones(word);
    list(31 - u32::trailing_zeros(word) - longest, longest)
}

// Of the list of a class: its word has a one for each cycle.
fn class(word: u32) -> usize
    requires { WithinClass degree_limit word }
    ensures { result ≡ length (list_text (class_of word)) }
{
    if word == 0 {
        return 0;
    }
    list(u32::count_ones(word), u32::leading_zeros(word))
}

// Of the line of text for a waiting line.
fn line(line: u64) -> usize
    requires { StorableLine degree_limit (line_of line) }
    ensures { result ≡ length (line_text (line_of line)) }
{
    let rows = shape(linewords::shape(line));
    let cycles = class(linewords::class(line));
    REST + rows + cycles
}

// Of the lines of text for waiting lines.
pub fn all(lines: &[u64]) -> usize
    requires { Each (StorableLine degree_limit) (map line_of lines.now) × (length lines.now ≤ page_limit) }
    ensures { result ≡ length (joined line_text (map line_of lines.now)) }
{
    let mut long = 0;
    for word in lines {
        long += line(*word);
    }
    long
}
