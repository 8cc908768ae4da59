// The table of a degree, as text in lent bytes (see `text::writing`).
ghost use Rattle.std.specs.Prelude.{◌≡◌, [], ◌≤◌, ◌<◌};
ghost use Rattle.theory.specs.Basics.{length, get_or, joined};
ghost use Rattle.theory.specs.Listing.{listing};
ghost use Rattle.theory.specs.Limits.{degree_limit};
ghost use Rattle.text.specs.Wrote.{Wrote};
ghost use Rattle.tabletext.specs.Table.{class_text, class_lines, table as tableText};

use text::fields;

// The number of partitions of a degree.
fn count(degree: u32) -> u32
    requires { degree ≤ degree_limit }
    ensures { result ≡ length (listing degree) }
{
    listing::section(degree).unwrap().count as u32
}

// The lines of a class: its parts, its number of elements, its column.
fn lines(class: &[u8], size: u64, column: &[i64], out: &mut [u8], at: usize) -> usize
    ensures { Wrote (class_text class.now size column.now)
        at out.old result out.new }
{
    let end = fields::line(b"class=", class, out, at);
    let end = fields::line(b"size=", size, out, end);
    fields::line(b"values=", column, out, end)
}

// The lines of the class of a rank.
fn class(degree: u32, rank: u32, out: &mut [u8], at: usize) -> usize
    requires degree_le_degree_limit { degree ≤ degree_limit }
    requires rank_in_bounds { rank < length (listing degree) }
    ensures { Wrote (class_lines (get_or (listing degree) rank [])) at out.old result out.new }
{
    let class = listing::class_at(degree, rank).unwrap();
    let mut parts = [0u8; words::LIMIT as usize];
    let count = words::classes::parts(class, &mut parts).unwrap();
    let size = words::classes::size(class).unwrap();
    let mut values = [0i64; listing::MOST_PARTITIONS];
    let length = classcolumns::column(class, &mut values).unwrap();
    lines(&parts[..count], size as u64, &values[..length], out, at)
}

// The lines of all classes, in the order of the listing.
fn classes(degree: u32, count: u32, out: &mut [u8], at: usize) -> usize
    requires degree_le_degree_limit { degree ≤ degree_limit }
    requires count_value { count ≡ length (listing degree) }
    ensures { Wrote (joined class_lines (listing degree)) at out.old result out.new }
{
    let mut end = at;
    for rank in 0..count {
        end = class(degree, rank, out, end);
    }
    end
}

pub fn table(degree: u32, out: &mut [u8], at: usize) -> usize
    requires { degree ≤ degree_limit }
    ensures { Wrote (tableText degree (listing degree)) at out.old result out.new }
{
    let count = count(degree);
    let end = fields::line(b"degree=", degree as u64, out, at);
    let end = fields::line(b"count=", count as u64, out, end);
    let end = classes(degree, count, out, end);
    fields::line(b"end=", count as u64, out, end)
}
