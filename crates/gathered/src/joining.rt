// How hook lines are joined to the lines of a page (document 02, P7, "equal lines are joined at the earliest"). Neither
// two lines nor two hook lines are equal, so each line has at most one hook line that comes to it: the places are found
// first, all coefficients are added, one pass takes out the lines that became 0, and the new lines come at the end.
ghost use Rattle.std.specs.Prelude.{◌≡◌, ◌+◌, ◌≤◌, ◌<◌, ◌^◌, nat_abs};
ghost use Rattle.std.proofs.lemmas.List.Edits.{sets};
ghost use Rattle.theory.specs.Basics.{map, length};
ghost use Rattle.theory.specs.Limits.{degree_limit};
ghost use Rattle.words.specs.Answers.{Outcome};
ghost use Rattle.gathered.specs.Private.Joining.{place, Small, saved_at, saved_by, raised, picked, kept, stayed};
ghost use Rattle.gathered.specs.Private.Joining.{putting, Joinable, Joins, next_of, joined_onto};

// The place of the first word of a page that is equal to a word, and the number of words where none is.
fn find(page: &[u64], word: u64) -> usize
    ensures { result ≡ place page.now word }
{
    page.iter()
        .position(|&other| other == word)
        .unwrap_or(page.len())
}

// The places of words on a page, to the front of `places`, which has room.
fn find_all(page: &[u64], words: &[u64], places: &mut [usize])
    requires { length words.now ≤ length places.old }
    ensures { places.new
        ≡ sets places.old 0 (map (place page.now) words.now) }
{
    for (j, &word) in words.iter().enumerate() {
        places[j] = find(page, word);
    }
}

// How many lines a hook line at this place spares: none where it is new, itself where it is joined to a line, and that
// line too where its coefficient becomes 0.
fn saved(column: &[i64], place: usize, weight: i64) -> usize
    requires { Small 1 column.now × (nat_abs weight < 2 ^ 58) }
    ensures { result ≡ saved_at column.now place weight }
{
    if column.len() <= place {
        return 0;
    }
    if column[place] + weight == 0 {
        return 2;
    }
    1
}

// How many lines all hook lines spare.
fn saved_by_all(column: &[i64], places: &[usize], weights: &[i64]) -> usize
    requires { (length places.now ≡ length weights.now) × (length weights.now ≤ degree_limit)
        × Small 1 column.now × Small 1 weights.now }
    ensures { result ≡ saved_by column.now places.now weights.now }
{
    let mut all = 0;
    for (&place, &weight) in places.iter().zip(weights) {
        all += saved(column, place, weight);
    }
    all
}

// Each weight is added to the coefficient at its place, where there is one.
fn raise(column: &mut [i64], places: &[usize], weights: &[i64])
    requires { (length places.now ≡ length weights.now) × (length weights.now ≤ degree_limit)
        × Small 1 column.old × Small 1 weights.now }
    ensures { column.new ≡ raised column.old places.now weights.now }
{
    for (&place, &weight) in places.iter().zip(weights) {
        if place < column.len() {
            column[place] += weight;
        }
    }
}

// The lines whose coefficient is not 0 come to the front, in their order; their count is the answer, and what is freed
// becomes 0.
fn squeeze(page: &mut [u64], column: &mut [i64]) -> usize
    requires { length page.old ≡ length column.old }
    ensures { Outcome (putting (kept page.old column.old) page.old
        column.old) result (page.new, column.new) }
{
    let mut to = 0;
    for from in 0..page.len() {
        let word = page[from];
        let coefficient = column[from];
        page[from] = 0;
        column[from] = 0;
        if coefficient != 0 {
            page[to] = word;
            column[to] = coefficient;
            to += 1;
        }
    }
    to
}

// The hook lines without a place come one after the other, from the line `at` on; the answer is the line after them.
fn append(
    page: &mut [u64],
    column: &mut [i64],
    at: usize,
    none: usize,
    places: &[usize],
    words: &[u64],
    weights: &[i64],
) -> usize
    requires { (length page.old ≡ length column.old) × (length places.now ≡ length words.now)
        × (length places.now ≡ length weights.now)
        × (at + length (picked none places.now words.now) ≤ length page.old) }
    ensures { (result ≡ at + length (picked none places.now words.now))
        × (page.new ≡ sets page.old at (picked none places.now words.now))
        × (column.new
        ≡ sets column.old at (picked none places.now weights.now)) }
{
    let mut next = at;
    for (j, &place) in places.iter().enumerate() {
        if place == none {
            page[next] = words[j];
            column[next] = weights[j];
            next += 1;
        }
    }
    next
}

// The lines that stay come to the front: each with the weight that comes to it, the struck line and those whose
// coefficient becomes 0 left out; their count is the answer, and what is freed becomes 0.
fn keep_lines(
    page: &mut [u64],
    column: &mut [i64],
    line: usize,
    places: &[usize],
    weights: &[i64],
) -> usize
    requires { (length page.old ≡ length column.old) × (line < length column.old)
        × (length places.now ≡ length weights.now) × (length weights.now ≤ degree_limit)
        × Small 1 column.old × Small 1 weights.now }
    ensures { Outcome (putting (stayed page.old column.old line places.now
        weights.now) page.old column.old) result (page.new, column.new) }
{
    raise(column, places, weights);
    column[line] = 0;
    squeeze(page, column)
}

// A line goes, hook lines come to the others, and those whose coefficient became 0 go; the answer is the number of
// lines that are left.
fn join(
    page: &mut [u64],
    column: &mut [i64],
    line: usize,
    lines: usize,
    places: &[usize],
    words: &[u64],
    weights: &[i64],
) -> usize
    requires { Joins page.old column.old line lines places.now words.now weights.now }
    ensures { Outcome (putting (next_of page.old column.old line lines words.now
        weights.now) page.old column.old) result (page.new, column.new) }
{
    let stay = keep_lines(
        &mut page[..lines],
        &mut column[..lines],
        line,
        places,
        weights,
    );
    append(page, column, stay, lines, places, words, weights)
}

// Hook lines, as many as a line can have, come to the lines of a page without the struck one, if there is room; the
// answer is how many lines there are.
pub fn join_hooks(
    page: &mut [u64],
    column: &mut [i64],
    line: usize,
    lines: usize,
    words: &[u64],
    weights: &[i64],
) -> Option<usize>
    requires { Joinable page.old column.old line lines words.now weights.now }
    ensures { Outcome (joined_onto page.old column.old line lines words.now
        weights.now) result (page.new, column.new) }
{
    let mut places = [0usize; words::LIMIT as usize];
    find_all(&page[..lines], words, &mut places);
    let count = words.len();
    let saved = saved_by_all(&column[..lines], &places[..count], weights);
    if page.len() + saved < lines - 1 + count {
        return None;
    }
    let left = join(page, column, line, lines, &places[..count], words, weights);
    Some(left)
}
