// The character tables of degree 0 to 4 (document 02, P4), as document 000 kept them: one square table for each degree,
// with a row for each class and in it a number for each shape, both by their ranks. A table is made on the stack where
// it is used, so an evaluation takes the one row that it ends in out of it, and lends that.
ghost use Rattle.std.specs.Prelude.{◌≡◌, true, ◌^◌, ◌<◌, ◌≤◌};
ghost use Rattle.theory.specs.Basics.{[], length, get_or, ◌≤?◌, pos};
ghost use Rattle.theory.specs.Partition.{degree};
ghost use Rattle.theory.specs.Digits.{width};
ghost use Rattle.theory.specs.ShapeWord.{shape_of, good_shape};
ghost use Rattle.theory.specs.ClassWord.{class_of};
ghost use Rattle.theory.specs.Character.{◌on◌};
ghost use Rattle.theory.specs.Listing.{listing, rank as rank_of};
ghost use Rattle.theory.specs.Bounds.Laws.{largest_limit};
ghost use Rattle.characters.specs.Private.Evaluation.{Evaluable};
ghost use Rattle.characters.specs.Private.SmallTables.{table_limit, small_tables, SmallClass, SameColumn};
ghost use Rattle.characters.specs.Private.SmallTables.{TableRow, RowOf, cycles_left};

// The longest row has so many numbers.
pub const ROW: usize = 5;

const ZERO: [[i64; 1]; 1] = [[1]];

const ONE: [[i64; 1]; 1] = ZERO;

const TWO: [[i64; 2]; 2] = [[1, -1], [1, 1]];

const THREE: [[i64; 3]; 3] = [[1, -1, 1], [1, 0, -1], [1, 2, 1]];

const FOUR: [[i64; 5]; 5] = [
    [1, -1, 0, 1, -1],
    [1, 0, -1, 0, 1],
    [1, -1, 2, -1, 1],
    [1, 1, 0, -1, -1],
    [1, 3, 2, 3, 1],
];

// The ranks of the words of degree 0 to 4. The ones of such a word stand among its first digits: four of a class word,
// before 27 others, and five of a shape word, before 26; the first of these five is a zero. The number that they make
// says which hexadecimal digit here is its rank, the last one being that of 0. Digits that no word asks for are 0.
const SHAPE_RANKS: u64 = 0x0010_0130_0201_0240;

const CLASS_RANKS: u64 = 0x4231_3110_3120_1000;

// Whether the degree of a class word is 4 or less: it is 31 less the zeros behind the last one, and 0 if there is none.
pub fn small(class: u32) -> bool
    requires { class < 2 ^ width }
    ensures { result ≡ (degree (class_of class) ≤? table_limit) }
{
    27 <= u32::trailing_zeros(class)
}

// The rank of a shape word of degree 4 or less.
pub fn shape_rank(shape: u32) -> usize
    requires { (good_shape shape ≡ true) × (degree (shape_of shape) ≤ table_limit) }
    ensures { result ≡ rank_of (shape_of shape) }
{
    ((SHAPE_RANKS >> ((shape >> 26) * 4)) % 16) as usize
}

// The rank of a class word of degree 4 or less, whatever the order of its cycles.
fn class_rank(class: u32) -> usize
    requires { SmallClass class }
    ensures { SameColumn result (class_of class) }
{
    ((CLASS_RANKS >> ((class >> 27) * 4)) % 16) as usize
}

// The row of a rank in the table of degree 4.
fn row_of_four(rank: usize) -> [i64; ROW]
    requires { rank < 5 }
    ensures { TableRow 4 rank result }
{
    FOUR[rank]
}

// The number for a class and a shape, by their ranks, in the table of degree 3.
fn three_at(class: usize, shape: usize) -> i64
    requires { (class < 3) × (shape < 3) }
    ensures { result ≡ get_or (get_or (get_or small_tables 3 []) class []) shape (pos 0) }
{
    THREE[class][shape]
}

// The row of a rank in the table of degree 3, and zeros after it. Single numbers are read, which is quicker.
fn row_of_three(rank: usize) -> [i64; ROW]
    requires { rank < 3 }
    ensures { TableRow 3 rank result }
{
    [
        three_at(rank, 0),
        three_at(rank, 1),
        three_at(rank, 2),
        0,
        0,
    ]
}

// The number for a class and a shape, by their ranks, in the table of degree 2.
fn two_at(class: usize, shape: usize) -> i64
    requires { (class < 2) × (shape < 2) }
    ensures { result ≡ get_or (get_or (get_or small_tables 2 []) class []) shape (pos 0) }
{
    TWO[class][shape]
}

// The row of a rank in the table of degree 2, and zeros after it, read like that of degree 3.
fn row_of_two(rank: usize) -> [i64; ROW]
    requires { rank < 2 }
    ensures { TableRow 2 rank result }
{
    [two_at(rank, 0), two_at(rank, 1), 0, 0, 0]
}

// The row of a rank in the table of degree 1, which is that of degree 0 too, and zeros after it.
fn row_of_one(rank: usize) -> [i64; ROW]
    requires { rank < 1 }
    ensures { TableRow 0 rank result × TableRow 1 rank result }
{
    [ONE[rank][0], 0, 0, 0, 0]
}

// The row of a rank in the table for a class word of degree 4 or less, and zeros after it. The zeros behind the last
// one tell the degree. The compiler takes in what is called here, and so the tables on the stack; hence it may not take
// this into a caller, which would keep a table under a walk.
#[inline(never)]
fn table_row(class: u32, rank: usize) -> [i64; ROW]
    requires { SmallClass class × (rank < length (listing (degree (class_of class)))) }
    ensures { TableRow (degree (class_of class)) rank result }
{
    let zeros = u32::trailing_zeros(class);
    if zeros == 27 {
        return row_of_four(rank);
    }
    if zeros == 28 {
        return row_of_three(rank);
    }
    if zeros == 29 {
        return row_of_two(rank);
    }
    row_of_one(rank)
}

// The character of a shape word on a class word of its degree, which is 4 or less: the number at their ranks.
pub fn look(shape: u32, class: u32) -> i64
    requires { SmallClass class × Evaluable largest_limit shape (class_of class) }
    ensures { result ≡ shape_of shape on class_of class }
{
    let of_class = class_rank(class);
    let of_shape = shape_rank(shape);
    let row = table_row(class, of_class);
    row[of_shape]
}

// What is left of a class word when the longest cycles are struck until its degree is 4 or less. The loop counts no
// index: it shifts until a test holds, and a `for` over the parts would be no plainer.
fn cycles_left(class: u32) -> u32
    requires { class < 2 ^ width }
    ensures { SmallClass result × (class_of result ≡ cycles_left (class_of class)) }
{
    let mut left = class;
    while !small(left) {
        left = (left << u32::leading_zeros(left)) % 0x8000_0000;
    }
    left
}

// The row that an evaluation on a class word ends in, if it ends in a table.
pub fn last_row(class: u32) -> [i64; ROW]
    requires { class < 2 ^ width }
    ensures { RowOf result (cycles_left (class_of class)) }
{
    let left = cycles_left(class);
    table_row(left, class_rank(left))
}
