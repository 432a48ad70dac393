// Where the telling of a payload starts, by its tag: the tag's first row, and the form that most of its payloads have. Most nodes have a form, and are
// told without going from row to row. Where a payload may have two lengths, the longer one has the form. proofs/Forms.antt proves that the forms say
// what the rows say.
ghost use Rattle.std.specs.Prelude.{◌≡◌};
ghost use Rattle.meaning.specs.Grammar.{is_program};
ghost use Rattle.tree.specs.Rows.{start_of};
ghost use Rattle.tree.specs.Starts.{Right};

// So many bytes: a first word from `low` to `high`, any words, and at the end `children` expressions.
#[derive(Clone, Copy)]
pub(crate) struct Form {
    pub(crate) size: usize,
    pub(crate) low: usize,
    pub(crate) high: usize,
    pub(crate) children: usize,
}

#[derive(Clone, Copy)]
pub(crate) struct Start {
    pub(crate) row: usize,
    pub(crate) form: Option<Form>,
}

macro_rules! by_rows {
    ($row:literal) => {
        Start { row: $row, form: None }
    };
}

macro_rules! form {
    ($row:literal, $size:literal, $low:literal..=$high:literal, $children:literal) => {
        Start { row: $row, form: Some(Form { size: $size, low: $low, high: $high, children: $children }) }
    };
}

// The start of each tag but a program's, from 00 on; row 0 for a number that is no tag.
static STARTS: [Start; 30] = [
    // 00: no tag
    by_rows!(0),
    // 01 number
    form!(2, 8, 0..=65535, 0),
    // 02 text
    form!(6, 2, 0..=65535, 0),
    // 03 other literal
    form!(7, 2, 0..=65535, 0),
    // 04 variable
    form!(8, 4, 0..=65534, 0),
    // 05 unary
    form!(10, 6, 1..=2, 1),
    // 06 binary
    form!(13, 8, 1..=12, 2),
    // 07 logical
    form!(17, 8, 1..=2, 2),
    // 08 call
    by_rows!(21),
    // 09 function
    by_rows!(24),
    // 0A: no tag
    by_rows!(0),
    by_rows!(0),
    by_rows!(0),
    by_rows!(0),
    by_rows!(0),
    by_rows!(0),
    // 10 expression
    form!(28, 2, 0..=65535, 1),
    // 11 let
    form!(29, 6, 0..=65534, 1),
    // 12 block
    by_rows!(32),
    // 13 while
    by_rows!(33),
    // 14 for
    by_rows!(36),
    // 15 for-in
    by_rows!(41),
    // 16 break
    form!(48, 2, 0..=65535, 0),
    // 17 continue
    form!(49, 2, 0..=65535, 0),
    // 18 return
    form!(50, 4, 0..=65535, 1),
    // 19 if
    by_rows!(52),
    // 1A elif
    by_rows!(59),
    // 1B try
    by_rows!(61),
    // 1C function statement
    by_rows!(65),
    // 1D class
    by_rows!(71),
];

// The same in a tree of wide marks: tags that have no mark share their rows.
// stays: a table of its own: 17 of 30 starts differ, so that one table of pairs would be no shorter, and each start in it no plainer.
static WIDE_STARTS: [Start; 30] = [
    // 00: no tag
    by_rows!(0),
    // 01 number
    form!(2, 8, 0..=65535, 0),
    // 02 text
    form!(6, 2, 0..=65535, 0),
    // 03 other literal
    form!(7, 2, 0..=65535, 0),
    // 04 variable
    form!(78, 6, 0..=65534, 0),
    // 05 unary
    form!(80, 8, 1..=2, 1),
    // 06 binary
    form!(82, 10, 1..=12, 2),
    // 07 logical
    form!(84, 10, 1..=2, 2),
    // 08 call
    by_rows!(86),
    // 09 function
    by_rows!(88),
    // 0A: no tag
    by_rows!(0),
    by_rows!(0),
    by_rows!(0),
    by_rows!(0),
    by_rows!(0),
    by_rows!(0),
    // 10 expression
    form!(28, 2, 0..=65535, 1),
    // 11 let
    form!(92, 8, 0..=65534, 1),
    // 12 block
    by_rows!(32),
    // 13 while
    by_rows!(94),
    // 14 for
    by_rows!(95),
    // 15 for-in
    by_rows!(96),
    // 16 break
    form!(106, 4, 0..=65535, 0),
    // 17 continue
    form!(107, 4, 0..=65535, 0),
    // 18 return
    form!(108, 6, 0..=65535, 1),
    // 19 if
    by_rows!(109),
    // 1A elif
    by_rows!(59),
    // 1B try
    by_rows!(110),
    // 1C function statement
    by_rows!(113),
    // 1D class
    by_rows!(120),
];

static NEVER: Start = by_rows!(0);

static PROGRAM: Start = by_rows!(77);

// stays: tags are bytes, since any byte of a file may stand for one, and the grammar (meaning/specs) has the numbers.
fn is_program(tag: u8) -> bool
    ensures { result ≡ is_program tag }
{
    tag == 0x1E || tag == 0x3E
}

// stays: two facts of a node that pick its start, as the definition asks them (`start_of wide tag last`): a closure would ask the same.
// The start of a node, by the width of marks: the last node is a program, and no other is.
#[inline]
pub(crate) fn start_of(wide: bool, tag: u8, last: bool) -> &'static Start
    ensures { (result.now.row ≡ start_of wide tag last) × Right result.now }
{
    if last {
        return if is_program(tag) { &PROGRAM } else { &NEVER };
    }
    if 0x1E <= tag {
        return &NEVER;
    }
    if wide {
        &WIDE_STARTS[usize::from(tag)]
    } else {
        &STARTS[usize::from(tag)]
    }
}
