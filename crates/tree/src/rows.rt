// The payloads of all tags as a table: a row for each place in a payload, and further ones for the places that only wide marks make: a wide payload
// goes on in the rows of the narrow one as soon as the same is due. proofs/Table.antt proves that the table says what the grammar of 01 and of 02,
// E5, says.
ghost use Rattle.std.specs.Prelude.{◌≡◌, ◌<◌, ◌&&◌, cond, leb, eqb};
ghost use Rattle.meaning.specs.Grammar.{expr, super, inside, absent};
ghost use Rattle.tree.specs.Rows.{number, next_left, next_row};

// What a word is, by the grammar's numbers. From Expr on it names a child, by its role, and from Super on the child may be absent.
#[derive(Clone, Copy, PartialEq, Eq)]
pub(crate) enum Kind {
    Nothing,
    Any,
    Name,
    Op,
    Op12,
    Count,
    Expr,
    Stmt,
    Elif,
    Method,
    Super,
    Init,
}

// The lowest number that is lawful, the highest, and one more that is not.
#[derive(Clone, Copy)]
struct Limits {
    low: usize,
    high: usize,
    but: usize,
}

macro_rules! limits {
    ($low:literal..=$high:literal) => {
        Limits { low: $low, high: $high, but: 65536 }
    };
    ($low:literal..=$high:literal but $but:literal) => {
        Limits { low: $low, high: $high, but: $but }
    };
}

// Those of each kind: of the word, and from Expr on of the tag of the child that it names.
// stays: 65536 where there is no more such number, as `bounds` of meaning/specs/Grammar has it, which `admits` promises.
static LIMITS: [Limits; 12] = [
    limits!(1..=0),
    limits!(0..=65535),
    limits!(0..=65535 but 65535),
    limits!(1..=2),
    limits!(1..=12),
    limits!(0..=65535),
    limits!(0x01..=0x09),
    limits!(0x10..=0x1D but 0x1A),
    limits!(0x1A..=0x1A),
    // a function statement
    limits!(0x1C..=0x1C),
    // a variable
    limits!(0x04..=0x04),
    // an expression statement or a let
    limits!(0x10..=0x11),
];

impl Kind {
    #[inline]
    fn number(self) -> usize
        ensures { (result ≡ number self) × (result < 12) }
    {
        self as usize
    }

    // A number is within the kind's limits.
    #[inline]
    pub(crate) fn admits(self, v: usize) -> bool
        ensures { result ≡ inside (number self) v }
    {
        let limits = &LIMITS[self.number()];
        (limits.low <= v) & (v <= limits.high) & (v != limits.but)
    }

    #[inline]
    pub(crate) fn is_child(self) -> bool
        ensures { result ≡ leb expr (number self) }
    {
        Kind::Expr as usize <= self.number()
    }

    // The word names no child, though one of this kind may.
    #[inline]
    pub(crate) fn is_absent(self, word: usize) -> bool
        ensures { result ≡ absent word && leb super (number self) }
    {
        (word == 65535) & (Kind::Super as usize <= self.number())
    }
}

// Whether a word has to do with a counted run of groups: it is the count, or the last word of a group. Where no group is left to come, the row of the
// word after it is `end`.
#[derive(Clone, Copy)]
pub(crate) enum Run {
    Outside,
    Counts { end: u8 },
    Closes { end: u8 },
}

// A word's kind, the row of the word after it, and whether the payload may end before it.
#[derive(Clone, Copy)]
pub(crate) struct Row {
    pub(crate) kind: Kind,
    next: u8,
    run: Run,
    pub(crate) ends: bool,
}

// A place in a payload: its row, and how many groups of a counted run are left to come.
#[derive(Clone, Copy)]
pub(crate) struct Place {
    pub(crate) row: usize,
    pub(crate) left: usize,
}

impl Row {
    // The place after a word, where `left` groups were left before it.
    #[inline]
    pub(crate) fn after(&self, left: usize, word: usize) -> Place
        ensures { (result.left ≡ next_left self.now left word) × (result.row ≡ next_row self.now result.left) }
    {
        match self.run {
            Run::Outside => Place {
                row: usize::from(self.next),
                left,
            },
            Run::Counts { end } => self.within(word, end),
            Run::Closes { end } => self.within(left.saturating_sub(1), end),
        }
    }

    // The place after a word of a run that ends at the row `end`, where `left` groups are left.
    #[inline]
    fn within(&self, left: usize, end: u8) -> Place
        ensures { (result.left ≡ left) × (result.row ≡ cond (eqb left 0) end self.now.next) }
    {
        let row = if left == 0 { end } else { self.next };
        Place {
            row: usize::from(row),
            left,
        }
    }
}

macro_rules! word {
    ($kind:ident, $next:literal) => {
        Row { kind: Kind::$kind, next: $next, run: Run::Outside, ends: false }
    };
}

// a word before which the payload may end
macro_rules! ending {
    ($kind:ident, $next:literal) => {
        Row { kind: Kind::$kind, next: $next, run: Run::Outside, ends: true }
    };
}

macro_rules! counts {
    ($next:literal, $end:literal) => {
        Row { kind: Kind::Count, next: $next, run: Run::Counts { end: $end }, ends: false }
    };
}

macro_rules! closes {
    ($kind:ident, $next:literal, $end:literal) => {
        Row { kind: Kind::$kind, next: $next, run: Run::Closes { end: $end }, ends: false }
    };
}

pub(crate) static ROWS: [Row; 122] = [
    // 0: no tag: nothing fits
    word!(Nothing, 1),
    // 1: the end of a payload of fixed length
    ending!(Nothing, 1),
    // 2: 01 number
    word!(Any, 3),
    word!(Any, 4),
    word!(Any, 5),
    word!(Any, 1),
    // 6: 02 text
    word!(Any, 1),
    // 7: 03 other literal
    word!(Any, 1),
    // 8: 04 variable
    word!(Name, 9),
    word!(Any, 1),
    // 10: 05 unary
    word!(Op, 11),
    word!(Any, 12),
    word!(Expr, 1),
    // 13: 06 binary
    word!(Op12, 14),
    word!(Any, 15),
    word!(Expr, 16),
    word!(Expr, 1),
    // 17: 07 logical
    word!(Op, 18),
    word!(Any, 19),
    word!(Expr, 20),
    word!(Expr, 1),
    // 21: 08 call
    word!(Expr, 22),
    word!(Any, 23),
    ending!(Expr, 23),
    // 24: 09 function
    counts!(25, 27),
    word!(Name, 26),
    closes!(Any, 25, 27),
    ending!(Stmt, 27),
    // 28: 10 expression
    word!(Expr, 1),
    // 29: 11 let
    word!(Name, 30),
    word!(Any, 31),
    ending!(Expr, 1),
    // 32: 12 block
    ending!(Stmt, 32),
    // 33: 13 while
    word!(Any, 34),
    word!(Expr, 35),
    word!(Stmt, 1),
    // 36: 14 for
    word!(Any, 37),
    word!(Init, 38),
    word!(Expr, 39),
    word!(Expr, 40),
    word!(Stmt, 1),
    // 41: 15 for-in
    word!(Any, 42),
    word!(Expr, 43),
    word!(Stmt, 44),
    word!(Name, 45),
    word!(Any, 46),
    ending!(Name, 47),
    word!(Any, 46),
    // 48: 16 break
    word!(Any, 1),
    // 49: 17 continue
    word!(Any, 1),
    // 50: 18 return
    word!(Any, 51),
    ending!(Expr, 1),
    // 52: 19 if
    word!(Any, 53),
    word!(Expr, 54),
    counts!(55, 56),
    closes!(Stmt, 55, 56),
    counts!(57, 58),
    closes!(Elif, 57, 58),
    ending!(Stmt, 58),
    // 59: 1A elif
    word!(Expr, 60),
    ending!(Stmt, 60),
    // 61: 1B try
    word!(Stmt, 62),
    word!(Name, 63),
    word!(Any, 64),
    word!(Stmt, 1),
    // 65: 1C function statement
    word!(Name, 66),
    word!(Any, 67),
    counts!(68, 70),
    word!(Name, 69),
    closes!(Any, 68, 70),
    ending!(Stmt, 70),
    // 71: 1D class
    word!(Name, 72),
    word!(Any, 73),
    word!(Super, 74),
    counts!(75, 76),
    closes!(Method, 75, 76),
    ending!(Method, 76),
    // 77: 1E program
    ending!(Stmt, 77),
    // 78: 04 variable, wide
    word!(Name, 79),
    word!(Any, 9),
    // 80: 05 unary, wide
    word!(Op, 81),
    word!(Any, 11),
    // 82: 06 binary, wide
    word!(Op12, 83),
    word!(Any, 14),
    // 84: 07 logical, wide
    word!(Op, 85),
    word!(Any, 18),
    // 86: 08 call, wide
    word!(Expr, 87),
    word!(Any, 22),
    // 88: 09 function, wide
    counts!(89, 27),
    word!(Name, 90),
    word!(Any, 91),
    closes!(Any, 89, 27),
    // 92: 11 let, wide
    word!(Name, 93),
    word!(Any, 30),
    // 94: 13 while, wide
    word!(Any, 33),
    // 95: 14 for, wide
    word!(Any, 36),
    // 96: 15 for-in, wide
    word!(Any, 97),
    word!(Any, 98),
    word!(Expr, 99),
    word!(Stmt, 100),
    word!(Name, 101),
    word!(Any, 102),
    word!(Any, 103),
    ending!(Name, 104),
    word!(Any, 105),
    word!(Any, 103),
    // 106: 16 break, wide
    word!(Any, 48),
    // 107: 17 continue, wide
    word!(Any, 49),
    // 108: 18 return, wide
    word!(Any, 50),
    // 109: 19 if, wide
    word!(Any, 52),
    // 110: 1B try, wide
    word!(Stmt, 111),
    word!(Name, 112),
    word!(Any, 63),
    // 113: 1C function statement, wide
    word!(Name, 114),
    word!(Any, 115),
    word!(Any, 116),
    counts!(117, 70),
    word!(Name, 118),
    word!(Any, 119),
    closes!(Any, 117, 70),
    // 120: 1D class, wide
    word!(Name, 121),
    word!(Any, 72),
];
