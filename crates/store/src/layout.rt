// Where the parts of the work area begin; specs/Layout has the table. To EDGES a word for each node is added where it is used, to LOCALS two.
// stays: the area is fixed memory that the caller lends, a slice of words with counts, links and halves in them; there is no heap for a Vec or a map.
// stays: `nodes ≤ 32768` in each clause: as an invariant of Scope it would ask more of those who make one by `Scope::main`, which takes any number.
ghost use Rattle.std.specs.Prelude.{◌≡◌, ◌≤◌};
ghost use Rattle.store.specs.Layout.{top, first_head, beyond};

// Kinds of constants, in the first of a constant's three words.
pub const NUMBER: u32 = 1;

pub const TEXT: u32 = 2;

pub const OTHER: u32 = 3;

// Word 0 of a frame, which has eight: the function's name.
pub const NAMES: usize = 3072;

// Word 1: how many registers it has taken.
pub const REGISTERS: usize = 3073;

// Word 2: how many captures it holds.
pub const HELD: usize = 3074;

// Word 3: its first block.
pub const FIRSTS: usize = 3075;

// Word 5 of main's frame: the nodes visited so far.
pub const VISITS: usize = 3077;

// Captures, in halves: 256 for each function.
pub const CAPTURES: usize = 6288;

// Names of globals, in halves.
pub const GLOBALS: usize = 8336;

// Registers of locals, in halves.
pub const LOCAL_REGISTERS: usize = 9376;

// Edges of blocks.
pub const EDGES: usize = 5708;

// Locals.
pub const LOCALS: usize = 5724;

// The first word above the pending code, which goes downward from here.
pub(crate) fn top(nodes: usize) -> usize
    requires { nodes ≤ 32768 }
    ensures { result ≡ top nodes }
{
    12288 + 10 * nodes
}

// The first head of a bucket, in halves: heads start where the code ends.
pub(crate) fn first_head(nodes: usize) -> usize
    requires { nodes ≤ 32768 }
    ensures { result ≡ first_head nodes }
{
    2 * top(nodes)
}

// The first word that the store leaves alone.
pub(crate) fn beyond(nodes: usize) -> usize
    requires { nodes ≤ 32768 }
    ensures { result ≡ beyond nodes }
{
    top(nodes) + 5 * nodes
}
