// What an answer says in words: length and visits, or number, cause, node, and the rule that was broken (01, "Outcome"; 02, E2, E6, E11).
use meaning::Reply;
use std::fmt;

// The one line of a call.
#[derive(Clone, Copy)]
pub(crate) enum Said {
    Lowered(Reply),
    Refused(Reply),
    NoMode,
    TooLong,
    NoMemory,
    Unwritten,
}

impl fmt::Display for Said {
    fn fmt<W: fmt::Write>(&self, f: &mut fmt::Formatter<W>) -> fmt::Result {
        match *self {
            // what was lowered, and how much work it was (02, E6)
            Said::Lowered(a) => write!(f, "lowered {} bytes, {} visits", a.length, a.visits),
            Said::Refused(a) => refused(f, a),
            Said::NoMode => f.write_str(
                "the mode is no decimal number of 64 bits, in 20 digits at most",
            ),
            Said::TooLong => f.write_str(
                "refused: too long: a tree of 2,147,418,112 bytes or more is not read",
            ),
            Said::NoMemory => f.write_str(
                "failed: there is not enough memory for this tree or its image",
            ),
            Said::Unwritten => f.write_str("failed: the image could not be written"),
        }
    }
}

// The table of causes. Frame's place is how many whole fields stand before it.
// stays: a cause is its number here, since the promise of `lower::lower` tells a refusal by the number of `Reply`, as C is told it.
fn refused<W: fmt::Write>(f: &mut fmt::Formatter<W>, a: Reply) -> fmt::Result {
    let number = a.number;
    let place = a.place;
    let (cause, rule) = match number {
        1 => {
            return write!(
                f,
                "refused 1 Frame after {place} whole fields: a header or a payload runs past the end, or there is no field at all"
            );
        }
        2 => ("Many", "a tree may have 32,768 nodes"),
        3 => (
            "Shape",
            "a node's tag, size, operators, names and children must be as 01 says, and a program stands last and only there",
        ),
        4 => (
            "Tree",
            "every node but the last must be a child exactly once",
        ),
        5 => ("Depth", "a node may stand 128 deep, the program being 1"),
        6 => (
            "Work",
            "the work area must have 12,288 words and 16 more for each node",
        ),
        7 => ("Registers", "a function may take 255 registers"),
        8 => ("Captures", "a function may capture 255 variables"),
        9 => (
            "Undefined",
            "the variable is found nowhere: no local, capture, builtin or global has its name",
        ),
        10 => (
            "Redefined",
            "a global let must not name a global that is known already",
        ),
        11 => (
            "Stray",
            "break and continue must stand in a loop of their own function",
        ),
        12 => (
            "Empty",
            "a function body of one statement must give an instruction",
        ),
        13 => (
            "Return",
            "a return can give back registers 0 to 253, and its value is in register 254",
        ),
        14 => ("Constants", "a program may have 1,024 constants"),
        15 => (
            "Prototypes",
            "a program may have 256 prototypes, the main one counted",
        ),
        16 => (
            "Nesting",
            "eight functions may be open at once, the main one counted",
        ),
        17 => (
            "Long",
            "a function may have 32,767 instructions, its last Return counted",
        ),
        18 => (
            "Room",
            "the image must fit into the output, here 92,612,864 bytes",
        ),
        27 => (
            "Retired",
            "classes are retired: mode 1 lowers none, and mode 0 lowers them as before",
        ),
        _ => return f.write_str("refused 21 Mode: the mode must be 0 or 1"),
    };
    write!(f, "refused {number} {cause} at node {place}: {rule}")
}
