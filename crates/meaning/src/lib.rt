// The types that the crates share. The definitions of specs/ give document 01's number and values for each case of an enum.
#![tactic(auto)]

// The mark of an instruction that has none, at either width (02, E5); its two low bytes are 01's 65,535.
pub const NO_MARK: u32 = 4294967295;

// A constant. A number is its f64; a NaN keeps its 64 bits in a case of its own (docs/DECISIONS.md).
#[derive(Clone, Copy)]
pub enum Literal {
    Number(f64),
    NotANumber(u64),
    Text(u16),
    Other(u16),
}

// struct TokenData: a name and its mark.
#[derive(Clone, Copy)]
pub struct Token {
    pub name: usize,
    pub mark: u32,
}

// The causes of refusal, with their numbers.
#[derive(Clone, Copy)]
pub enum Cause {
    Frame = 1,
    Many = 2,
    Shape = 3,
    Tree = 4,
    Depth = 5,
    Work = 6,
    Registers = 7,
    Captures = 8,
    Undefined = 9,
    Redefined = 10,
    Stray = 11,
    Empty = 12,
    Returned = 13,
    Constants = 14,
    Prototypes = 15,
    Nesting = 16,
    Long = 17,
    Room = 18,
    ImageFrame = 19,
    ImageRule = 20,
    Mode = 21,
    Prototype = 22,
    Decision = 23,
    Order = 25,
    ListRoom = 26,
    Retired = 27,
    Visits = 29,
}

// Why an input is refused. An outcome is a Result<usize, Refusal>: Ok has a length, of the image; of a check, the number of nodes; of a reading, the number of fields.
#[derive(Clone, Copy)]
pub struct Refusal {
    pub cause: Cause,
    pub place: usize,
}

// What a caller is told: 0 or the cause's number, the place, the image's length.
#[derive(Clone, Copy)]
pub struct Answer {
    pub number: u64,
    pub place: u64,
    pub length: u64,
}

// What a lowering answers: the same, and how many nodes were visited (document 02, E6).
#[derive(Clone, Copy)]
pub struct Reply {
    pub number: u64,
    pub place: u64,
    pub length: u64,
    pub visits: u64,
}

// What who mends an image is told: 0 or the cause's number, the place, the image's length, how many jumps were replaced.
#[derive(Clone, Copy)]
pub struct MendAnswer {
    pub number: u64,
    pub place: u64,
    pub length: u64,
    pub entries: u64,
}

// struct Instruction with its mark (struct InstSrc).
#[derive(Clone, Copy)]
pub struct Instruction {
    pub opcode: u8,
    pub a: u8,
    pub b: u8,
    pub c: u8,
    pub mark: u32,
}

// What an image still has to bring: captures and instructions of the prototype in hand that are to come; and how many prototypes and constants it has brought.
#[derive(Clone, Copy)]
pub struct Due {
    pub captures: usize,
    pub code: usize,
    pub prototypes: usize,
    pub constants: usize,
}

// How a walk ended (document 02, E4 and E8): at a Return, out of decisions, out of budget; a failure with no handler registered, a 257th handler.
#[derive(Clone, Copy)]
pub enum Ending {
    AtReturn = 0,
    NoDecision = 1,
    NoBudget = 2,
    Failed = 3,
    Handlers = 4,
}

// What a caller is told of a walk: 0 or the cause's number, the place; the steps taken, the index where it stood, and how it ended.
#[derive(Clone, Copy)]
pub struct WalkAnswer {
    pub number: u64,
    pub place: u64,
    pub steps: u64,
    pub index: u64,
    pub ending: u64,
}
