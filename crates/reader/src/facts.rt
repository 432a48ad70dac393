// The facts of an instruction (specs/Rules), as tests of numbers (specs/Tests).
ghost use Rattle.std.specs.Prelude.{◌≡◌, Bool, true, ◌&&◌, ◌||◌, not, ℕ, ◌+◌, ◌*◌, ◌<◌, ◌≤◌, length, get_or, map, eqb, ltb, leb};
ghost use Rattle.meaning.specs.Base.{lowest};
ghost use Rattle.meaning.specs.Steps.{inst_at};
ghost use Rattle.meaning.specs.Images.{inst_size};
ghost use Rattle.reader.specs.Laid.{code_in, captures_in};
ghost use Rattle.reader.specs.Lens.{lens_code};
ghost use Rattle.reader.specs.Spots.{spot_of, below};
ghost use Rattle.reader.specs.Around.{number, wide, bounds, replaced_met, closure_met, text_met, lawful_kind, lawful_met, fact_met, test_met};
ghost use Rattle.reader.specs.Tests.{steps_seen, replaced_seen, registers_seen, operands_seen, closure_seen, text_seen, lawful_by, lawful_seen, seen_test, kind_seen, enough_seen, local_need, outer_need};

use crate::order::inst_size;

// An instruction as it is met: its bytes, its index, and how many there are.
#[derive(Clone, Copy)]
pub(crate) struct Met {
    pub opcode: u8,
    pub a: u8,
    pub b: u8,
    pub c: u8,
    pub index: u16,
    pub count: u16,
}

// What the captures of a prototype need of its creator: so many registers, so many captures.
#[derive(Clone, Copy)]
pub(crate) struct Needs {
    pub locals: u16,
    pub outers: u16,
}

// What the facts ask of what is around an instruction: the registers and captures of its prototype, what those before need, which constants are texts.
#[derive(Clone, Copy)]
pub(crate) struct Around<'a> {
    pub registers: usize,
    pub captures: usize,
    pub needs: &'a [Needs],
    pub texts: &'a [u8],
}

// What the facts ask of an opcode. With two more instructions behind it, it is enough that a is a register (A), a and b (Ab), a, b and c (Abc).
// stays: an opcode itself is a number, since any byte of an image may stand for one: so has specs/Tests the formulas, and Tested the names.
#[derive(Clone, Copy)]
pub(crate) enum Kind {
    A,
    Ab,
    Abc,
    Asking,
    Unwritten,
}

impl Kind {
    fn is_written(self) -> bool
        ensures { result ≡ ltb (number self) 4 }
    {
        match self {
            Kind::Unwritten => false,
            _ => true,
        }
    }

    // Registers may be enough.
    fn is_plain(self) -> bool
        ensures { result ≡ ltb (number self) 3 }
    {
        match self {
            Kind::A | Kind::Ab | Kind::Abc => true,
            _ => false,
        }
    }

    // b must be a register too.
    fn asks_b(self) -> bool
        ensures { result ≡ (eqb (number self) 1 || eqb (number self) 2) }
    {
        match self {
            Kind::Ab | Kind::Abc => true,
            _ => false,
        }
    }

    // And c.
    fn asks_c(self) -> bool
        ensures { result ≡ eqb (number self) 2 }
    {
        match self {
            Kind::Abc => true,
            _ => false,
        }
    }
}

impl Met {
    // b and c as one number.
    fn wide(self) -> usize
        ensures { (result ≡ wide self) × (result < 65536) }
    {
        usize::from(self.b) * 256 + usize::from(self.c)
    }
}

// No step of an instruction at index i, with w in b and c, leads out of n instructions.
fn stays(o: u8, w: usize, i: usize, n: usize) -> bool
    requires { (w < 65536) × (i < 65536) × (n < 65536) }
    ensures { result ≡ steps_seen o w i n }
{
    ((o == 3)
        & (((w < 32768) & (i + w < n)) | ((32768 <= w) & ((65536 <= i + w) & (i + w < n + 65536)))))
        | (!(o == 3)
            & ((o == 20)
                | ((i + 1 < n) & ((!(o == 4) | (i + 2 < n)) & (!(o == 48) | (i + w < n))))))
}

// A Jmp whose a is 1 or 2, or whose target leaves n instructions (document 02, E9).
// stays: five numbers, since docs/PROMISES names the call, for all of them below 65,536; inside a `Met` holds them.
pub fn is_replaced(o: u8, a: usize, w: usize, i: usize, n: usize) -> bool
    requires { (w < 65536) × (i < 65536) × (n < 65536) }
    ensures { result ≡ replaced_seen o a w i n }
{
    (o == 3) & (((a == 1) | (a == 2)) | !stays(o, w, i, n))
}

// Every register met is below n; of an opcode by whose kind they are enough these are a, a and b, or a, b and c.
fn meets(kind: Kind, x: Met, n: usize) -> bool
    ensures { result ≡ registers_seen (number kind) x.opcode x.a x.b x.c n }
{
    let a = usize::from(x.a);
    let b = usize::from(x.b);
    let c = usize::from(x.c);
    let none = (x.opcode == 3) | ((x.opcode == 48) | (x.opcode == 49));
    none | (((x.opcode == 20) & (b == 0))
        | ((a < n)
            & ((!kind.asks_b() | (b < n))
                & ((!kind.asks_c() | (c < n)) & (!(x.opcode == 19) | ((a + b <= n) & (c <= n)))))))
}

// What the opcode asks of its operands.
fn operates(x: Met, captures: usize, closure: bool, text: bool, constants: usize) -> bool
    ensures { result ≡ operands_seen x.opcode x.a x.b x.c (wide x) captures closure text constants }
{
    let o = x.opcode;
    (!(o == 3) | (x.a == 0))
        & ((!(o == 19) | ((0 < x.b) & (0 < x.c)))
            & ((!(o == 22) | (usize::from(x.b) < captures))
                & ((!(o == 23) | closure)
                    & ((!(o == 1) | (x.wide() < constants))
                        & (!((o == 44) | ((o == 45) | (o == 47))) | text)))))
}

// One of the prototypes before, whose captures need no more than its creator has.
fn makes(v: &Around, w: usize) -> bool
    ensures { result ≡ closure_met v.now w }
{
    match v.needs.get(w) {
        Some(needs) => (usize::from(needs.locals) <= v.registers)
            & (usize::from(needs.outers) <= v.captures),
        None => false,
    }
}

// One of the constants, and a text.
fn names(v: &Around, w: usize) -> bool
    ensures { result ≡ text_met v.now w }
{
    v.texts.get(w).is_some_and(|text| *text == 1)
}

// The facts of an instruction, by the kind of its opcode.
#[inline(always)]
fn is_lawful(v: &Around, kind: Kind, x: Met, closure: bool, text: bool, entered: bool) -> bool
    ensures { result ≡ lawful_kind v.now kind x closure text entered }
{
    let pass = ((x.opcode == 20) & (x.a == 0)) & ((v.registers == 0) & ((0 < x.index) & !entered));
    kind.is_written()
        & (stays(
            x.opcode,
            x.wide(),
            usize::from(x.index),
            usize::from(x.count),
        ) & ((meets(kind, x, v.registers) | pass)
            & operates(x, v.captures, closure, text, v.texts.len())))
}

// The facts of what is seen of an instruction: where the image is mended, one that is replaced is Return 0 0 0, which has them all.
fn passes(
    v: &Around,
    kind: Kind,
    x: Met,
    closure: bool,
    text: bool,
    entered: bool,
    mend: bool,
) -> bool
    ensures { result ≡ (lawful_kind v.now kind x closure text entered || (mend && replaced_met x)) }
{
    is_lawful(v, kind, x, closure, text, entered)
        || mend
            && is_replaced(
                x.opcode,
                usize::from(x.a),
                x.wide(),
                usize::from(x.index),
                usize::from(x.count),
            )
}

// The table of meaning/specs/Opcode as the facts ask it, one kind for each opcode.
static KINDS: [Kind; 51] = [
    // 0: Move
    Kind::Ab,
    // 1: LoadK
    Kind::Asking,
    // 2: LoadNil
    Kind::A,
    // 3: Jmp
    Kind::Asking,
    // 4: Test
    Kind::Ab,
    // 5: Add to Neq
    Kind::Abc,
    Kind::Abc,
    Kind::Abc,
    Kind::Abc,
    Kind::Abc,
    Kind::Abc,
    Kind::Abc,
    Kind::Abc,
    Kind::Abc,
    Kind::Abc,
    Kind::Abc,
    Kind::Abc,
    // 17: Not, Neg
    Kind::Ab,
    Kind::Ab,
    // 19: Call
    Kind::Asking,
    // 20: Return
    Kind::A,
    // 21: not written
    Kind::Unwritten,
    // 22: GetUpval, Closure
    Kind::Asking,
    Kind::Asking,
    // 24: not written
    Kind::Unwritten,
    Kind::Unwritten,
    Kind::Unwritten,
    Kind::Unwritten,
    Kind::Unwritten,
    Kind::Unwritten,
    Kind::Unwritten,
    // 31: Class, ClassMeth, ClassStMeth
    Kind::Abc,
    Kind::Abc,
    Kind::Abc,
    // 34: not written
    Kind::Unwritten,
    Kind::Unwritten,
    // 36: Addi
    Kind::Ab,
    // 37: not written
    Kind::Unwritten,
    // 38: GetIter, GetIterk
    Kind::Abc,
    Kind::Abc,
    // 40: GetIteri, Length
    Kind::Ab,
    Kind::Ab,
    // 42: not written
    Kind::Unwritten,
    Kind::Unwritten,
    // 44: GetGlobal, SetGlobal
    Kind::Asking,
    Kind::Asking,
    // 46: GetCurrentFunc
    Kind::A,
    // 47: GetBuiltin
    Kind::Asking,
    // 48: RegisterTryCatch
    Kind::Asking,
    // 49: DeregisterTryCatch
    Kind::A,
    // 50: GetExcept
    Kind::A,
];

// The kind of an opcode.
fn kind_of(o: u8) -> Kind
    ensures { number result ≡ kind_seen o }
{
    if o < 51 {
        return KINDS[usize::from(o)];
    }
    Kind::Unwritten
}

// What is enough for the facts of an opcode by whose kind registers may be.
fn is_enough(kind: Kind, x: Met, r: usize) -> bool
    ensures { result ≡ enough_seen (number kind) x.index x.count x.a x.b x.c r }
{
    (usize::from(x.index) + 2 < usize::from(x.count))
        & ((usize::from(x.a) < r)
            & ((!kind.asks_b() | (usize::from(x.b) < r))
                & (!kind.asks_c() | (usize::from(x.c) < r))))
}

// True only where the facts hold: few comparisons for what an image has most of. A literal opcode leaves of `is_lawful` what it asks.
fn is_quick(v: &Around, x: Met) -> bool
    ensures { result ≡ true → (closure entered : Bool) → lawful_met v.now x closure (text_met v.now (wide x)) entered ≡ true }
{
    if x.opcode == 3 {
        return is_lawful(v, Kind::Asking, Met { opcode: 3, ..x }, false, false, false);
    }
    let kind = kind_of(x.opcode);
    if kind.is_plain() {
        return is_enough(kind, x, v.registers);
    }
    if x.opcode == 19 {
        return is_lawful(
            v,
            Kind::Asking,
            Met { opcode: 19, ..x },
            false,
            false,
            false,
        );
    }
    if x.opcode == 1 {
        return is_lawful(v, Kind::Asking, Met { opcode: 1, ..x }, false, false, false);
    }
    if (x.opcode == 44) | ((x.opcode == 45) | (x.opcode == 47)) {
        let text = names(v, x.wide());
        return is_lawful(v, Kind::Asking, Met { opcode: 44, ..x }, false, text, false);
    }
    false
}

// The facts of what is seen of an instruction.
fn has_facts(v: &Around, x: Met, marks: &[u8], mend: bool) -> bool
    requires { x.index < length marks.now }
    ensures { result ≡ (fact_met v.now x marks.now || (mend && replaced_met x)) }
{
    if is_quick(v, x) {
        return true;
    }
    let closure = makes(v, x.wide());
    let text = names(v, x.wide());
    let entered = marks[usize::from(x.index)] == 1;
    passes(v, kind_of(x.opcode), x, closure, text, entered, mend)
}

// The lowest of so many instructions as there are marks whose facts fail as they are seen. They lie from `at` on.
pub(crate) fn first_unlawful(
    t: &[u8],
    tag: u8,
    at: usize,
    v: &Around,
    marks: &[u8],
    mend: bool,
) -> Option<usize>
    requires { (length marks.now < 65536) × (at + length marks.now * (3 + inst_size tag) ≤ length t.now) }
    ensures { spot_of result ≡ below (length marks.now) (lowest (λ (i : ℕ). test_met v.now marks.now i (inst_at (lens_code mend (code_in t.now tag (3 + inst_size tag) at (length marks.now))) i)) (length marks.now)) }
{
    let span = 3 + inst_size(tag);
    // stays: `as u16`, since a TryFrom would test again what the loop and the clause bound.
    for i in 0..marks.len() {
        let base = at + i * span;
        let x = Met {
            opcode: t[base + 3],
            a: t[base + 4],
            b: t[base + 5],
            c: t[base + 6],
            index: i as u16,
            count: marks.len() as u16,
        };
        if !has_facts(v, x, marks, mend) {
            return Some(i);
        }
    }
    None
}

// Of n captures from `at` on.
pub(crate) fn needs_of(t: &[u8], at: usize, n: usize) -> Needs
    requires { at + n * 5 ≤ length t.now }
    ensures { (result.locals ≡ local_need (captures_in t.now at n)) × (result.outers ≡ outer_need (captures_in t.now at n)) }
{
    let mut locals: u16 = 0;
    let mut outers: u16 = 0;
    for i in (0..n).rev() {
        let index = u16::from(t[at + i * 5 + 4]) + 1;
        if t[at + i * 5 + 3] == 1 {
            locals = index.max(locals);
        } else {
            outers = index.max(outers);
        }
    }
    Needs { locals, outers }
}
