// The opcodes by name.
ghost use Rattle.std.specs.Prelude.{◌≡◌, ◌||◌, eqb};
ghost use Rattle.meaning.specs.Opcode.{Class, ClassMeth, ClassStMeth};

// From 0 on (src/instruction.rs, enum OpCode). The reader takes none above 50.
pub(crate) const NAMES: [&str; 51] = [
    "Move",
    "LoadK",
    "LoadNil",
    "Jmp",
    "Test",
    "Add",
    "Sub",
    "Div",
    "Mod",
    "Mul",
    "Pow",
    "Lt",
    "Gt",
    "Lte",
    "Gte",
    "Eq",
    "Neq",
    "Not",
    "Neg",
    "Call",
    "Return",
    "SetUpval",
    "GetUpval",
    "Closure",
    "List",
    "PushList",
    "Dict",
    "PushDict",
    "Slice",
    "Access",
    "Set",
    "Class",
    "ClassMeth",
    "ClassStMeth",
    "GetObj",
    "SetObj",
    "Addi",
    "Subi",
    "GetIter",
    "GetIterk",
    "GetIteri",
    "Length",
    "Super",
    "This",
    "GetGlobal",
    "SetGlobal",
    "GetCurrentFunc",
    "GetBuiltin",
    "RegisterTryCatch",
    "DeregisterTryCatch",
    "GetExcept",
];

// stays: opcodes by number: the clause says it of any byte, with the definition's names for the three; `instruction` is not used here.
// The opcodes of classes are read as ever, and are retired (document 02, E11).
pub(crate) fn is_retired(opcode: u8) -> bool
    ensures { result ≡ eqb opcode Class || (eqb opcode ClassMeth || eqb opcode ClassStMeth) }
{
    opcode == 31 || opcode == 32 || opcode == 33
}
