// Every offset that a function of at most 32,767 instructions can hold, stored by `forward` or `backward` and read back by `sbx`:
// the law that the one is the other's inverse, by their promises alone.
#![tactic(auto)]

ghost use Rattle.std.specs.Prelude.{◌≡◌, ◌≤◌, pos, neg_ℤ};
ghost use Rattle.meaning.specs.Opcode.{Jmp, no_mark, inst};

use instruction::{Halves, OpCode};
use meaning::{Instruction, NO_MARK};

fn jump(h: Halves) -> Instruction
    ensures { result ≡ inst Jmp 0 h.b h.c no_mark }
{
    Instruction {
        opcode: OpCode::Jmp as u8,
        a: 0,
        b: h.b,
        c: h.c,
        mark: NO_MARK,
    }
}

fn ahead(n: usize) -> i16
    requires { n ≤ 32767 }
    ensures { result ≡ pos n }
{
    instruction::sbx(jump(instruction::forward(n)))
}

fn behind(n: usize) -> i16
    requires { n ≤ 32767 }
    ensures { result ≡ neg_ℤ (pos n) }
{
    instruction::sbx(jump(instruction::backward(n)))
}

fn main() {
    check::expect(ahead(3) == 3);
    check::expect(ahead(32767) == 32767);
    check::expect(behind(4) == -4);
    check::expect(behind(32767) == -32767);
}
