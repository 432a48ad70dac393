// visit_break_stmt and visit_continue_stmt, whole.
ghost use Rattle.std.specs.Prelude.{◌<◌, ◌≤◌};
ghost use Rattle.meaning.specs.Statements.{visit_jump};
ghost use Rattle.meaning.specs.Fields.{fields};
ghost use Rattle.meaning.specs.At.{tag_of};
ghost use Rattle.forward.specs.Forward.{fwd};
ghost use Rattle.store.specs.Store.{Fine};
ghost use Rattle.store.specs.Promise.{uses, Space};
ghost use Rattle.routines.specs.Node.{OnNode, Gives, GivesStmt};

use crate::JMP;
use meaning::Cause;
use store::{Scope, Step};

// The marks of an unfinished jump: its a.
// stays: `put` takes an operand as a number, and `visit_jump` of meaning takes this one as that.
const JMP_CONTINUE: u32 = instruction::JMP_CONTINUE as u32;

const JMP_BREAK: u32 = instruction::JMP_BREAK as u32;

// fn visit_break_stmt, fn visit_continue_stmt, by the jump's kind: 11 Stray.
fn visit_jump(work: &mut [u32], step: Step, scope: Scope, node: usize, kind: u32, mark: u32) -> Step
    requires { Fine work.old scope step × Space work.old scope step 0 2 0 × (kind < 256) }
    ensures { Gives work.old scope step work.new result (uses 2 0 0) (fwd (visit_jump node kind mark)) }
{
    if scope.loops == 0 {
        return step.refuse(Cause::Stray, node);
    }
    code::put(work, step, scope, JMP, kind, 0, 0, mark, 0)
}

// A break or a continue.
pub fn jump(tree: &[u8], work: &mut [u32], step: Step, scope: Scope, node: usize) -> Step
    requires { OnNode tree.now work.old scope step 1 node × (0x16 ≤ tag_of (fields tree.now) node) × (tag_of (fields tree.now) node ≤ 0x17) }
    ensures { GivesStmt tree.now work.old scope step work.new result node }
{
    let mark = nodes::jump_of(tree, work, node, scope.wide);
    if nodes::tag_of(tree, work, node) == 0x16 {
        return visit_jump(work, step, scope, node, JMP_BREAK, mark);
    }
    visit_jump(work, step, scope, node, JMP_CONTINUE, mark)
}
