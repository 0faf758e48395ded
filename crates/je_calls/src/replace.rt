//! Calls of a method replaced.

ghost use Rattle.std.specs.Prelude.{◌≡◌, suc, ◌<◌, length, count_by, IfOk, IfErr, OnOk};
ghost use Rattle.je_machine.specs.Operation as machine;
ghost use Rattle.je_instr.specs.Assembling.{IsProgram, AllowsProgram};
ghost use Rattle.je_calls.specs.declared.stop.CallStop.TheVariants as stops;
ghost use Rattle.je_calls.specs.Method.{task, IsProgramOf, IsReplaceableTask};
ghost use Rattle.je_put.specs.Result.{Lists};
ghost use Rattle.je_calls.specs.Chosen.{is_given};
ghost use Rattle.je_calls.specs.Result.{new_program, new_place, IsReplaced};

use crate::agrees::new_programs_agree;
use crate::blocks::places_of;
use crate::choose::count_given;
use crate::programs::replaced_programs;
use crate::reach::choices_for;
use crate::rule::{Choice, Rule};
use crate::stop::CallStop;
use je_base::{Memory, Text};
use je_consts::Consts;
use je_desc::MethodType;
use je_instr::{InstrIndex, Program, operations_exist};
use je_put::splice;
use je_shapes::allows_program;
use sqlite_items::Items;
use std::alloc::Global;

/// A method whose calls are replaced.
#[derive(Debug, Drop)]
pub struct Replaced {
    /// The new program.
    pub program: Program,
    /// Where what stands at each old index begins, and the end.
    pub new_of: Items<InstrIndex>,
    /// How many calls were chosen.
    pub count: usize,
}

/// The program in which instructions give way as is chosen.
fn replaced_as(alloc: Global, p: &Program, choices: &[Choice]) -> Result<Replaced, Memory>
    requires program { IsProgram p.now }
    requires long { length choices.now ≡ length p.now.instrs }
    ensures program { IfOk result (λ r. r.program ≡ new_program p.now choices.now) }
    ensures new_of { IfOk result (λ r.
        Lists (new_place p.now choices.now) (suc (length p.now.instrs)) r.new_of) }
    ensures count { IfOk result (λ r. r.count ≡ count_by is_given choices.now) }
{
    let places = places_of(alloc, p.instrs.as_slice(), choices)?;
    let spliced = splice(alloc, p, &places, &[])?;
    Ok(Replaced {
        program: spliced.program,
        new_of: spliced.new_of,
        count: count_given(choices),
    })
}

/// A method of a class in which each call that is reached and that a rule fits gives way to the
/// fragment of the first rule that fits it. What is not reached is left out.
///
/// # Errors
///
/// `NotYet`: there is no such method with these operands and handlers that has an instruction and
/// shapes without a fault, and in which each instruction that is reached and that a rule fits takes
/// nothing from the stack and leaves nothing there; `Memory` where memory runs out.
pub fn replace_calls(
    alloc: Global,
    class_name: &Text,
    consts: &Consts,
    p: &Program,
    is_static: bool,
    is_init: bool,
    types: &MethodType,
    rules: &[Rule],
) -> Result<Replaced, CallStop>
    requires { IsProgram p.now }
    // The new program, where old indexes went and how many calls were chosen; and it does what the
    // old one does in which each chosen call has its fragment's meaning.
    ensures replaced { IfOk result (λ r. (program : machine.Program) → IsProgramOf
        (task class_name.now consts.now p.now is_static is_init types.now rules.now) program
        → IsReplaced
        (task class_name.now consts.now p.now is_static is_init types.now rules.now) program r) }
    // It is a program, has an instruction, and the constants allow it.
    ensures program { IfOk result (λ r. IsProgram r.program) }
    ensures some { IfOk result (λ r. 0 < length r.program.instrs) }
    ensures allowed { IfOk result (λ r. AllowsProgram consts.now r.program) }
    // The method is such a one,
    ensures form { OnOk result (IsReplaceableTask
        (task class_name.now consts.now p.now is_static is_init types.now rules.now)) }
    // and it is refused only where it is not.
    ensures not_yet { IfErr result (λ e. e ≡ stops.NotYet → IsReplaceableTask
        (task class_name.now consts.now p.now is_static is_init types.now rules.now) → ⊥) }
{
    // The laws that the proof stands on.
    new_programs_agree();
    operations_exist();
    replaced_programs();
    // The constants are a pool.
    let _ = consts.count();
    if p.instrs.is_empty() {
        return Err(CallStop::NotYet);
    }
    if !allows_program(consts, p) {
        return Err(CallStop::NotYet);
    }
    let choices = match choices_for(
        alloc, class_name, consts, p, is_static, is_init, types, rules,
    ) {
        Ok(choices) => choices,
        Err(e) => return Err(e),
    };
    let replaced = replaced_as(alloc, p, &choices)?;
    Ok(replaced)
}
