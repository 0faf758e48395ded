//! What becomes of each instruction of a method, by its least shapes.

ghost use Rattle.std.specs.Prelude.{◌≡◌, length, [], IfOk, IfErr};
ghost use Rattle.je_machine.specs.Operation as machine;
ghost use Rattle.je_instr.specs.Assembling.{AllowsProgram};
ghost use Rattle.je_least.specs.Answer.{IsShapes};
ghost use Rattle.je_shape.specs.Least.{Assignment};
ghost use Rattle.je_shape.specs.Views.{shapes_seen};
ghost use Rattle.je_shapes.specs.Code.{HasCode};
ghost use Rattle.je_keep.specs.MethodCode.{AreFaultless};
ghost use Rattle.je_calls.specs.declared.stop.CallStop.TheVariants as stops;
ghost use Rattle.je_calls.specs.Choices.{AreChosen};
ghost use Rattle.je_calls.specs.Method.{task, IsProgramOf, method_with, ArePlain};

use crate::choose::choices_of;
use crate::rule::{Choice, Rule};
use crate::stop::CallStop;
use je_base::Text;
use je_consts::Consts;
use je_desc::MethodType;
use je_instr::{Program, one_program};
use je_least::{ShapeFault, Shapes};
use je_link::operations_of;
use je_shape::{entry_shape, one_least};
use je_shapes::shapes;
use std::alloc::Global;

/// The least shapes of a method.
///
/// `NotYet`: they have a fault.
fn shapes_of(
    alloc: Global,
    class_name: &Text,
    consts: &Consts,
    p: &Program,
    is_static: bool,
    is_init: bool,
    types: &MethodType,
) -> Result<Shapes, CallStop>
    requires { AllowsProgram consts.now p.now }
    ensures shapes { IfOk result (λ s. (program : machine.Program) →
        HasCode consts.now p.now program → IsShapes
        (method_with (task class_name.now consts.now p.now is_static is_init types.now []) program)
        (shapes_seen s.list)) }
    ensures bad { IfErr result (λ e. e ≡ stops.NotYet → (program : machine.Program)
        (x : Assignment) → HasCode consts.now p.now program → AreFaultless
        (method_with (task class_name.now consts.now p.now is_static is_init types.now []) program)
        x → ⊥) }
{
    // The law that the proof stands on.
    one_least();
    let entry = entry_shape(alloc, class_name, is_static, is_init, types)?;
    match shapes(alloc, class_name, p, consts, &entry, &[], Some(types)) {
        Ok(found) => Ok(found),
        Err(ShapeFault::BadCode(_)) => Err(CallStop::NotYet),
        Err(ShapeFault::Memory) => Err(CallStop::Memory),
    }
}

/// What becomes of each instruction of a method.
///
/// `NotYet`: its shapes have a fault, or a rule fits an instruction that is reached and takes
/// something from the stack or leaves something there.
pub fn choices_for(
    alloc: Global,
    class_name: &Text,
    consts: &Consts,
    p: &Program,
    is_static: bool,
    is_init: bool,
    types: &MethodType,
    rules: &[Rule],
) -> Result<Vec<Choice>, CallStop>
    requires { AllowsProgram consts.now p.now }
    ensures long { IfOk result (λ choices. length choices.items ≡ length p.now.instrs) }
    ensures chosen { IfOk result (λ choices. (program : machine.Program) → IsProgramOf
        (task class_name.now consts.now p.now is_static is_init types.now rules.now) program
        → AreChosen
        (task class_name.now consts.now p.now is_static is_init types.now rules.now) program
        choices.items) }
    ensures not_yet { IfErr result (λ e. e ≡ stops.NotYet → (program : machine.Program)
        (x : Assignment) → IsProgramOf
        (task class_name.now consts.now p.now is_static is_init types.now rules.now) program
        → AreFaultless (method_with
        (task class_name.now consts.now p.now is_static is_init types.now rules.now) program) x
        → ArePlain rules.now x program → ⊥) }
{
    // The laws that the proof stands on.
    one_least();
    one_program();
    let found = match shapes_of(alloc, class_name, consts, p, is_static, is_init, types) {
        Ok(found) => found,
        Err(e) => return Err(e),
    };
    let Some(operations) = operations_of(alloc, consts, p.instrs.as_slice())? else {
        unreachable!();
    };
    choices_of(alloc, operations.as_slice(), found.list.as_slice(), rules)
}
