//! The edit of one method.

ghost use Rattle.std.specs.Prelude.{◌≡◌, IfOk, IfErr, OnOk, OnErr};
ghost use Rattle.je_session.specs.declared.edit.stop.EditStop.TheVariants as stops;
ghost use Rattle.je_session.specs.ClassEdit.{IsPlanEdit, plan_edit};
ghost use Rattle.je_session.specs.Kept.{MethodForm};

use crate::edit::chosen::{choose, count_chosen};
use crate::edit::code::new_code;
use crate::edit::editable::find_editable;
use crate::edit::stop::EditStop;
use crate::laws::one_program;
use crate::plan::MethodPlan;
use je_base::Run;
use je_class::{ClassFile, MOST_BYTES};
use je_instr::opcodes_mean;
use je_machine::{actions_do, machine_runs};
use std::alloc::Global;

/// Edits the method of the plan, and tells how many expressions its rules chose.
///
/// # Errors
///
/// `NotYet`: the method is not there, or not of the form that can be edited. `Memory`: there was
/// not enough memory. After an error the class is as it was.
pub fn edit_method(
    alloc: Global,
    class: &mut ClassFile,
    plan: &MethodPlan,
) -> Result<usize, EditStop>
    // All that the edit owes is said of the same method and the same number.
    ensures edited { IfOk result (λ matched.
        IsPlanEdit (plan_edit plan.now class.old class.new matched)) }
    // It is refused exactly where the method has not the form.
    ensures form { OnOk result (MethodForm class.old plan.now.name) }
    ensures not_yet { IfErr result (λ e.
        e ≡ stops.NotYet → MethodForm class.old plan.now.name → ⊥) }
    ensures err { OnErr result (class.new ≡ class.old) }
{
    // The laws that the proof stands on.
    actions_do();
    machine_runs();
    opcodes_mean();
    one_program();

    let editable = find_editable(alloc, class, &plan.name)?;
    let code = &editable.code;
    let chosen = choose(
        alloc,
        class.consts(),
        code.decoded.program.instrs.as_slice(),
        plan.rules.as_slice(),
    )?;
    let count = count_chosen(chosen.as_slice());
    if count == 0 {
        return Ok(0);
    }
    let bytes = new_code(alloc, class.consts(), code, chosen.as_slice())?;
    let run = Run::of_vec(alloc, bytes)?;
    // No Code of so many bytes fits a class file that can be read again.
    if run.len() > MOST_BYTES {
        return Err(EditStop::Memory);
    }
    class.set_method_attribute(editable.at, 0, run);
    Ok(count)
}
