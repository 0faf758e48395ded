//! The edit of a class.

ghost use Rattle.std.specs.Prelude.{IfOk, IfErr, OnOk};
ghost use Rattle.je_session.specs.Cause.{StoppedAtMethod};
ghost use Rattle.je_session.specs.ClassEdit.{IsPlanEdit, plan_edit};
ghost use Rattle.je_session.specs.Kept.{MethodForm};

use crate::edit::{EditStop, edit_method};
use crate::plan::MethodPlan;
use crate::session::report::Stop;
use je_class::ClassFile;
use std::alloc::Global;

/// Edits the class by its plan, and tells how many expressions the rules chose.
///
/// # Errors
///
/// The planned method is not of the form that is edited, or there was not enough memory.
pub fn edit_class(alloc: Global, class: &mut ClassFile, plan: &MethodPlan) -> Result<usize, Stop>
    ensures edited { IfOk result (λ matched.
        IsPlanEdit (plan_edit plan.now class.old class.new matched)) }
    ensures form { OnOk result (MethodForm class.old plan.now.name) }
    ensures stopped { IfErr result (StoppedAtMethod class.old plan.now) }
{
    match edit_method(alloc, class, plan) {
        Ok(matched) => Ok(matched),
        Err(EditStop::NotYet) => Err(Stop::not_yet_class()),
        Err(EditStop::Memory) => Err(Stop::memory()),
    }
}
