//! The least shapes of a method.

ghost use Rattle.std.specs.Prelude.{◌≡◌, ℕ, IfOk, option_map};
ghost use Rattle.std.specs.Option.{option_copied};
ghost use Rattle.je_desc.specs.Types.{field_type_of};
ghost use Rattle.je_machine.specs.Operation as machine;
ghost use Rattle.je_machine.specs.Value.{kind_of};
ghost use Rattle.je_shape.specs.Views.{shapes_seen};
ghost use Rattle.je_least.specs.Answer.{method_of, IsShapes, IsBadCode};
ghost use Rattle.je_instr.specs.Assembling.{AllowsProgram};
ghost use Rattle.je_shapes.specs.Code.{HasCode, result_of};

use je_base::{Memory, Text};
use je_consts::Consts;
use je_desc::{JType, MethodType};
use je_instr::Program as Code;
use je_least::{ShapeFault, Shapes, least_shapes};
use je_link::{handlers_of, operations_of};
use je_shape::Shape;
use je_value::{Kind, KindForm, Program};
use sqlite_items::Items;
use std::alloc::Global;

/// The kind of the values of a type (JVMS 2.11.1).
fn kind_of(t: &JType) -> Kind
    ensures { result ≡ kind_of (field_type_of t.now) }
{
    match t {
        JType::Long => Kind::of(KindForm::Long),
        JType::Float => Kind::of(KindForm::Float),
        JType::Double => Kind::of(KindForm::Double),
        JType::Class(_) | JType::Array(_) => Kind::of(KindForm::Reference),
        _ => Kind::of(KindForm::Int),
    }
}

/// The kind of a method's result, or none of it, where its type is given.
fn result_of(m: Option<&MethodType>) -> Option<Option<Kind>>
    ensures { result ≡ result_of (option_copied m.entry) }
{
    match m {
        Some(m) => match &m.result {
            Some(t) => Some(Some(kind_of(t))),
            None => Some(None),
        },
        None => None,
    }
}

/// The operations and handlers that a program has, without parameters, which no shape depends on.
fn linked(alloc: Global, p: &Code, consts: &Consts) -> Result<Program, Memory>
    requires { AllowsProgram consts.now p.now }
    ensures { IfOk result (λ program. HasCode consts.now p.now program) }
{
    let Some(operations) = operations_of(alloc, consts, p.instrs.as_slice())? else {
        unreachable!();
    };
    let Some(handlers) = handlers_of(alloc, consts, p.handlers.as_slice())? else {
        unreachable!();
    };
    Ok(Program::of(Items::new(alloc), operations, handlers))
}

/// The least shapes of a method of a class (JVMS 4.10.1.6), by its instructions and handlers, the
/// constants of the class, the shape with which it begins, the frames that its StackMapTable gives
/// for indexes, of which the first of an index counts, and its type, where its returns are to be of
/// the kind of its result.
///
/// # Errors
///
/// `BadCode` with the index of the first fault; `Memory` where memory runs out.
pub fn shapes(
    alloc: Global,
    class_name: &Text,
    p: &Code,
    consts: &Consts,
    entry: &Shape,
    frames: &[(u32, Shape)],
    m: Option<&MethodType>,
) -> Result<Shapes, ShapeFault>
    requires { AllowsProgram consts.now p.now }
    ensures shapes { IfOk result (λ s. (program : machine.Program) →
        HasCode consts.now p.now program
        → IsShapes (method_of class_name.now program entry.now frames.now
        (result_of (option_copied m.entry))) (shapes_seen s.list)) }
    ensures bad { (at : ℕ) (program : machine.Program) → result ≡ Err (ShapeFault.BadCode at)
        → HasCode consts.now p.now program
        → IsBadCode (method_of class_name.now program entry.now frames.now
        (result_of (option_copied m.entry))) at }
{
    let Ok(program) = linked(alloc, p, consts) else {
        return Err(ShapeFault::Memory);
    };
    least_shapes(alloc, class_name, &program, entry, frames, result_of(m))
}
