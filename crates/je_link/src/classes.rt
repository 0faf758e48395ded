//! Instructions that name a class (JVMS 6.5).

ghost use Rattle.std.specs.Prelude.{◌≡◌, ◌≤◌, Some, IfOk, IfSome};
ghost use Rattle.je_desc.specs.FieldType as types;
ghost use Rattle.je_instr.specs.Allowed.{NamesType};
ghost use Rattle.je_instr.specs.Content.{Names, content_at};
ghost use Rattle.je_instr.specs.Resolves.{OfClass, OfType};
ghost use Rattle.je_instr.specs.Views.{of_class};
ghost use Rattle.je_machine.specs.Action as actions;
ghost use Rattle.je_machine.specs.Operation as machine;
ghost use Rattle.je_link.specs.OfTypes.{IsOfType};

use crate::content::text_in;
use crate::made::act;
use je_base::{Memory, Run};
use je_consts::{Const, ConstIndex, Consts};
use je_desc::is_class_name;
use je_value::{ActionForm, ElementType, FieldType, Operation, read_field_type};
use std::alloc::Global;

/// The text of the class at an index.
pub(crate) fn class_text(
    alloc: Global,
    consts: &Consts,
    index: ConstIndex,
) -> Result<Option<Run>, Memory>
    ensures { IfOk result (λ found. found ≡ of_class (content_at consts.now index)) }
{
    let Some(Const::Class(name)) = consts.get(index) else {
        return Ok(None);
    };
    text_in(alloc, consts, *name)
}

/// new.
pub(crate) fn new(
    alloc: Global,
    consts: &Consts,
    index: ConstIndex,
) -> Result<Option<Operation>, Memory>
    ensures { (o : machine.Operation) → Names consts.now index (OfClass actions.New o)
        → IfOk result (λ found. found ≡ Some o) }
{
    match class_text(alloc, consts, index)? {
        Some(class) => Ok(Some(act(ActionForm::New(class)))),
        None => Ok(None),
    }
}

/// checkcast.
pub(crate) fn check_cast(
    alloc: Global,
    consts: &Consts,
    index: ConstIndex,
) -> Result<Option<Operation>, Memory>
    ensures { (o : machine.Operation) → Names consts.now index (OfClass actions.CheckCast o)
        → IfOk result (λ found. found ≡ Some o) }
{
    match class_text(alloc, consts, index)? {
        Some(class) => Ok(Some(act(ActionForm::CheckCast(class)))),
        None => Ok(None),
    }
}

/// instanceof.
pub(crate) fn instance_of(
    alloc: Global,
    consts: &Consts,
    index: ConstIndex,
) -> Result<Option<Operation>, Memory>
    ensures { (o : machine.Operation) → Names consts.now index (OfClass actions.InstanceOf o)
        → IfOk result (λ found. found ≡ Some o) }
{
    match class_text(alloc, consts, index)? {
        Some(class) => Ok(Some(act(ActionForm::InstanceOf(class)))),
        None => Ok(None),
    }
}

/// The type that the text of a class names (JVMS 4.4.1).
fn named_type(alloc: Global, text: Run) -> Result<Option<FieldType>, Memory>
    ensures only { (t : types.FieldType) → NamesType text t →
        IfOk result (λ found. found ≡ Some t) }
    ensures within { IfOk result (λ found. IfSome found (λ t. types.dimensions t ≤ 255)) }
{
    if is_class_name(text.as_slice()) {
        return Ok(Some(FieldType::of(0, ElementType::Object(text))));
    }
    read_field_type(alloc, text.as_slice())
}

/// The array of a type.
fn array_of(of: &FieldType) -> Result<FieldType, Memory>
    requires { types.dimensions of.now ≤ 255 }
    ensures { IfOk result (λ t. t ≡ types.Array of.now) }
{
    let (dimensions, element) = of.parts();
    let element = match element {
        ElementType::Base(base) => ElementType::Base(*base),
        ElementType::Object(name) => ElementType::Object(name.copy()?),
    };
    Ok(FieldType::of(dimensions + 1, element))
}

/// The type that the class at an index names.
fn type_at(alloc: Global, consts: &Consts, index: ConstIndex) -> Result<Option<FieldType>, Memory>
    ensures only { (t : types.FieldType) → Names consts.now index (IsOfType t) →
        IfOk result (λ found. found ≡ Some t) }
    ensures within { IfOk result (λ found. IfSome found (λ t. types.dimensions t ≤ 255)) }
{
    match class_text(alloc, consts, index)? {
        Some(text) => named_type(alloc, text),
        None => Ok(None),
    }
}

/// anewarray.
pub(crate) fn reference_array(
    alloc: Global,
    consts: &Consts,
    index: ConstIndex,
) -> Result<Option<Operation>, Memory>
    ensures { (o : machine.Operation) →
        Names consts.now index (OfType (λ t. actions.NewArray (types.Array t) 1) o)
        → IfOk result (λ found. found ≡ Some o) }
{
    match type_at(alloc, consts, index)? {
        Some(of) => {
            let of = array_of(&of)?;
            Ok(Some(act(ActionForm::NewArray(of, 1))))
        }
        None => Ok(None),
    }
}

/// multianewarray.
pub(crate) fn arrays(
    alloc: Global,
    consts: &Consts,
    index: ConstIndex,
    count: u8,
) -> Result<Option<Operation>, Memory>
    ensures { (o : machine.Operation) →
        Names consts.now index (OfType (λ t. actions.NewArray t count) o)
        → IfOk result (λ found. found ≡ Some o) }
{
    match type_at(alloc, consts, index)? {
        Some(of) => Ok(Some(act(ActionForm::NewArray(of, count)))),
        None => Ok(None),
    }
}
