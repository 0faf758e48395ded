//! What each action does (JVMS 6.5).

ghost use Rattle.std.specs.Prelude.{◌≡◌, pos, Some, None, ◌&&◌, IfOk};
ghost use Rattle.je_machine.specs.Value.{IntKind, Int, value_at, is_null, admit, admit_all};
ghost use Rattle.je_machine.specs.Heap.{array_length, next_object, allocate, new_instance};
ghost use Rattle.je_machine.specs.Outside.{with_heap};
ghost use Rattle.je_machine.specs.Classes.{is_instance};
ghost use Rattle.je_machine.specs.Action.{operands_of, result_of};
ghost use Rattle.je_machine.specs.Acting.{calculated, cast, int_of_bool, answer, gave};
ghost use Rattle.je_machine.specs.Acting.{act_on, act, admit_result, admit_response};
ghost use Rattle.je_heap.specs.Response.{response_of};
ghost use Rattle.je_vm.specs.Acting.{AreAdmitted};

use crate::arrays::{load_element, make_array_of, store_element};
use crate::exceptions::{arithmetic, class_cast};
use crate::fields::{get_field, get_static, put_field, put_static};
use je_base::{Memory, Run};
use je_heap::{
    Classes, Outside, Response, array_length, float_operation, invoke, is_instance, make_object,
    monitor_operation, new_instance, null_pointer,
};
use je_value::{
    Action, ActionForm, Kind, Value, ValueForm, admit, admit_all, calculate, is_null_at,
    kind_of_element, value_at, zero_of,
};
use sqlite_items::Items;
use std::alloc::Global;

/// What a calculation comes to.
fn calculated(alloc: Global, value: Option<Value>, outside: Outside) -> Result<Response, Memory>
    ensures { IfOk result (λ r. response_of r ≡ calculated value outside) }
{
    match value {
        Some(value) => Ok(Response::Gave(Some(value), outside)),
        None => {
            let response = arithmetic(alloc, outside)?;
            Ok(response)
        }
    }
}

/// A length as an int. One that is none counts as zero.
fn int_of_length(length: usize) -> i32
    ensures { admit IntKind (Int result) ≡ admit IntKind (Int (pos length)) }
{
    match i32::try_from(length) {
        Ok(length) => length,
        Err(_) => 0,
    }
}

/// The length of an array.
fn length_of(operands: &[Value], outside: Outside) -> Result<Response, Memory>
    ensures { IfOk result (λ r. admit_response (Some IntKind) (response_of r)
        ≡ admit_response (Some IntKind)
        (gave (Int (pos (array_length outside.heap (value_at operands.now 0)))) outside)) }
{
    let target = value_at(operands, 0)?;
    let length = int_of_length(array_length(outside.heap(), &target));
    Ok(Response::Gave(Some(Value::of(ValueForm::Int(length))), outside))
}

/// A new object of the class.
fn make_instance(alloc: Global, class: &Run, outside: Outside) -> Result<Response, Memory>
    ensures { IfOk result (λ r. response_of r ≡ gave (next_object outside.heap)
        (with_heap (allocate (new_instance class.now) outside.heap) outside)) }
{
    let object = new_instance(alloc, class.copy()?);
    let (heap, events, answers) = outside.into_parts();
    let (reference, heap) = make_object(object, heap)?;
    Ok(Response::Gave(Some(reference), Outside::new(heap, events, answers)))
}

/// Whether the first operand is an instance of the class.
fn is_first_instance(
    classes: &Classes,
    class: &Run,
    operands: &[Value],
    outside: &Outside,
) -> Result<bool, Memory>
    ensures { IfOk result (λ is. is
        ≡ is_instance classes.now outside.now.heap (value_at operands.now 0) class.now) }
{
    let reference = value_at(operands, 0)?;
    Ok(is_instance(classes, outside.heap(), &reference, class.as_slice()))
}

/// Drops a value, so that no caller has a case for each of its forms.
fn discard(_value: Option<Value>) {}

/// A cast of a reference that is an instance of the class or is not.
fn cast(alloc: Global, fits: bool, reference: Value, outside: Outside) -> Result<Response, Memory>
    ensures { IfOk result (λ r. response_of r ≡ cast fits reference outside) }
{
    if fits {
        Ok(Response::Gave(Some(reference), outside))
    } else if reference.is_null() {
        Ok(Response::Gave(Some(reference), outside))
    } else {
        discard(Some(reference));
        let response = class_cast(alloc, outside)?;
        Ok(response)
    }
}

/// 1 where it holds, and 0 where not.
fn int_of_bool(holds: bool) -> Value
    ensures { result ≡ int_of_bool holds }
{
    if holds {
        Value::of(ValueForm::Int(1))
    } else {
        Value::of(ValueForm::Int(0))
    }
}

/// What an action does on operands of the right kinds, of which a target is not null, where a
/// result of another kind counts as zero.
fn answer(
    alloc: Global,
    classes: &Classes,
    action: &Action,
    operands: &[Value],
    outside: Outside,
) -> Result<Response, Memory>
    requires { AreAdmitted action.now operands.now }
    ensures { IfOk result (λ r. admit_response (result_of action.now) (response_of r)
        ≡ admit_response (result_of action.now)
        (answer classes.now action.now operands.now outside)) }
{
    match action.form() {
        ActionForm::Calculate(calculation) => {
            calculated(alloc, calculate(*calculation, operands), outside)
        }
        ActionForm::FloatOperation(_, _, kind) => {
            float_operation(alloc, *kind, action, operands, outside)
        }
        ActionForm::ArrayLength => length_of(operands, outside),
        ActionForm::LoadElement(element) => {
            load_element(alloc, kind_of_element(*element), operands, outside)
        }
        ActionForm::StoreElement(element) => {
            store_element(alloc, classes, kind_of_element(*element), operands, outside)
        }
        ActionForm::GetField(field) => get_field(alloc, classes, field, operands, outside),
        ActionForm::PutField(field) => put_field(alloc, classes, field, operands, outside),
        ActionForm::GetStatic(field) => get_static(alloc, classes, field, operands, outside),
        ActionForm::PutStatic(field) => put_static(alloc, classes, field, operands, outside),
        ActionForm::Invoke(_, _, _) => invoke(alloc, action, operands, outside),
        ActionForm::New(class) => make_instance(alloc, class, outside),
        ActionForm::NewArray(of, _) => make_array_of(alloc, of, operands, outside),
        ActionForm::CheckCast(class) => {
            let fits = is_first_instance(classes, class, operands, &outside)?;
            cast(alloc, fits, value_at(operands, 0)?, outside)
        }
        ActionForm::InstanceOf(class) => {
            let is = is_first_instance(classes, class, operands, &outside)?;
            Ok(Response::Gave(Some(int_of_bool(is)), outside))
        }
        ActionForm::MonitorEnter | ActionForm::MonitorExit => {
            monitor_operation(alloc, action, operands, outside)
        }
    }
}

/// What an action does on operands of the right kinds. A null target throws before any other test,
/// and makes no event.
fn unless_null(
    alloc: Global,
    classes: &Classes,
    action: &Action,
    operands: &[Value],
    outside: Outside,
) -> Result<Response, Memory>
    requires { AreAdmitted action.now operands.now }
    ensures { IfOk result (λ r. admit_response (result_of action.now) (response_of r)
        ≡ act_on classes.now action.now operands.now outside) }
{
    if action.has_target() && is_null_at(operands, 0) {
        null_pointer(alloc, outside)
    } else {
        answer(alloc, classes, action, operands, outside)
    }
}

/// A result of the kind. An action without a result gives none.
fn admit_result(kind: Option<Kind>, value: Option<Value>) -> Option<Value>
    ensures { result ≡ admit_result kind value }
{
    match kind {
        None => {
            discard(value);
            None
        }
        Some(kind) => match value {
            None => Some(zero_of(kind)),
            Some(value) => Some(admit(kind, value)),
        },
    }
}

/// A response whose result is of the kind.
fn admit_response(kind: Option<Kind>, response: Response) -> Response
    ensures { response_of result ≡ admit_response kind (response_of response) }
{
    match response {
        Response::Gave(value, after) => Response::Gave(admit_result(kind, value), after),
        Response::Threw(reference, after) => Response::Threw(reference, after),
        Response::Waits(after) => Response::Waits(after),
    }
}

/// What an action does on operands of the right kinds, with a result of its kind.
fn act_on(
    alloc: Global,
    classes: &Classes,
    action: &Action,
    operands: &[Value],
    outside: Outside,
) -> Result<Response, Memory>
    requires { AreAdmitted action.now operands.now }
    ensures { IfOk result (λ r. response_of r
        ≡ act_on classes.now action.now operands.now outside) }
{
    let response = unless_null(alloc, classes, action, operands, outside)?;
    Ok(admit_response(action.result_of(), response))
}

/// The operands of an action, each of its kind.
#[tactic(auto, using(crate::proofs::ActingLemmas::again))]
fn admitted(alloc: Global, action: &Action, operands: &[Value]) -> Result<Items<Value>, Memory>
    ensures all { IfOk result (λ all. all ≡ admit_all (operands_of action.now) operands.now) }
    ensures are { IfOk result (λ all. AreAdmitted action.now all) }
{
    let kinds = action.operands_of(alloc)?;
    let all = admit_all(alloc, kinds.as_slice(), operands)?;
    Ok(all)
}

/// What an action does on operands, the deepest first. Where one, or the result, is not of the kind
/// of the action, it counts as zero.
///
/// # Errors
///
/// `Memory` where memory runs out.
pub fn act(
    alloc: Global,
    classes: &Classes,
    action: &Action,
    operands: &[Value],
    outside: Outside,
) -> Result<Response, Memory>
    ensures { IfOk result (λ r. response_of r
        ≡ act classes.now action.now operands.now outside) }
{
    let all = admitted(alloc, action, operands)?;
    act_on(alloc, classes, action, all.as_slice(), outside)
}
