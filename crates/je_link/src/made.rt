//! Operations of their forms.

ghost use Rattle.std.specs.Prelude.{◌≡◌};
ghost use Rattle.je_machine.specs.Operation as machine;
ghost use Rattle.je_value.specs.Action.{action_in};
ghost use Rattle.je_value.specs.Basic.{basic_in};
ghost use Rattle.je_value.specs.Value.{value_in};

use je_value::{Action, ActionForm, Basic, BasicForm, Operation, OperationForm, Value, ValueForm};

/// The operation of what works on the stack and the outside alone.
pub(crate) fn basic(form: BasicForm) -> Operation
    ensures { result ≡ machine.Do (basic_in form) }
{
    Operation::of(OperationForm::Do(Basic::of(form)))
}

/// The operation of an action.
pub(crate) fn act(form: ActionForm) -> Operation
    ensures { result ≡ machine.Do (machine.Act (action_in form)) }
{
    basic(BasicForm::Act(Action::of(form)))
}

/// The operation that pushes a value.
pub(crate) fn push(form: ValueForm) -> Operation
    ensures { result ≡ machine.Do (machine.Push (value_in form)) }
{
    basic(BasicForm::Push(Value::of(form)))
}
