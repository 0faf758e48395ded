//! Instructions with all that they name in place.

ghost use Rattle.std.specs.Prelude.{◌≡◌};
ghost use Rattle.je_value.specs.Operation.{operation_in};

use crate::basic::Basic;
use crate::condition::Condition;
use crate::kind::Kind;
use sqlite_items::Items;
use std::marker::Model;

/// A case of a switch: a key, and the index of the instruction that it leads to.
pub type SwitchCase = (i32, usize);

/// Which instruction it is (JVMS 6.5). Targets are indexes of instructions.
#[derive(Debug, Drop)]
pub enum OperationForm {
    Do(Basic),
    /// iload to aload, of a slot.
    Load(Kind, usize),
    /// istore to astore, to a slot.
    Store(Kind, usize),
    /// iinc, of a slot and by so much.
    Increment(usize, i32),
    /// ifeq to if_acmpne, ifnull, ifnonnull.
    Branch(Condition, usize),
    /// goto, goto_w.
    Goto(usize),
    /// tableswitch, lookupswitch: the cases, and the target of all others.
    Switch(Items<SwitchCase>, usize),
    /// return, and ireturn to areturn.
    Return(Option<Kind>),
}

/// An instruction, which contracts see as the definition's `Operation`.
#[derive(Debug, Drop)]
pub struct Operation {
    form: OperationForm,
}

impl Model for Operation {
    ghost use Rattle.je_machine.specs.Operation as machine;

    ghost Value = { machine.Operation };

    ghost use Rattle.je_value.specs.OperationCode.{operation_code};

    ghost coded = { operation_code };

    ghost use Rattle.je_value.specs.Operation.{operation_in};

    ghost view = { λ o. operation_in o.form };
}

impl Operation {
    /// The instruction of this form.
    pub fn of(form: OperationForm) -> Operation
        ensures { result ≡ operation_in form }
    {
        Operation { form }
    }

    /// Its form.
    pub fn form(&self) -> &OperationForm
        ensures { self.now ≡ operation_in result.now }
    {
        &self.form
    }
}
