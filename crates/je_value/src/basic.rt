//! Instructions that work on the stack and the outside alone.

ghost use Rattle.std.specs.Prelude.{◌≡◌};
ghost use Rattle.je_value.specs.Basic.{basic_in};

use crate::action::Action;
use crate::value::Value;
use std::marker::Model;

/// Which instruction it is that works on the stack and the outside alone (JVMS 6.5).
#[derive(Debug, Drop)]
pub enum BasicForm {
    Nop,
    /// aconst_null to ldc2_w.
    Push(Value),
    /// pop (one place), pop2 (two).
    Drop(usize),
    /// The top so many places once more, under the next so many: dup (1, 0), dup_x1 (1, 1),
    /// dup_x2 (1, 2), dup2 (2, 0), dup2_x1 (2, 1), dup2_x2 (2, 2).
    Copy(usize, usize),
    Swap,
    /// An action on the operands on the stack.
    Act(Action),
    /// athrow.
    Throw,
}

/// What works on the stack and the outside alone, which contracts see as the definition's `Basic`.
#[derive(Debug, Drop)]
pub struct Basic {
    form: BasicForm,
}

impl Model for Basic {
    ghost use Rattle.je_machine.specs.Operation as machine;

    ghost Value = { machine.Basic };

    ghost use Rattle.je_value.specs.BasicCode.{basic_code};

    ghost coded = { basic_code };

    ghost use Rattle.je_value.specs.Basic.{basic_in};

    ghost view = { λ b. basic_in b.form };
}

impl Basic {
    /// The instruction of this form.
    pub fn of(form: BasicForm) -> Basic
        ensures { result ≡ basic_in form }
    {
        Basic { form }
    }

    /// Its form.
    pub fn form(&self) -> &BasicForm
        ensures { self.now ≡ basic_in result.now }
    {
        &self.form
    }
}
