//! The kinds of values.

ghost use Rattle.std.specs.Prelude.{◌≡◌};
ghost use Rattle.je_value.specs.Kind.{kind_in};

use std::marker::Model;

/// Which kind it is (JVMS 2.11.1): int stands for boolean, byte, char and short too.
#[derive(Clone, Copy, Debug, PartialEq, Eq)]
pub enum KindForm {
    Int,
    Long,
    Float,
    Double,
    Reference,
}

/// A kind of values, which contracts see as the definition's `Kind`.
#[derive(Clone, Copy, Debug)]
pub struct Kind {
    form: KindForm,
}

impl Model for Kind {
    ghost use Rattle.je_machine.specs.Value as machine;
    ghost use Rattle.je_value.specs.Kind.{kind_in, kind_back, kind_is_back};

    ghost Value = { machine.Kind };

    ghost view = { λ k. kind_in k.form };

    ghost inverse = { λ k. record { form = kind_back k } };

    ghost inverse_ok = { λ a h. kind_is_back a };
}

impl Kind {
    /// The kind of this form.
    pub fn of(form: KindForm) -> Kind
        ensures { result ≡ kind_in form }
    {
        Kind { form }
    }

    /// Its form.
    pub fn form(self) -> KindForm
        ensures { self ≡ kind_in result }
    {
        self.form
    }
}
