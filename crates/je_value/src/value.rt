//! Values.

ghost use Rattle.std.specs.Prelude.{◌≡◌, IfOk};
ghost use Rattle.je_machine.specs.Value.{number_of, is_null, is_same_reference, places_of};
ghost use Rattle.je_value.specs.Value.{value_in};

use crate::content::Content;
use je_base::Memory;
use std::marker::Model;

/// Which value it is (JVMS 2.3 and 2.4).
#[derive(Debug, Drop)]
pub enum ValueForm {
    Int(i32),
    Long(i64),
    /// The bits of a float.
    Float(u32),
    /// The bits of a double.
    Double(u64),
    Null,
    /// The object of this number on the heap.
    Object(usize),
    /// A constant that was loaded: a class, a string, a method handle or a method type.
    Constant(Content),
}

/// A value, which contracts see as the definition's `Value`.
#[derive(Debug, Drop)]
pub struct Value {
    form: ValueForm,
}

impl Model for Value {
    ghost use Rattle.je_machine.specs.Value as machine;

    ghost Value = { machine.Value };

    ghost use Rattle.je_value.specs.Value.{value_in};

    ghost view = { λ v. value_in v.form };
}

impl Value {
    /// The value of this form.
    pub fn of(form: ValueForm) -> Value
        ensures { result ≡ value_in form }
    {
        Value { form }
    }

    /// Its form.
    pub fn form(&self) -> &ValueForm
        ensures { self.now ≡ value_in result.now }
    {
        &self.form
    }

    /// The same value once more.
    ///
    /// # Errors
    ///
    /// `Memory` where memory runs out.
    pub fn copy(&self) -> Result<Value, Memory>
        ensures { IfOk result (λ v. v ≡ self.now) }
    {
        let form = match &self.form {
            ValueForm::Int(n) => ValueForm::Int(*n),
            ValueForm::Long(n) => ValueForm::Long(*n),
            ValueForm::Float(bits) => ValueForm::Float(*bits),
            ValueForm::Double(bits) => ValueForm::Double(*bits),
            ValueForm::Null => ValueForm::Null,
            ValueForm::Object(number) => ValueForm::Object(*number),
            ValueForm::Constant(content) => ValueForm::Constant(content.copy()?),
        };
        Ok(Value { form })
    }

    /// The number of an int or a long, and 0 of every other value.
    pub fn number_of(&self) -> i64
        ensures { result ≡ number_of self.now }
    {
        match &self.form {
            ValueForm::Int(n) => *n as i64,
            ValueForm::Long(n) => *n,
            _ => 0,
        }
    }

    /// Whether it is null.
    pub fn is_null(&self) -> bool
        ensures { result ≡ is_null self.now }
    {
        matches!(&self.form, ValueForm::Null)
    }

    /// Whether two values are one reference (JVMS 6.5, if_acmp).
    pub fn is_same_reference(&self, other: &Value) -> bool
        ensures { result ≡ is_same_reference self.now other.now }
    {
        match (&self.form, &other.form) {
            (ValueForm::Null, ValueForm::Null) => true,
            (ValueForm::Object(a), ValueForm::Object(b)) => *a == *b,
            (ValueForm::Constant(a), ValueForm::Constant(b)) => a.is_same_loaded(b),
            _ => false,
        }
    }

    /// The places that it takes on the stack or in local variables (JVMS 2.6.1 and 2.6.2).
    pub fn places_of(&self) -> usize
        ensures { result ≡ places_of self.now }
    {
        match &self.form {
            ValueForm::Long(_) | ValueForm::Double(_) => 2,
            _ => 1,
        }
    }
}
