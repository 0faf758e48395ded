//! What instructions do that compute, throw, or touch the heap or the outside.

ghost use Rattle.std.specs.Prelude.{◌≡◌, IfOk};
ghost use Rattle.je_machine.specs.Action.{kind_of_element, has_receiver, receiver_of, operands_of};
ghost use Rattle.je_machine.specs.Action.{result_of, has_target};
ghost use Rattle.je_value.specs.Action.{element_in, sort_in, action_in};

use crate::calculation::{Calculation, calculation_operands, calculation_result};
use crate::content::Content;
use crate::field_type::{FieldType, MethodTypes};
use crate::kind::{Kind, KindForm};
use crate::kinds::{kinds_of, one, three, two, with_ints};
use je_base::{Memory, Run};
use sqlite_items::Items;
use std::alloc::Global;
use std::marker::Model;

/// What an instruction takes the elements of an array to be.
#[derive(Clone, Copy, Debug)]
pub enum Element {
    Bytes,
    Chars,
    Shorts,
    Ints,
    Longs,
    Floats,
    Doubles,
    References,
}

/// Which of the five instructions calls (invokevirtual, invokespecial, invokestatic,
/// invokeinterface and invokedynamic).
#[derive(Clone, Copy, Debug)]
pub enum Sort {
    Virtual,
    Special,
    Static,
    Interface,
    Dynamic,
}

/// A field as an instruction names it, which contracts see as the definition's `Field`.
#[derive(Debug, Drop)]
pub struct Field {
    class: Run,
    name: Run,
    field_type: FieldType,
}

impl Model for Field {
    ghost use Rattle.je_machine.specs.Action as actions;

    ghost Value = { actions.Field };

    ghost use Rattle.je_value.specs.FieldTypeCode.{field_code};

    ghost coded = { field_code };

    ghost view = { λ f. record { class = f.class; name = f.name; type = f.field_type } };
}

impl Field {
    /// The field of this class, name and type.
    pub fn of(class: Run, name: Run, field_type: FieldType) -> Field
        ensures class { result.class ≡ class }
        ensures name { result.name ≡ name }
        ensures kind { result.type ≡ field_type }
    {
        Field {
            class,
            name,
            field_type,
        }
    }

    /// The class that is named.
    pub fn class(&self) -> &Run
        ensures { result.now ≡ self.now.class }
    {
        &self.class
    }

    /// Its name.
    pub fn name(&self) -> &Run
        ensures { result.now ≡ self.now.name }
    {
        &self.name
    }

    /// Its type.
    pub fn field_type(&self) -> &FieldType
        ensures { result.now ≡ self.now.type }
    {
        &self.field_type
    }

    /// The same field once more.
    ///
    /// # Errors
    ///
    /// `Memory` where memory runs out.
    pub fn copy(&self) -> Result<Field, Memory>
        ensures { IfOk result (λ f. f ≡ self.now) }
    {
        let class = self.class.copy()?;
        let name = self.name.copy()?;
        let field_type = self.field_type.copy()?;
        Ok(Field {
            class,
            name,
            field_type,
        })
    }
}

/// Which action it is (JVMS 6.5), with the class, name and types that it names.
#[derive(Debug, Drop)]
pub enum ActionForm {
    /// Arithmetic, shifts and conversions of ints and longs, and lcmp.
    Calculate(Calculation),
    /// Arithmetic, comparisons and conversions of floats and doubles, by the opcode, the kinds of
    /// the operands and that of the result.
    FloatOperation(u8, Items<Kind>, Kind),
    ArrayLength,
    /// iaload to saload.
    LoadElement(Element),
    /// iastore to sastore.
    StoreElement(Element),
    GetField(Field),
    PutField(Field),
    GetStatic(Field),
    PutStatic(Field),
    /// Calls the method that the content names, of these types.
    Invoke(Sort, Content, MethodTypes),
    /// Makes an object of the class (new).
    New(Run),
    /// Makes an array of the type, with sizes for so many dimensions (newarray, anewarray and
    /// multianewarray).
    NewArray(FieldType, u8),
    CheckCast(Run),
    InstanceOf(Run),
    MonitorEnter,
    MonitorExit,
}

/// An action, which contracts see as the definition's `Action`.
#[derive(Debug, Drop)]
pub struct Action {
    form: ActionForm,
}

impl Model for Action {
    ghost use Rattle.je_machine.specs.Action as actions;

    ghost Value = { actions.Action };

    ghost use Rattle.je_value.specs.ActionCode.{action_code};

    ghost coded = { action_code };

    ghost use Rattle.je_value.specs.Action.{action_in};

    ghost view = { λ a. action_in a.form };
}

/// The kind of the elements.
pub fn kind_of_element(element: Element) -> Kind
    ensures { result ≡ kind_of_element (element_in element) }
{
    match element {
        Element::Longs => Kind::of(KindForm::Long),
        Element::Floats => Kind::of(KindForm::Float),
        Element::Doubles => Kind::of(KindForm::Double),
        Element::References => Kind::of(KindForm::Reference),
        _ => Kind::of(KindForm::Int),
    }
}

/// Whether a call has a target, as all but a static and a dynamic one have.
pub fn has_receiver(sort: Sort) -> bool
    ensures { result ≡ has_receiver (sort_in sort) }
{
    !matches!(sort, Sort::Static | Sort::Dynamic)
}

/// The kind of the target of a call, if it has one.
///
/// # Errors
///
/// `Memory` where memory runs out.
pub fn receiver_of(alloc: Global, sort: Sort) -> Result<Items<Kind>, Memory>
    ensures { IfOk result (λ kinds. kinds ≡ receiver_of (sort_in sort)) }
{
    match sort {
        Sort::Static | Sort::Dynamic => Ok(Items::new(alloc)),
        _ => one(alloc, Kind::of(KindForm::Reference)),
    }
}

impl Action {
    /// The action of this form.
    pub fn of(form: ActionForm) -> Action
        ensures { result ≡ action_in form }
    {
        Action { form }
    }

    /// Its form.
    pub fn form(&self) -> &ActionForm
        ensures { self.now ≡ action_in result.now }
    {
        &self.form
    }

    /// The same action once more.
    ///
    /// # Errors
    ///
    /// `Memory` where memory runs out.
    pub fn copy(&self, alloc: Global) -> Result<Action, Memory>
        ensures { IfOk result (λ a. a ≡ self.now) }
    {
        let form = match &self.form {
            ActionForm::Calculate(calculation) => ActionForm::Calculate(*calculation),
            ActionForm::FloatOperation(opcode, operands, kind) => {
                let operands = Items::from_slice(alloc, operands.as_slice())?;
                ActionForm::FloatOperation(*opcode, operands, *kind)
            }
            ActionForm::ArrayLength => ActionForm::ArrayLength,
            ActionForm::LoadElement(element) => ActionForm::LoadElement(*element),
            ActionForm::StoreElement(element) => ActionForm::StoreElement(*element),
            ActionForm::GetField(field) => ActionForm::GetField(field.copy()?),
            ActionForm::PutField(field) => ActionForm::PutField(field.copy()?),
            ActionForm::GetStatic(field) => ActionForm::GetStatic(field.copy()?),
            ActionForm::PutStatic(field) => ActionForm::PutStatic(field.copy()?),
            ActionForm::Invoke(sort, method, types) => {
                let method = method.copy()?;
                ActionForm::Invoke(*sort, method, types.copy(alloc)?)
            }
            ActionForm::New(class) => ActionForm::New(class.copy()?),
            ActionForm::NewArray(of, dimensions) => ActionForm::NewArray(of.copy()?, *dimensions),
            ActionForm::CheckCast(class) => ActionForm::CheckCast(class.copy()?),
            ActionForm::InstanceOf(class) => ActionForm::InstanceOf(class.copy()?),
            ActionForm::MonitorEnter => ActionForm::MonitorEnter,
            ActionForm::MonitorExit => ActionForm::MonitorExit,
        };
        Ok(Action { form })
    }

    /// The kinds of the operands, the deepest first.
    ///
    /// # Errors
    ///
    /// `Memory` where memory runs out.
    pub fn operands_of(&self, alloc: Global) -> Result<Items<Kind>, Memory>
        ensures { IfOk result (λ kinds. kinds ≡ operands_of self.now) }
    {
        let reference = Kind::of(KindForm::Reference);
        let int = Kind::of(KindForm::Int);
        match &self.form {
            ActionForm::Calculate(calculation) => calculation_operands(alloc, *calculation),
            ActionForm::FloatOperation(_, operands, _) => {
                Ok(Items::from_slice(alloc, operands.as_slice())?)
            }
            ActionForm::LoadElement(_) => two(alloc, reference, int),
            ActionForm::StoreElement(element) => {
                three(alloc, reference, int, kind_of_element(*element))
            }
            ActionForm::PutField(field) => two(alloc, reference, field.field_type().kind_of()),
            ActionForm::GetStatic(_) => Ok(Items::new(alloc)),
            ActionForm::PutStatic(field) => one(alloc, field.field_type().kind_of()),
            ActionForm::Invoke(sort, _, types) => {
                kinds_of(receiver_of(alloc, *sort)?, types.params())
            }
            ActionForm::New(_) => Ok(Items::new(alloc)),
            ActionForm::NewArray(_, dimensions) => with_ints(Items::new(alloc), *dimensions),
            _ => one(alloc, reference),
        }
    }

    /// The kind of the result, if there is one.
    pub fn result_of(&self) -> Option<Kind>
        ensures { result ≡ result_of self.now }
    {
        match &self.form {
            ActionForm::Calculate(calculation) => Some(calculation_result(*calculation)),
            ActionForm::FloatOperation(_, _, kind) => Some(*kind),
            ActionForm::ArrayLength => Some(Kind::of(KindForm::Int)),
            ActionForm::LoadElement(element) => Some(kind_of_element(*element)),
            ActionForm::GetField(field) => Some(field.field_type().kind_of()),
            ActionForm::GetStatic(field) => Some(field.field_type().kind_of()),
            ActionForm::Invoke(_, _, types) => types.kind_of_answer(),
            ActionForm::New(_) => Some(Kind::of(KindForm::Reference)),
            ActionForm::NewArray(_, _) => Some(Kind::of(KindForm::Reference)),
            ActionForm::CheckCast(_) => Some(Kind::of(KindForm::Reference)),
            ActionForm::InstanceOf(_) => Some(Kind::of(KindForm::Int)),
            _ => None,
        }
    }

    /// Whether the first operand is a target that must not be null.
    pub fn has_target(&self) -> bool
        ensures { result ≡ has_target self.now }
    {
        match &self.form {
            ActionForm::Invoke(sort, _, _) => has_receiver(*sort),
            ActionForm::ArrayLength
            | ActionForm::LoadElement(_)
            | ActionForm::StoreElement(_)
            | ActionForm::GetField(_)
            | ActionForm::PutField(_)
            | ActionForm::MonitorEnter
            | ActionForm::MonitorExit => true,
            _ => false,
        }
    }
}
