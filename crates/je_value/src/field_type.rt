//! The types of fields and of methods.

ghost use Rattle.std.specs.Prelude.{◌≡◌, IfOk};
ghost use Rattle.std.specs.Option.{option_copied, option_map};
ghost use Rattle.je_machine.specs.Heap.{component_of};
ghost use Rattle.je_machine.specs.Value.{kind_of};
ghost use Rattle.je_value.specs.FieldType.{array_of, element_in};

use crate::admission::kind_of_base;
use crate::kind::{Kind, KindForm};
use je_base::{Memory, Run};
use sqlite_items::Items;
use std::alloc::Global;
use std::marker::Model;

/// A base type (JVMS 4.3.2, BaseType).
#[derive(Clone, Copy, Debug, PartialEq, Eq)]
pub enum BaseType {
    Byte,
    Char,
    Double,
    Float,
    Int,
    Long,
    Short,
    Boolean,
}

/// A type that is no array: a base type, or a class by its name.
#[derive(Debug, Drop)]
pub enum ElementType {
    Base(BaseType),
    Object(Run),
}

/// The type of a field, a parameter or an element (JVMS 4.3.2), which contracts see as the
/// definition's `FieldType`: how many dimensions it has, 0 where it is no array, and of what.
#[derive(Debug, Drop)]
pub struct FieldType {
    dimensions: usize,
    element: ElementType,
}

impl Model for FieldType {
    ghost use Rattle.je_desc.specs.FieldType as types;

    ghost Value = { types.FieldType };

    ghost use Rattle.je_value.specs.FieldTypeCode.{field_type_code};

    ghost coded = { field_type_code };

    ghost use Rattle.je_value.specs.FieldType.{array_of, element_in};

    ghost view = { λ t. array_of t.dimensions (element_in t.element) };
}

impl ElementType {
    /// The same type once more.
    ///
    /// # Errors
    ///
    /// `Memory` where memory runs out.
    fn copy(&self) -> Result<ElementType, Memory>
        ensures { IfOk result (λ t. element_in t ≡ element_in self.now) }
    {
        match self {
            ElementType::Base(base) => Ok(ElementType::Base(*base)),
            ElementType::Object(name) => Ok(ElementType::Object(name.copy()?)),
        }
    }
}

impl FieldType {
    /// The type of so many dimensions of an element.
    pub fn of(dimensions: usize, element: ElementType) -> FieldType
        ensures { result ≡ array_of dimensions (element_in element) }
    {
        FieldType {
            dimensions,
            element,
        }
    }

    /// The same type once more.
    ///
    /// # Errors
    ///
    /// `Memory` where memory runs out.
    pub fn copy(&self) -> Result<FieldType, Memory>
        ensures { IfOk result (λ t. t ≡ self.now) }
    {
        let element = self.element.copy()?;
        Ok(FieldType {
            dimensions: self.dimensions,
            element,
        })
    }

    /// The kind of its values.
    pub fn kind_of(&self) -> Kind
        ensures { result ≡ kind_of self.now }
    {
        if self.dimensions > 0 {
            return Kind::of(KindForm::Reference);
        }
        match &self.element {
            ElementType::Base(base) => kind_of_base(*base),
            ElementType::Object(_) => Kind::of(KindForm::Reference),
        }
    }

    /// Its dimensions, 0 where it is no array, and of what it has them.
    pub fn parts(&self) -> (usize, &ElementType)
        ensures { self.now ≡ array_of result.0 (element_in result.1.now) }
    {
        (self.dimensions, &self.element)
    }

    /// The type of an array's elements, and itself where it is no array.
    ///
    /// # Errors
    ///
    /// `Memory` where memory runs out.
    pub fn component_of(&self) -> Result<FieldType, Memory>
        ensures { IfOk result (λ t. t ≡ component_of self.now) }
    {
        let element = self.element.copy()?;
        let dimensions = self.dimensions.saturating_sub(1);
        Ok(FieldType {
            dimensions,
            element,
        })
    }
}

/// The types of a method's parameters and of its result (JVMS 4.3.3), which contracts see as the
/// definition's `MethodTypes`.
#[derive(Debug, Drop)]
pub struct MethodTypes {
    params: Items<FieldType>,
    result: Option<FieldType>,
}

impl Model for MethodTypes {
    ghost use Rattle.je_desc.specs.Descriptor as types;

    ghost Value = { types.MethodTypes };

    ghost use Rattle.je_value.specs.FieldTypeCode.{method_types_code};

    ghost coded = { method_types_code };

    ghost view = { λ m. record { params = m.params; result = m.result } };
}

impl MethodTypes {
    /// The types of these parameters and of what is answered, which is none where the method is
    /// void.
    pub fn of(params: Items<FieldType>, answer: Option<FieldType>) -> MethodTypes
        ensures params { result.params ≡ params }
        ensures answer { result.result ≡ answer }
    {
        MethodTypes {
            params,
            result: answer,
        }
    }

    /// The types of the parameters.
    pub fn params(&self) -> &[FieldType]
        ensures { result.now ≡ self.now.params }
    {
        self.params.as_slice()
    }

    /// The type of what is answered, if anything is.
    pub fn answer(&self) -> Option<&FieldType>
        ensures { option_copied result ≡ self.now.result }
    {
        self.result.as_ref()
    }

    /// The kind of what is answered, if anything is.
    pub fn kind_of_answer(&self) -> Option<Kind>
        ensures { result ≡ option_map kind_of self.now.result }
    {
        match &self.result {
            Some(of) => Some(of.kind_of()),
            None => None,
        }
    }

    /// The same types once more.
    ///
    /// # Errors
    ///
    /// `Memory` where memory runs out.
    pub fn copy(&self, alloc: Global) -> Result<MethodTypes, Memory>
        ensures { IfOk result (λ m. m ≡ self.now) }
    {
        let params = copy_types(alloc, self.params.as_slice())?;
        let result = match &self.result {
            Some(of) => Some(of.copy()?),
            None => None,
        };
        Ok(MethodTypes { params, result })
    }
}

/// The same types once more.
fn copy_types(alloc: Global, types: &[FieldType]) -> Result<Items<FieldType>, Memory>
    ensures { IfOk result (λ copies. copies ≡ types.now) }
{
    let mut copies = Items::new(alloc);
    let mut left = types;
    while let Some((of, rest)) = left.split_first() {
        copies.push(of.copy()?)?;
        left = rest;
    }
    Ok(copies)
}
