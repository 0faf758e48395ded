//! What is known of local variables and of items of the stack.

ghost use Rattle.std.specs.Prelude.{◌≡◌, IfOk};

use crate::names::Names;
use je_base::Memory;
use sqlite_items::Items;
use std::alloc::Global;

/// What a local variable or an item of the stack is known to be (JVMS 4.10.1.2).
#[derive(Debug, Drop)]
pub enum Slot {
    /// Nothing that can be used.
    Top,
    Int,
    Float,
    Long,
    Double,
    Null,
    /// `this` of a constructor, before it has called another one.
    UninitThis,
    /// What the `new` at this index made, before a constructor is called on it.
    Uninit(u32),
    /// A reference to an object of one of these classes, or null.
    Ref(Names),
}

/// What is known of the stack and of the local variables at an instruction (JVMS 4.10.1.4).
#[derive(Debug, Drop)]
pub struct Shape {
    /// The items of the stack, its top first; a long or double is one.
    pub stack: Items<Slot>,
    /// The local variables; a long or double takes two, of which the second is `Top`. Those behind
    /// the last one are `Top`.
    pub locals: Items<Slot>,
}

impl Slot {
    /// The same slot once more. No byte of a name is copied.
    ///
    /// # Errors
    ///
    /// `Memory` where memory runs out.
    pub fn copy(&self) -> Result<Slot, Memory>
        ensures { IfOk result (λ slot. slot ≡ self.now) }
    {
        let slot = match self {
            Slot::Top => Slot::Top,
            Slot::Int => Slot::Int,
            Slot::Float => Slot::Float,
            Slot::Long => Slot::Long,
            Slot::Double => Slot::Double,
            Slot::Null => Slot::Null,
            Slot::UninitThis => Slot::UninitThis,
            Slot::Uninit(new) => Slot::Uninit(*new),
            Slot::Ref(names) => Slot::Ref(names.copy()?),
        };
        Ok(slot)
    }
}

/// The same slots once more.
///
/// # Errors
///
/// `Memory` where memory runs out.
pub fn copy_slots(alloc: Global, slots: &[Slot]) -> Result<Items<Slot>, Memory>
    ensures { IfOk result (λ copies. copies ≡ slots.now) }
{
    let mut copies = Vec::with_capacity(alloc, slots.len())?;
    for slot in slots {
        copies.push(slot.copy()?)?;
    }
    Ok(Items::from_vec(copies))
}

impl Shape {
    /// The same shape once more. No byte of a name is copied.
    ///
    /// # Errors
    ///
    /// `Memory` where memory runs out.
    pub fn copy(&self, alloc: Global) -> Result<Shape, Memory>
        ensures { IfOk result (λ shape. shape ≡ self.now) }
    {
        let stack = copy_slots(alloc, self.stack.as_slice())?;
        let locals = copy_slots(alloc, self.locals.as_slice())?;
        Ok(Shape { stack, locals })
    }
}
