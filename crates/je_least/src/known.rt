//! What is known of an index while shapes are sought, and what comes to one.

use je_shape::{Shape, Slot};

/// What is known of an index: that nothing comes to it, a shape, or that what comes to it has no
/// shape.
#[derive(Debug, Drop)]
pub(crate) enum Known {
    Nothing,
    Has(Shape),
    Broken,
}

/// What comes to an index: the stack and the local variables of a shape, or what has no shape.
#[derive(Clone, Copy)]
pub(crate) enum Coming<'a> {
    Shape(&'a [Slot], &'a [Slot]),
    Broken,
}
