//! Which class of a pool is meant.

/// The place of a class in the pool that gave it.
#[derive(Clone, Copy, Debug, PartialEq, Eq)]
pub struct ClassId(pub(crate) usize);
