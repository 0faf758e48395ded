//! The places of a constant pool, one for each index from 1 on.

use crate::constant::Const;

/// What stands at an index.
#[derive(Debug, Drop)]
pub enum Place {
    /// An entry.
    Entry(Const),
    /// The second of the two indexes of a Long or Double (JVMS 4.4.5), which holds nothing.
    Second,
}
