//! The parts of a class file in memory.

use crate::member::{Attribute, Member};
use je_consts::Consts;

/// The first number of each class file (JVMS 4.1, magic).
pub(crate) const MAGIC: u32 = 0xcafe_babe;

/// The oldest major version that is read, that of Java SE 5 (JVMS 4.1, table 4.1-A).
pub(crate) const OLDEST_MAJOR: u16 = 49;

/// The newest major version that is read, that of Java SE 8.
pub(crate) const NEWEST_MAJOR: u16 = 52;

/// The items of a class file in the order of the file, whatever its indexes name.
#[derive(Debug, Drop)]
pub(crate) struct Parts {
    pub(crate) minor: u16,
    pub(crate) major: u16,
    pub(crate) consts: Consts,
    pub(crate) access: u16,
    pub(crate) this_class: u16,
    pub(crate) super_class: u16,
    pub(crate) interfaces: Vec<u16>,
    pub(crate) fields: Vec<Member>,
    pub(crate) methods: Vec<Member>,
    pub(crate) attributes: Vec<Attribute>,
}
