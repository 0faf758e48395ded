//! Faults in words.

ghost use Rattle.std.specs.Prelude.{◌≡◌, IfOk, string_bytes};
ghost use Rattle.je_class.specs.Words.{fault_words};

use crate::fault::ClassFault;
use je_base::Memory;
use std::alloc::Global;

impl ClassFault {
    /// The fault in words, with its offset, index or version in decimal: `bad index 72`.
    ///
    /// # Errors
    ///
    /// `Memory` where memory runs out.
    pub fn words(self, alloc: Global) -> Result<String, Memory>
        ensures { IfOk result (λ words. string_bytes words ≡ fault_words self) }
    {
        let words = match self {
            ClassFault::TooLong => format!(in alloc; "too long")?,
            ClassFault::Truncated(at) => format!(in alloc; "truncated {at}")?,
            ClassFault::BadMagic => format!(in alloc; "bad magic")?,
            ClassFault::Version(major) => format!(in alloc; "version {major}")?,
            ClassFault::BadConst(index) => format!(in alloc; "bad constant {index}")?,
            ClassFault::BadIndex(at) => format!(in alloc; "bad index {at}")?,
            ClassFault::BadDescriptor(at) => format!(in alloc; "bad descriptor {at}")?,
            ClassFault::BadAttribute(at) => format!(in alloc; "bad attribute {at}")?,
            ClassFault::Trailing(at) => format!(in alloc; "trailing {at}")?,
            ClassFault::Memory => format!(in alloc; "out of memory")?,
        };
        Ok(words)
    }
}
