//! Values that are no longer wanted.

use je_value::Value;

/// Drops a value, so that no caller has a case for each of its forms.
pub(crate) fn discard(_value: Value) {}
