//! Which calls give way, and to what.

use je_base::Text;

/// What takes the place of a call.
#[derive(Clone, Copy, Debug, PartialEq, Eq)]
pub enum Fragment {
    /// `{ }`
    Empty,
    /// `{ $proceed($$); }`: does the original call on its arguments.
    Proceed,
}

/// Calls of one method, and what takes their place.
#[derive(Debug, Drop)]
pub struct Rule {
    /// The class that the call names, in internal form.
    pub class_name: Text,
    /// The method that the call names.
    pub member: Text,
    /// What takes the place of the call.
    pub fragment: Fragment,
}

/// What becomes of an instruction.
#[derive(Clone, Copy, Debug, PartialEq, Eq)]
pub enum Choice {
    /// It stays as it is.
    Stays,
    /// Nothing comes to it, and it is left out.
    Drops,
    /// It gives way to the fragment of a rule.
    Gives(Fragment),
}
