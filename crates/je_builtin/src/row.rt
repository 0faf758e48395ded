//! A line of the table of built-in classes.

/// A field or a method: its access flags, its name and its descriptor.
pub type Member = (u16, &'static str, &'static str);

/// A built-in class: its name, its superclass and its interfaces in internal form (JVMS 4.2.1), its
/// access flags, its fields and its methods.
pub type Class = (
    &'static str,
    Option<&'static str>,
    &'static [&'static str],
    u16,
    &'static [Member],
    &'static [Member],
);
