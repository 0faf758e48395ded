//! What is known of other classes.

ghost use Rattle.std.specs.Prelude.{◌≡◌, List, ℕ};
ghost use Rattle.std.specs.List.{list_any};
ghost use Rattle.std.specs.Prelude.{◌&&◌};
ghost use Rattle.je_base.specs.Text.{is_same_text};
ghost use Rattle.je_machine.specs.Heap.{FieldKey as Key};
ghost use Rattle.std.specs.Prelude.{option_map, option_copied, unwrap_or, Some, slice_index};
ghost use Rattle.std.specs.List.{find};
ghost use Rattle.je_machine.specs.Classes.{is_subclass, is_same_key, holder_of, class_named};
ghost use Rattle.je_machine.specs.Classes.{is_some_subclass};

use crate::field_key::FieldKey;
use je_base::Run;
use std::marker::Model;

/// The pairs of a class and one above it, and the class that holds a field which is named in
/// another. The first entry for a field counts.
#[derive(Debug, Drop)]
pub struct Classes {
    below: Vec<(Run, Run)>,
    holders: Vec<(FieldKey, Run)>,
}

impl Model for Classes {
    ghost use Rattle.je_machine.specs.Classes.{Classes as Known};
    ghost use Rattle.je_heap.specs.Codes.{classes_code};

    ghost Value = { Known };

    ghost coded = { classes_code };

    ghost view = { λ c. record { below = c.below.items; holders = c.holders.items } };
}

impl Classes {
    /// The classes of these pairs and these holders.
    pub fn new(below: Vec<(Run, Run)>, holders: Vec<(FieldKey, Run)>) -> Classes
        ensures below { result.below ≡ below.items }
        ensures holders { result.holders ≡ holders.items }
    {
        Classes { below, holders }
    }
}

/// Whether the bytes are those of the text.
fn is_text(text: &Run, bytes: &[u8]) -> bool
    ensures { result ≡ is_same_text text.now bytes.now }
{
    text.as_slice() == bytes
}

/// Whether the pair is listed.
fn is_listed(below: &[(Run, Run)], class: &[u8], of: &[u8]) -> bool
    ensures { result ≡
        list_any (λ p. is_same_text p.0 class.now && is_same_text p.1 of.now) below.now }
{
    below
        .iter()
        .any(|p| is_text(&p.0, class) && is_text(&p.1, of))
}

/// Whether a class is one of another: that is java/lang/Object, or the names are equal, or the pair
/// is listed.
pub fn is_subclass(classes: &Classes, class: &[u8], of: &[u8]) -> bool
    ensures { result ≡ is_subclass classes.now class.now of.now }
{
    of == b"java/lang/Object".as_slice() || class == of || is_listed(&classes.below, class, of)
}

/// The class of the first entry for a field.
fn held<'a>(holders: &'a [(FieldKey, Run)], key: &FieldKey) -> Option<&'a Run>
    ensures { option_copied result ≡
        option_map (λ e. e.1) (find (λ e. is_same_key e.0 key.now) holders.now) }
{
    holders.iter().find(|e| e.0.is_same(key)).map(|e| &e.1)
}

/// The class that holds a field: the named one where no entry says another.
pub fn holder_of<'a>(classes: &'a Classes, key: &'a FieldKey) -> &'a Run
    ensures { result.now ≡ holder_of classes.now key.now }
{
    match held(&classes.holders, key) {
        Some(class) => class,
        None => key.class(),
    }
}

/// Whether the class is one of another, and false of none.
pub fn is_some_subclass(classes: &Classes, class: Option<&[u8]>, of: &[u8]) -> bool
    ensures { result ≡ is_some_subclass classes.now (option_copied class.entry) of.now }
{
    match class {
        Some(class) => is_subclass(classes, class, of),
        None => false,
    }
}

/// The class that a type's text names: `[..` is one itself, `LC;` names C, and a letter names none.
pub fn class_named(type_text: &[u8]) -> Option<&[u8]>
    ensures { option_copied result ≡ class_named type_text.now }
{
    match type_text {
        [] => None,
        [b'[', ..] => Some(type_text),
        [b'L', rest @ ..] => Some(&rest[..rest.len().saturating_sub(1)]),
        _ => None,
    }
}
