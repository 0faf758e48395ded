//! Objects that are made (JVMS 4.10.1.9, new and invokespecial).

ghost use Rattle.std.specs.Prelude.{◌≡◌, IfOk, length, map, option_map};
ghost use Rattle.je_machine.specs.Action.{Invoke, Special};
ghost use Rattle.je_shape.specs.Slot.{is_same_word};
ghost use Rattle.je_shape.specs.Flow.{forgot, made, class_made, constructed, constructor_of};
ghost use Rattle.je_shape.specs.Flow.{constructor, shape_of};
ghost use Rattle.je_shape.specs.Sorts.{word_seen};
ghost use Rattle.je_flow.specs.Seen.{holds_word};
ghost use Rattle.je_shape.specs.Views.{slot_seen, shape_seen};

use crate::classes::text_of_run;
use je_base::{Memory, Run, Text};
use je_shape::{Shape, Slot, View, Word, copy_slots, reference, seen};
use je_value::{Action, ActionForm, Content, ContentForm, MethodTypes, Sort};
use sqlite_items::Items;
use std::alloc::Global;

/// The name of constructors (JVMS 2.9).
const CONSTRUCTOR: &[u8] = b"<init>";

/// Whether two words are one.
fn is_same_word(a: Word, b: Word) -> bool
    ensures { result ≡ is_same_word (word_seen a) (word_seen b) }
{
    match a {
        Word::Int => matches!(b, Word::Int),
        Word::Float => matches!(b, Word::Float),
        Word::Long => matches!(b, Word::Long),
        Word::Double => matches!(b, Word::Double),
        Word::UninitThis => matches!(b, Word::UninitThis),
        Word::Uninit(m) => match b {
            Word::Uninit(n) => m == n,
            _ => false,
        },
    }
}

/// Whether the slot is this word.
fn holds_word(word: Word, slot: &Slot) -> bool
    ensures { result ≡ holds_word (word_seen word) (slot_seen slot.now) }
{
    match slot {
        Slot::Int => is_same_word(word, Word::Int),
        Slot::Float => is_same_word(word, Word::Float),
        Slot::Long => is_same_word(word, Word::Long),
        Slot::Double => is_same_word(word, Word::Double),
        Slot::UninitThis => is_same_word(word, Word::UninitThis),
        Slot::Uninit(new) => is_same_word(word, Word::Uninit(*new)),
        Slot::Top | Slot::Null | Slot::Ref(_) => false,
    }
}

/// What a local variable is once the `new` at an index is done: Top where it holds what the same
/// `new` made before.
#[tactic(auto, using(crate::proofs::MakingLemmas::forgot_is))]
fn forgot(at: u32, slot: &Slot) -> Result<Slot, Memory>
    ensures { IfOk result (λ s. slot_seen s ≡ forgot at (slot_seen slot.now)) }
{
    if holds_word(Word::Uninit(at), slot) {
        return Ok(Slot::Top);
    }
    slot.copy()
}

/// The local variables once the `new` at an index is done.
///
/// # Errors
///
/// `Memory` where memory runs out.
pub(crate) fn forgot_all(alloc: Global, at: u32, locals: &[Slot]) -> Result<Items<Slot>, Memory>
    ensures { IfOk result (λ all.
        map slot_seen all ≡ map (forgot at) (map slot_seen locals.now)) }
{
    let mut all = Vec::with_capacity(alloc, locals.len())?;
    for slot in locals {
        all.push(forgot(at, slot)?)?;
    }
    Ok(Items::from_vec(all))
}

/// A slot once a constructor was called on what is this word: each copy of it is an object of the
/// class.
#[tactic(auto, using(crate::proofs::MakingLemmas::made_is))]
fn made(alloc: Global, word: Word, class: &Text, slot: &Slot) -> Result<Slot, Memory>
    ensures { IfOk result (λ s.
        slot_seen s ≡ made (word_seen word) class.now (slot_seen slot.now)) }
{
    if holds_word(word, slot) {
        return reference(alloc, class.copy()?);
    }
    slot.copy()
}

/// Slots once a constructor was called on what is this word.
fn made_all(alloc: Global, word: Word, class: &Text, slots: &[Slot]) -> Result<Items<Slot>, Memory>
    ensures { IfOk result (λ all.
        map slot_seen all ≡ map (made (word_seen word) class.now) (map slot_seen slots.now)) }
{
    let mut all = Vec::with_capacity(alloc, slots.len())?;
    for slot in slots {
        all.push(made(alloc, word, class, slot)?)?;
    }
    Ok(Items::from_vec(all))
}

/// The class of what is made: `this` is of the method's own class, and what a `new` made of the
/// class that is named.
fn class_made<'a>(own: &'a Text, named: &'a Text, word: Word) -> &'a Text
    ensures { result.now ≡ class_made own.now named.now (word_seen word) }
{
    match word {
        Word::UninitThis => own,
        Word::Int | Word::Float | Word::Long | Word::Double | Word::Uninit(_) => named,
    }
}

/// The shape of this stack and these local variables once a constructor was called on a target.
///
/// # Errors
///
/// `Memory` where memory runs out, and where the name of the class is no text.
pub(crate) fn constructed(
    alloc: Global,
    own: &Text,
    named: &Run,
    target: &Slot,
    stack: &[Slot],
    locals: &[Slot],
) -> Result<Shape, Memory>
    ensures { IfOk result (λ s. shape_seen s ≡ constructed own.now named.now (slot_seen target.now)
        (shape_of (map slot_seen stack.now) (map slot_seen locals.now))) }
{
    match seen(target) {
        View::Alone(word) => {
            let named = text_of_run(named)?;
            let class = class_made(own, &named, word);
            let stack = made_all(alloc, word, class, stack)?;
            let locals = made_all(alloc, word, class, locals)?;
            Ok(Shape { stack, locals })
        }
        View::Unused | View::Names(_) => {
            let stack = copy_slots(alloc, stack)?;
            let locals = copy_slots(alloc, locals)?;
            Ok(Shape { stack, locals })
        }
    }
}

/// The class and the number of parameters of a call of a method of this name and of these types,
/// where it is of a constructor.
fn constructor_of<'a>(types: &MethodTypes, name: &Run, class: &'a Run) -> Option<(&'a Run, usize)>
    ensures { option_map (λ p. (p.0.now, p.1)) result
        ≡ constructor_of types.now.result name.now class.now (length types.now.params) }
{
    match types.answer() {
        Some(_) => None,
        None => {
            if name.as_slice() == CONSTRUCTOR {
                Some((class, types.params().len()))
            } else {
                None
            }
        }
    }
}

/// The same of what an invokespecial names.
fn constructor_in<'a>(method: &'a Content, types: &MethodTypes) -> Option<(&'a Run, usize)>
    ensures { option_map (λ p. (p.0.now, p.1)) result
        ≡ constructor (Invoke Special method.now types.now) }
{
    match method.form() {
        ContentForm::Member(_, class, name, _) => constructor_of(types, name, class),
        _ => None,
    }
}

/// The class that a call of a constructor names, and how many parameters there are, or `None` of
/// every other action.
pub(crate) fn constructor(action: &Action) -> Option<(&Run, usize)>
    ensures { option_map (λ p. (p.0.now, p.1)) result ≡ constructor action.now }
{
    match action.form() {
        ActionForm::Invoke(Sort::Special, method, types) => constructor_in(method, types),
        _ => None,
    }
}
