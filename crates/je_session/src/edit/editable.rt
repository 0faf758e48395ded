//! The methods that can be edited so far.

ghost use Rattle.std.specs.Prelude.{◌≡◌, ℕ, ◌↔◌, codes, IsTrue, IfOk, IfErr, IfSome, IfNone};
ghost use Rattle.std.specs.Prelude.{MatchResult};
ghost use Rattle.je_class.specs.declared.member.Attribute.{Attribute};
ghost use Rattle.je_class.specs.Class.{IsMethodAt};
ghost use Rattle.je_instr.specs.declared.program.Decoded.{Decoded};
ghost use Rattle.je_session.specs.declared.edit.stop.EditStop.TheVariants as stops;
ghost use Rattle.je_session.specs.Editable.{HasOneCode, IsCodeOf, IsDecodedTo, IsReturning};
ghost use Rattle.je_session.specs.Editable.{IsEditable, returning};
ghost use Rattle.je_session.specs.Kept.{MethodForm};
ghost use Rattle.je_session.specs.ProgramOf.{IsCode};

use crate::edit::stop::EditStop;
use je_base::{Memory, Text};
use je_class::{Attribute, ClassFile, Member};
use je_code::{CodeAttr, one_code, read_code};
use je_consts::Consts;
use je_instr::{Instr, one_decoding, opcodes, opcodes_mean};
use std::alloc::Global;

/// The access flag of a method that needs no object (JVMS 4.6).
const ACC_STATIC: u16 = 8;

/// The name of the attribute that has a method's code (JVMS 4.7.3).
const CODE: &[u8] = b"Code";

/// The descriptor of the methods that can be edited (JVMS 4.3.3).
const DESCRIPTOR: &str = "()V";

/// A method that can be edited.
#[derive(Drop)]
pub struct Editable {
    /// The method's place among those of its class.
    pub at: usize,
    pub code: CodeAttr,
}

fn is_code(consts: &Consts, attribute: &Attribute) -> bool
    ensures { IsTrue result ↔ IsCode consts.now attribute.now }
{
    match consts.text(attribute.name) {
        Some(name) => name.bytes() == CODE,
        None => false,
    }
}

/// The one attribute of a static method, where that is a Code.
fn one_code_of<'a>(consts: &Consts, method: &'a Member) -> Option<&'a Attribute>
    ensures some { IfSome result (λ a. HasOneCode consts.now method.now a.now) }
    ensures none { IfNone result ((a : Attribute) → HasOneCode consts.now method.now a → ⊥) }
{
    if method.access & ACC_STATIC == 0 {
        return None;
    }
    let [attribute] = method.attributes.as_slice() else {
        return None;
    };
    if !is_code(consts, attribute) {
        return None;
    }
    Some(attribute)
}

/// The code of a static method with one attribute, a Code without handlers.
/// `NotYet`: the method is not of this form.
fn code_of(alloc: Global, consts: &Consts, method: &Member) -> Result<CodeAttr, EditStop>
    ensures found { IfOk result (IsCodeOf consts.now method.now) }
    ensures only { (decoded : Decoded) → IsDecodedTo consts.now method.now decoded
        → MatchResult result (λ found. found.decoded ≡ decoded) (λ e. e ≡ stops.Memory) }
{
    // The laws of the layers below that the proof stands on.
    one_code();
    one_decoding();

    let Some(attribute) = one_code_of(consts, method) else {
        return Err(EditStop::NotYet);
    };
    let code = read_code(alloc, &attribute.bytes, consts)?;
    if !code.decoded.program.handlers.is_empty() {
        return Err(EditStop::NotYet);
    }
    Ok(code)
}

/// Whether the instruction returns without a result.
fn returns(instr: &Instr) -> bool
    ensures { IsTrue result ↔ (instr.now ≡ returning) }
{
    matches!(instr, Instr::Simple(opcodes::RETURN))
}

/// Whether the last instruction returns, and no other one.
fn is_returning(instrs: &[Instr]) -> bool
    ensures { IsTrue result ↔ IsReturning instrs.now }
{
    match instrs.split_last() {
        Some((last, front)) => returns(last) && front.iter().all(|instr| !returns(instr)),
        None => false,
    }
}

/// The place of the first method of this name without parameters and result.
fn place_of(alloc: Global, class: &ClassFile, name: &Text) -> Result<Option<usize>, Memory>
    ensures found { IfOk result (λ place.
        IfSome place (IsMethodAt class.now name.now (codes "()V"))) }
    ensures none { IfOk result (λ place. IfNone place
        ((at : ℕ) → IsMethodAt class.now name.now (codes "()V") at → ⊥)) }
{
    let descriptor = Text::of(alloc, DESCRIPTOR)?;
    Ok(class.find_member(name, &descriptor))
}

/// The method of this name without parameters and result.
///
/// # Errors
///
/// `NotYet`: it is not there, or its code is not of the form that can be edited.
pub fn find_editable(alloc: Global, class: &ClassFile, name: &Text) -> Result<Editable, EditStop>
    ensures found { IfOk result (λ e. IsEditable class.now name.now e.at e.code) }
    // A method of the form is found, with the program that it has.
    ensures only { (form : MethodForm class.now name.now) → MatchResult result
        (λ e. e.code.decoded ≡ form.of.of_code.decoded) (λ e. e ≡ stops.Memory) }
{
    // The law of the layer below that the proof stands on.
    opcodes_mean();

    let Some(at) = place_of(alloc, class, name)? else {
        return Err(EditStop::NotYet);
    };
    let code = code_of(alloc, class.consts(), &class.methods()[at])?;
    if !is_returning(code.decoded.program.instrs.as_slice()) {
        return Err(EditStop::NotYet);
    }
    Ok(Editable { at, code })
}
