//! What constants say to the instructions that name them (JVMS 4.4, 4.9.1 and 6.5).

ghost use Rattle.std.specs.Prelude.{◌≡◌, ◌≢◌, ℕ, ◌+◌, ◌↔◌, ⊤, None, codes, IsTrue, IfSome, IfNone};
ghost use Rattle.std.specs.Option.{option_map, option_copied};
ghost use Rattle.je_desc.specs.FieldType.{FieldType};
ghost use Rattle.je_desc.specs.Names.{IsClassName};
ghost use Rattle.je_desc.specs.Descriptor.{MethodTypes, SpellsMethod, FieldDescriptor};
ghost use Rattle.je_desc.specs.Descriptor.{units_of_params};
ghost use Rattle.je_instr.specs.Content.{content_at, Names};
ghost use Rattle.je_instr.specs.Allowed.{IsClass, IsClassText, IsMadeOf, HasDimensions};
ghost use Rattle.je_instr.specs.Allowed.{IsPlainName, IsField, AllowsField, TakesTag, IsCalledName};
ghost use Rattle.je_instr.specs.Allowed.{IsMethod, IsDynamic, AllowsCall, AllowsCounted, AllowsLdc};
ghost use Rattle.je_instr.specs.Allowed.{AllowsLdc2};
ghost use Rattle.je_machine.specs.Action.{Interface, Dynamic};
ghost use Rattle.je_instr.specs.Views.{of_class, of_any, of_dynamic, is_loaded, is_wide};
ghost use Rattle.je_instr.specs.Views.{sort_of_call, CallsWith};

use crate::texts::{
    CONSTRUCTOR, INITIALISER, has_dimensions, is_class_text, is_made_of, is_plain_name,
    returns_nothing,
};
use je_base::Text;
use je_consts::{Const, Consts, MemberTag};
use je_desc::{is_class_name, is_field, units};

/// The sorts of calls.
#[derive(Clone, Copy, Debug)]
pub(crate) enum Call {
    Virtual,
    Special,
    Static,
    Interface,
    Dynamic,
}

/// The text of a class.
pub(crate) fn class_text(consts: &Consts, index: u16) -> Option<&Text>
    ensures { option_copied result ≡ of_class (content_at consts.now index) }
{
    let Some(Const::Class(name)) = consts.get(index) else {
        return None;
    };
    consts.text(*name)
}

/// A member: its sort, the text of its class, its name and its descriptor.
fn any_member(consts: &Consts, index: u16) -> Option<(MemberTag, &Text, &Text, &Text)>
    ensures { option_map (λ m. (m.0, m.1.now, m.2.now, m.3.now)) result
        ≡ of_any (content_at consts.now index) }
{
    let (tag, class, member) = match consts.get(index) {
        Some(Const::Field(class, member)) => (MemberTag::Field, *class, *member),
        Some(Const::Method(class, member)) => (MemberTag::Method, *class, *member),
        Some(Const::InterfaceMethod(class, member)) => {
            (MemberTag::InterfaceMethod, *class, *member)
        }
        _ => return None,
    };
    let class = consts.class_name(class)?;
    let (name, descriptor) = consts.name_and_type(member)?;
    Some((tag, class, name, descriptor))
}

/// The name and the descriptor of a dynamic call.
fn dynamic(consts: &Consts, index: u16) -> Option<(&Text, &Text)>
    ensures { option_map (λ m. (m.0.now, m.1.now)) result
        ≡ of_dynamic (content_at consts.now index) }
{
    let Some(Const::InvokeDynamic(_, member)) = consts.get(index) else {
        return None;
    };
    consts.name_and_type(*member)
}

/// Whether the constant takes one place and is no class.
fn is_loaded(consts: &Consts, index: u16) -> bool
    ensures { result ≡ is_loaded (content_at consts.now index) }
{
    match consts.get(index) {
        Some(Const::Integer(_) | Const::Float(_)) => true,
        Some(Const::Str(text) | Const::MethodType(text)) => consts.text(*text).is_some(),
        Some(Const::MethodHandle(_, member)) => consts.member(*member).is_some(),
        _ => false,
    }
}

/// Whether the constant takes two places.
fn is_wide(consts: &Consts, index: u16) -> bool
    ensures { result ≡ is_wide (content_at consts.now index) }
{
    matches!(consts.get(index), Some(Const::Long(_) | Const::Double(_)))
}

/// Whether ldc2_w pushes the constant.
pub(crate) fn is_ldc2(consts: &Consts, index: u16) -> bool
    ensures { IsTrue result ↔ Names consts.now index AllowsLdc2 }
{
    is_wide(consts, index)
}

/// Whether ldc pushes the constant.
pub(crate) fn is_ldc(consts: &Consts, index: u16) -> bool
    ensures { IsTrue result ↔ Names consts.now index AllowsLdc }
{
    is_loaded(consts, index) || is_class(consts, index)
}

/// Whether the constant is a class or an array.
pub(crate) fn is_class(consts: &Consts, index: u16) -> bool
    ensures { IsTrue result ↔ Names consts.now index (IsClass IsClassText) }
{
    match class_text(consts, index) {
        Some(text) => is_class_text(text.bytes()),
        None => false,
    }
}

/// Whether the constant is a class that is no array.
pub(crate) fn is_object_class(consts: &Consts, index: u16) -> bool
    ensures { IsTrue result ↔ Names consts.now index (IsClass IsClassName) }
{
    match class_text(consts, index) {
        Some(text) => is_class_name(text.bytes()),
        None => false,
    }
}

/// Whether the constant is a class of which arrays can be made.
pub(crate) fn is_made(consts: &Consts, index: u16) -> bool
    ensures { IsTrue result
        ↔ Names consts.now index (IsClass (λ text. (t : FieldType) × IsMadeOf text t)) }
{
    match class_text(consts, index) {
        Some(text) => is_made_of(text.bytes()),
        None => false,
    }
}

/// Whether the constant is an array of at least so many dimensions.
pub(crate) fn is_sized(consts: &Consts, index: u16, count: u8) -> bool
    ensures { IsTrue result
        ↔ Names consts.now index (IsClass (λ text. (t : FieldType) × HasDimensions count text t)) }
{
    match class_text(consts, index) {
        Some(text) => has_dimensions(count, text.bytes()),
        None => false,
    }
}

// ---- members

fn is_field_of(class: &[u8], name: &[u8], text: &[u8]) -> bool
    ensures { IsTrue result ↔ IsField class.now name.now text.now }
{
    is_class_text(class) && is_plain_name(name) && is_field(text)
}

/// Whether the constant is a field.
pub(crate) fn is_field_const(consts: &Consts, index: u16) -> bool
    ensures { IsTrue result ↔ Names consts.now index AllowsField }
{
    match any_member(consts, index) {
        Some((MemberTag::Field, class, name, text)) => {
            is_field_of(class.bytes(), name.bytes(), text.bytes())
        }
        _ => false,
    }
}

/// Whether a call of this sort is of members of this one.
fn takes_tag(call: Call, tag: MemberTag) -> bool
    ensures { IsTrue result ↔ TakesTag (sort_of_call call) tag }
{
    match (call, tag) {
        (Call::Virtual, MemberTag::Method) => true,
        (Call::Special, MemberTag::Method | MemberTag::InterfaceMethod) => true,
        (Call::Static, MemberTag::Method | MemberTag::InterfaceMethod) => true,
        (Call::Interface, MemberTag::InterfaceMethod) => true,
        _ => false,
    }
}

/// Whether a method of this name and descriptor may be called so.
fn is_called_name(call: Call, name: &[u8], text: &[u8]) -> bool
    ensures { (m : MethodTypes) → SpellsMethod text.now m
        → IsTrue result ↔ IsCalledName (sort_of_call call) name.now m }
{
    if name == INITIALISER {
        return false;
    }
    if name != CONSTRUCTOR {
        return true;
    }
    matches!(call, Call::Special) && returns_nothing(text)
}

/// The units of the parameters of a method that may be called so.
fn method_units(call: Call, tag: MemberTag, class: &[u8], name: &[u8], text: &[u8]) -> Option<u32>
    ensures some { IfSome result (λ n. (m : MethodTypes)
        × IsMethod (sort_of_call call) tag class.now name.now text.now m
        × (n ≡ units_of_params m)) }
    ensures none { IfNone result ((m : MethodTypes)
        → IsMethod (sort_of_call call) tag class.now name.now text.now m → ⊥) }
{
    if !takes_tag(call, tag) || !is_class_text(class) {
        return None;
    }
    let Some(units) = units(text) else {
        return None;
    };
    if !is_called_name(call, name, text) {
        return None;
    }
    Some(units)
}

/// The units of the parameters of the method that the constant is, where it may be called so.
fn call_units(call: Call, consts: &Consts, index: u16) -> Option<u32>
    requires { sort_of_call call ≢ Dynamic }
    ensures some { IfSome result (λ n. Names consts.now index (CallsWith (sort_of_call call) n)) }
    ensures none { IfNone result (Names consts.now index (AllowsCall (sort_of_call call)) → ⊥) }
{
    match any_member(consts, index) {
        Some((tag, class, name, text)) => {
            method_units(call, tag, class.bytes(), name.bytes(), text.bytes())
        }
        None => None,
    }
}

/// Whether the constant is a method that may be called so.
pub(crate) fn is_call(call: Call, consts: &Consts, index: u16) -> bool
    requires { sort_of_call call ≢ Dynamic }
    ensures { IsTrue result ↔ Names consts.now index (AllowsCall (sort_of_call call)) }
{
    match call_units(call, consts, index) {
        Some(_) => true,
        None => false,
    }
}

/// Whether the constant is a method of an interface, of so many slots of arguments with the object.
pub(crate) fn is_counted(consts: &Consts, index: u16, count: u8) -> bool
    ensures { IsTrue result ↔ Names consts.now index (AllowsCounted count) }
{
    match call_units(Call::Interface, consts, index) {
        Some(units) => count != 0 && units == count as u32 - 1,
        None => false,
    }
}

fn is_dynamic(name: &[u8], text: &[u8]) -> bool
    ensures { IsTrue result ↔ ((m : MethodTypes) × IsDynamic name.now text.now m) }
{
    let Some(_) = units(text) else {
        return false;
    };
    is_called_name(Call::Dynamic, name, text)
}

/// Whether the constant is a dynamic call.
pub(crate) fn is_dynamic_const(consts: &Consts, index: u16) -> bool
    ensures { IsTrue result ↔ Names consts.now index (AllowsCall Dynamic) }
{
    match dynamic(consts, index) {
        Some((name, text)) => is_dynamic(name.bytes(), text.bytes()),
        None => false,
    }
}
