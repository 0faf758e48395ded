//! Which methods an instruction may call (JVMS 6.5, invokestatic).

ghost use Rattle.std.specs.Prelude.{◌≡◌, ℕ, ◌↔◌, List, Some, codes, IsTrue, IfSome, IfNone};
ghost use Rattle.std.specs.Option.{option_map};
ghost use Rattle.je_consts.specs.declared.constant.MemberTag.TheVariants.{Method};
ghost use Rattle.je_machine.specs.Content.{Member};
ghost use Rattle.je_instr.specs.Content.{content_at};
ghost use Rattle.je_instr.specs.Callee.{IsCallable};
ghost use Rattle.je_instr.specs.Methods.{of_method};

use je_base::Text;
use je_consts::{Const, ConstIndex, Consts};
use je_desc::is_class_name;

/// The name of constructors (JVMS 2.9.1).
const CONSTRUCTOR: &[u8] = b"<init>";

/// The name of class initialisers (JVMS 2.9.2).
const INITIALISER: &[u8] = b"<clinit>";

/// The descriptor of a method that takes nothing and answers nothing.
const NO_ARGUMENTS: &[u8] = b"()V";

fn is_callable(class: &[u8], name: &[u8], descriptor: &[u8]) -> bool
    ensures { IsTrue result ↔ IsCallable class.now name.now descriptor.now }
{
    is_class_name(class) && name != CONSTRUCTOR && name != INITIALISER && descriptor == NO_ARGUMENTS
}

/// The class, the name and the descriptor of a method.
fn method_at(consts: &Consts, index: ConstIndex) -> Option<(&Text, &Text, &Text)>
    ensures { option_map (λ m. Member Method m.0.now m.1.now m.2.now) result
        ≡ of_method (content_at consts.now index) }
{
    let Some(Const::Method(class, member)) = consts.get(index) else {
        return None;
    };
    let class = consts.class_name(*class)?;
    let (name, descriptor) = consts.name_and_type(*member)?;
    Some((class, name, descriptor))
}

/// The class and the name of the method that a constant lets an instruction call.
///
/// `None`: the constant is no method, or a method that no instruction may call: one of an array, a
/// constructor, a class initialiser, or so far one with parameters or a result.
pub fn called_method(consts: &Consts, index: ConstIndex) -> Option<(&Text, &Text)>
    ensures found { IfSome result (λ m. content_at consts.now index
        ≡ Some (Member Method m.0.now m.1.now (codes "()V"))) }
    ensures callable { IfSome result (λ m. IsCallable m.0.now m.1.now (codes "()V")) }
    ensures none { IfNone result ((class name descriptor : List ℕ)
        → content_at consts.now index ≡ Some (Member Method class name descriptor)
        → IsCallable class name descriptor → ⊥) }
{
    let (class, name, descriptor) = method_at(consts, index)?;
    if is_callable(class.bytes(), name.bytes(), descriptor.bytes()) {
        Some((class, name))
    } else {
        None
    }
}
