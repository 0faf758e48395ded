//! The program of a method (JVMS 4.7.3).

ghost use Rattle.std.specs.Prelude.{◌≡◌, ◌++◌, map, IfOk, IfSome, IfNone};
ghost use Rattle.je_instr.specs.CodeProgram.{parameters_of};
ghost use Rattle.je_machine.specs.Value.{kind_of};
ghost use Rattle.je_link.specs.Linked.{IsProgramOf, HasNoProgram};

use crate::handlers::handlers_of;
use crate::operation::operations_of;
use je_base::Memory;
use je_consts::Consts;
use je_instr::{Decoded, one_decoding};
use je_value::{FieldType, Kind, KindForm, MethodTypes, Program, read_method_types};
use sqlite_items::Items;
use std::alloc::Global;

/// The kinds, and then those of the types.
fn with_kinds(kinds: Items<Kind>, types: &[FieldType]) -> Result<Items<Kind>, Memory>
    ensures { IfOk result (λ all. all ≡ kinds ++ map kind_of types.now) }
{
    let mut all = kinds;
    for of in types {
        all.push(of.kind_of())?;
    }
    Ok(all)
}

/// The kinds of a method's parameters, of which `this` is the first unless it is static.
fn parameters_of(alloc: Global, is_static: bool, types: &MethodTypes) -> Result<Items<Kind>, Memory>
    ensures { IfOk result (λ kinds. kinds ≡ parameters_of is_static types.now) }
{
    let mut kinds = Items::new(alloc);
    if !is_static {
        kinds.push(Kind::of(KindForm::Reference))?;
    }
    with_kinds(kinds, types.params())
}

/// The program of a method, by whether it is static, its descriptor, and its decoded code, or
/// `None` where the descriptor is none of a method, an instruction may not have its operands, or a
/// handler names no class that it may catch.
///
/// # Errors
///
/// `Memory` where memory runs out.
pub fn program_of(
    alloc: Global,
    consts: &Consts,
    is_static: bool,
    descriptor: &[u8],
    decoded: &Decoded,
) -> Result<Option<Program>, Memory>
    // It is the program of each method of which this was decoded.
    ensures found { IfOk result (λ found. IfSome found (
        IsProgramOf consts.now is_static descriptor.now decoded.now)) }
    // Where there is none, no such method is one.
    ensures only { IfOk result (λ found. IfNone found (
        HasNoProgram consts.now is_static descriptor.now decoded.now)) }
{
    one_decoding();
    let Some(types) = read_method_types(alloc, descriptor)? else {
        return Ok(None);
    };
    let program = &decoded.program;
    let Some(operations) = operations_of(alloc, consts, program.instrs.as_slice())? else {
        return Ok(None);
    };
    let Some(handlers) = handlers_of(alloc, consts, program.handlers.as_slice())? else {
        return Ok(None);
    };
    let parameters = parameters_of(alloc, is_static, &types)?;
    Ok(Some(Program::of(parameters, operations, handlers)))
}
