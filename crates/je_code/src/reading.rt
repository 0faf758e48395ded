//! A Code attribute, read from its bytes (JVMS 4.7.3).

ghost use Rattle.std.specs.Prelude.{◌≡◌, ◌⊎◌, IfOk, IfErr, MatchResult};
ghost use Rattle.je_instr.specs.declared.fault.CodeFault.{CodeFault};
ghost use Rattle.je_code.specs.declared.attr.CodeAttr.{CodeAttr};
ghost use Rattle.je_code.specs.Code.{code_parts};
ghost use Rattle.je_code.specs.CodeAttr.{IsCodeAttr, HasRowsWithin};
ghost use Rattle.je_code.specs.Faults.{FirstFault};
ghost use Rattle.je_code.specs.Reading.{IsRising, IsTabled, Reads, code_of_parts};

use crate::attr::CodeAttr;
use crate::attributes::{lines_of, map_of, vars_of};
use crate::info::AttributeInfo;
use crate::laws::one_code;
use crate::names::{LOCAL_VARIABLE_TABLE, LOCAL_VARIABLE_TYPE_TABLE};
use crate::numbers::{bytecode_at, number_at};
use crate::structures::table_at;
use je_base::{Memory, Run};
use je_consts::Consts;
use je_instr::{CodeFault, Decoded, RawHandler, decode, offsets_rise};
use sqlite_items::Items;
use std::alloc::Global;

/// The parts of a Code attribute.
#[derive(Debug, Drop)]
pub(crate) struct Parts {
    max_stack: u16,
    max_locals: u16,
    code: Run,
    handlers: Vec<RawHandler>,
    attributes: Vec<AttributeInfo>,
}

/// The parts at the front of the bytes, and the offset at which they end.
fn parts_at(alloc: Global, info: &Run) -> Result<(Parts, usize), CodeFault>
    ensures { Reads (λ x. (code_of_parts x.0, x.1)) info.now 0 code_parts result }
{
    let (max_stack, at) = number_at(info, 0)?;
    let (max_locals, at) = number_at(info, at)?;
    let (code, at) = bytecode_at(info, at)?;
    let (handlers, at) = table_at(alloc, info, at)?;
    let (attributes, at) = table_at(alloc, info, at)?;
    let parts = Parts {
        max_stack,
        max_locals,
        code,
        handlers,
        attributes,
    };
    Ok((parts, at))
}

/// The content with its tables, where the instructions are decoded.
fn with_tables(
    alloc: Global,
    parts: Parts,
    decoded: Decoded,
    consts: &Consts,
) -> Result<CodeAttr, Memory>
    requires { IsRising decoded.offsets }
    ensures { IfOk result (IsTabled consts.now (code_of_parts parts) decoded) }
{
    let attributes = parts.attributes.as_slice();
    let offsets = decoded.offsets.as_slice();
    let lines = lines_of(alloc, consts, attributes, offsets)?;
    let vars = vars_of(alloc, consts, LOCAL_VARIABLE_TABLE, attributes, offsets)?;
    let var_types = vars_of(
        alloc,
        consts,
        LOCAL_VARIABLE_TYPE_TABLE,
        attributes,
        offsets,
    )?;
    let map = map_of(consts, attributes)?;
    Ok(CodeAttr {
        max_stack: parts.max_stack,
        max_locals: parts.max_locals,
        decoded,
        lines: Items::from_vec(lines),
        vars: Items::from_vec(vars),
        var_types: Items::from_vec(var_types),
        map,
    })
}

/// The content of a Code attribute, or its first fault.
fn code_attr(alloc: Global, info: &Run, consts: &Consts) -> Result<CodeAttr, CodeFault>
    ensures found { IfOk result (IsCodeAttr consts.now info.now) }
    ensures fault { IfErr result (λ e. (e ≡ CodeFault.Memory) ⊎ FirstFault consts.now info.now e) }
{
    // The law of the layer below that the proof stands on.
    offsets_rise();

    let (parts, end) = parts_at(alloc, info)?;
    if end < info.len() {
        return Err(CodeFault::BadLayout(end));
    }
    let decoded = decode(alloc, parts.code.as_slice(), &parts.handlers, consts)?;
    let attr = with_tables(alloc, parts, decoded, consts)?;
    Ok(attr)
}

/// Reads the content of a Code attribute (JVMS 4.7.3), over these constants.
///
/// Of several tables of one name the first counts (JVMS 4.7.4 and 4.7.12 to 4.7.14). One whose
/// bytes are no count and that many entries is taken as absent. An entry is left out where an
/// offset of it is neither that of an instruction nor that of the end. The StackMapTable is kept as
/// bytes, a part of the run that is not copied.
///
/// # Errors
///
/// The first test that fails. First the bytes are read in their order, and `BadLayout` has the
/// offset at which a number or a run of bytes begins that is cut off, or a length of the code that
/// is 0 or above 65,535; then it has the offset of the first byte behind the last attribute. Then
/// come the faults of `decode` for the code and the exception table. `Memory` comes where memory
/// runs out.
pub fn read_code(alloc: Global, info: &Run, consts: &Consts) -> Result<CodeAttr, CodeFault>
    // What is read is what the bytes are.
    ensures found { IfOk result (IsCodeAttr consts.now info.now) }

    // What the bytes are is read, unless memory runs out.
    ensures only { (attr : CodeAttr) → IsCodeAttr consts.now info.now attr →
        MatchResult result (λ found. found ≡ attr) (λ e. e ≡ CodeFault.Memory) }

    // Each other fault is the first one, and where there is a first one, no other answer comes.
    ensures fault { IfErr result (λ e. (e ≡ CodeFault.Memory) ⊎ FirstFault consts.now info.now e) }
    ensures exact { (f : CodeFault) → FirstFault consts.now info.now f →
        MatchResult result (λ _. ⊥) (λ e. (e ≡ CodeFault.Memory) ⊎ (e ≡ f)) }

    // The rows stand within the code, as `map_tables` asks for.
    ensures rows { IfOk result HasRowsWithin }
{
    // The laws that the proof stands on.
    one_code();
    offsets_rise();

    match code_attr(alloc, info, consts) {
        Ok(attr) => Ok(attr),
        Err(fault) => Err(fault),
    }
}
