ghost use Rattle.std.specs.Prelude.{◌≡◌, ℕ, ◌<◌, ◌≤◌, IsTrue, IfOk, length, slice_index};
ghost use Rattle.std.specs.List.{AllByRecursion};
ghost use Rattle.je_code.specs.CodeAttr.{HasRowsWithin};
ghost use Rattle.je_code.specs.Moved.{IsNewOf};
ghost use Rattle.je_instr.specs.Assembling.{IsProgram};

use je_base::{Run, Text};
use je_code::{CodeAttr, LineRow, Tables, VarRow, map_tables, read_code, write_code};
use je_consts::{Consts, PoolStop};
use je_instr::{CodeFault, Instr, assemble, assembled_offsets, decoded_again, opcodes as op};
use samples::CLASS_A;
use std::test::*;

/// The texts of a pool, from index 1 on.
const NAMES: [&[u8]; 7] = [
    b"LineNumberTable",
    b"LocalVariableTable",
    b"LocalVariableTypeTable",
    b"StackMapTable",
    b"x",
    b"I",
    b"Other",
];

/// Two places of stack and one local, the code `bipush 7`, `istore_0`, `return`, whose instructions
/// begin at 0, 2 and 3, and no handlers. The count of the attributes comes next, at 14.
const CODE: &[u8] = b"\x00\x02\x00\x01\x00\x00\x00\x04\x10\x07\x3b\xb1\x00\x00";

/// Line 5 from offset 0 on and line 6 from offset 3 on.
const LINES: &[u8] = b"\x00\x01\x00\x00\x00\x0a\x00\x02\x00\x00\x00\x05\x00\x03\x00\x06";

/// Line 9 from offset 2 on.
const OTHER_LINES: &[u8] = b"\x00\x01\x00\x00\x00\x06\x00\x01\x00\x02\x00\x09";

/// Variable `x` of type `I` in slot 0, from offset 2 on for two bytes.
const VARS: &[u8] = b"\x00\x02\x00\x00\x00\x0c\x00\x01\x00\x02\x00\x02\x00\x05\x00\x06\x00\x00";

/// The same variable in slot 1, for all of the code.
const TYPES: &[u8] = b"\x00\x03\x00\x00\x00\x0c\x00\x01\x00\x00\x00\x04\x00\x05\x00\x06\x00\x01";

/// A StackMapTable of three bytes, of which none is looked at.
const MAP: &[u8] = b"\x00\x04\x00\x00\x00\x03\x00\x01\xff";

/// An attribute of another name.
const OTHER: &[u8] = b"\x00\x07\x00\x00\x00\x02\x00\x00";

fn run_of(rt: &HostRuntime, bytes: &[u8]) -> Result<Run, Fail>
    ensures { IfOk result (λ run. run ≡ bytes.now) }
{
    let copy = Vec::from_slice(rt.alloc(), bytes)?;
    Ok(Run::of_vec(rt.alloc(), copy)?)
}

fn pool_of(rt: &HostRuntime, texts: &[&[u8]]) -> Result<Consts, Fail> {
    let mut consts = match Consts::read(rt.alloc(), &run_of(rt, b"\x00\x01")?, 0) {
        Ok((consts, _)) => consts,
        Err(_) => return Err("no pool".into()),
    };
    for bytes in texts {
        let text = Text::from_bytes(rt.alloc(), bytes)?.ok_or("a text")?;
        if bytes.len() > 65535 || consts.add_text(&text).is_err() {
            return Err("no room".into());
        }
    }
    Ok(consts)
}

/// The code with these attributes.
fn info_of(rt: &HostRuntime, attributes: &[&[u8]]) -> Result<Vec<u8>, Fail> {
    let count = u16::try_from(attributes.len()).ok().ok_or("fewer")?;
    let mut bytes = Vec::from_slice(rt.alloc(), CODE)?;
    bytes.extend_from_slice(&count.to_be_bytes())?;
    for attribute in attributes {
        bytes.extend_from_slice(attribute)?;
    }
    Ok(bytes)
}

/// What these bytes are read as, over these constants.
fn read(rt: &HostRuntime, bytes: &[u8], consts: &Consts) -> Result<CodeAttr, Fail>
    ensures rows { IfOk result HasRowsWithin }
    ensures program { IfOk result (λ c. IsProgram c.decoded.program) }
{
    decoded_again();

    match read_code(rt.alloc(), &run_of(rt, bytes)?, consts) {
        Ok(code) => Ok(code),
        Err(fault) => Err(format!(in rt.alloc(); "{fault:?}")?.into()),
    }
}

/// What the code is read as with these attributes.
fn code_with(rt: &HostRuntime, attributes: &[&[u8]]) -> Result<CodeAttr, Fail>
    ensures rows { IfOk result HasRowsWithin }
    ensures program { IfOk result (λ c. IsProgram c.decoded.program) }
{
    let bytes = info_of(rt, attributes)?;
    let consts = pool_of(rt, &NAMES)?;
    read(rt, &bytes, &consts)
}

/// Why these bytes are not read, or `None` where they are.
fn fault_of(rt: &HostRuntime, bytes: &[u8]) -> Result<Option<CodeFault>, Fail> {
    let consts = pool_of(rt, &NAMES)?;
    Ok(read_code(rt.alloc(), &run_of(rt, bytes)?, &consts).err())
}

/// Whether the numbers never fall.
fn rises(list: &[u32]) -> bool
    ensures { IsTrue result → (i j : ℕ) → i ≤ j → j < length list.now →
        slice_index list.now i ≤ slice_index list.now j }
{
    list.is_sorted()
}

/// Whether the numbers are at most this one.
fn are_within(list: &[u32], most: u32) -> bool
    ensures { IsTrue result → AllByRecursion (λ index. index ≤ most) list.now }
{
    list.iter().all(|index| *index <= most)
}

/// Whether these are the new indexes of so many instructions, in code of as many as are counted.
fn is_new_of(old: usize, count: u32, new_of: &[u32]) -> bool
    ensures { IsTrue result → IsNewOf old count new_of.now }
{
    !new_of.is_empty() && new_of.len() - 1 == old && rises(new_of) && are_within(new_of, count)
}

/// The tables where the instructions move.
fn moved(rt: &HostRuntime, code: &CodeAttr, new_of: &[u32], count: u32) -> Result<Tables, Fail>
    requires rows { HasRowsWithin code.now }
{
    if !is_new_of(code.decoded.program.instrs.len(), count, new_of) {
        return Err("no map".into());
    }
    Ok(map_tables(rt.alloc(), code, new_of, count)?)
}

/// What the code is written as, with its instructions where they are.
fn written(
    rt: &HostRuntime,
    code: &CodeAttr,
    consts: &mut Consts,
) -> Result<Result<Vec<u8>, PoolStop>, Fail>
    requires rows { HasRowsWithin code.now }
    requires program { IsProgram code.now.decoded.program }
{
    assembled_offsets();

    let count = u32::try_from(code.decoded.program.instrs.len())
        .ok()
        .ok_or("fewer")?;
    let mut new_of = Vec::new(rt.alloc());
    for index in 0..count {
        new_of.push(index)?;
    }
    new_of.push(count)?;
    if !is_new_of(code.decoded.program.instrs.len(), count, &new_of) {
        return Err("no map".into());
    }
    let tables = map_tables(rt.alloc(), code, &new_of, count)?;
    let found = match assemble(rt.alloc(), &code.decoded.program) {
        Ok(found) => found,
        Err(_) => return Err("no code".into()),
    };
    if found.code.is_empty() || found.code.len() > 65535 || found.table.len() > 65535 {
        return Err("too long".into());
    }
    let map = match &code.map {
        Some(bytes) => Some(bytes.as_slice()),
        None => None,
    };
    let (stack, locals) = (code.max_stack, code.max_locals);
    Ok(write_code(rt.alloc(), &found, stack, locals, &tables, map, consts))
}

/// A row of variable `x`.
fn row(start: u32, end: u32, slot: u16) -> VarRow {
    VarRow {
        start,
        end,
        name: 5,
        sig: 6,
        slot,
    }
}

#[test]
fn class_a(rt: HostRuntime) -> Result<(), Fail> {
    let mut consts = match Consts::read(rt.alloc(), &run_of(&rt, &CLASS_A)?, 8) {
        Ok((consts, _)) => consts,
        Err(_) => return Err("no pool".into()),
    };
    let info = CLASS_A.get(96..112).ok_or("fewer bytes")?;
    let code = read(&rt, info, &consts)?;
    assert!(rt;
        matches!(
            code.decoded.program.instrs.as_slice(),
            [
                Instr::Invoke(op::INVOKESTATIC, 10),
                Instr::Simple(op::RETURN)
            ]
        )
    );
    assert_eq!(rt; code.decoded.offsets.as_slice(), [0, 3, 4].as_slice());
    assert!(rt; code.decoded.program.handlers.is_empty() && code.map.is_none());
    assert_eq!(rt; (code.max_stack, code.max_locals), (0, 0));
    let tables = moved(&rt, &code, &[0, 1, 2], 2)?;
    assert!(rt; tables.lines.is_empty() && tables.vars.is_empty() && tables.var_types.is_empty());
    let again = written(&rt, &code, &mut consts)?;
    assert!(rt; matches!(&again, Ok(bytes) if bytes.as_slice() == info));
    assert_eq!(rt; consts.count(), 11);
    Ok(())
}

#[test]
fn rows_of_each_table(rt: HostRuntime) -> Result<(), Fail> {
    let code = code_with(&rt, &[MAP, TYPES, OTHER, VARS, LINES])?;
    assert_eq!(rt; (code.max_stack, code.max_locals), (2, 1));
    assert_eq!(rt;
        code.lines.as_slice(),
        [LineRow { start: 0, line: 5 }, LineRow { start: 2, line: 6 }].as_slice()
    );
    assert_eq!(rt; code.vars.as_slice(), [row(1, 3, 0)].as_slice());
    assert_eq!(rt; code.var_types.as_slice(), [row(0, 3, 1)].as_slice());
    assert!(rt; matches!(&code.map, Some(bytes) if bytes.as_slice() == b"\x00\x01\xff".as_slice()));
    Ok(())
}

#[test]
fn first_of_a_name(rt: HostRuntime) -> Result<(), Fail> {
    let code = code_with(&rt, &[OTHER_LINES, LINES])?;
    assert_eq!(rt;
        code.lines.as_slice(),
        [LineRow { start: 1, line: 9 }].as_slice()
    );
    // The first one counts though its bytes are no table.
    let cut: &[u8] = b"\x00\x01\x00\x00\x00\x05\x00\x01\x00\x00\x00";
    let code = code_with(&rt, &[cut, LINES])?;
    assert!(rt; code.lines.is_empty());
    let more: &[u8] = b"\x00\x04\x00\x00\x00\x00";
    let code = code_with(&rt, &[more, MAP])?;
    assert!(rt; matches!(&code.map, Some(bytes) if bytes.len() == 0));
    Ok(())
}

#[test]
fn bytes_that_are_no_table(rt: HostRuntime) -> Result<(), Fail> {
    let table: [&[u8]; 5] = [
        // No count, half of one, fewer rows, half a row more, and a byte more.
        b"\x00\x01\x00\x00\x00\x00",
        b"\x00\x01\x00\x00\x00\x01\x00",
        b"\x00\x01\x00\x00\x00\x06\x00\x02\x00\x00\x00\x05",
        b"\x00\x01\x00\x00\x00\x08\x00\x01\x00\x00\x00\x05\x00\x02",
        b"\x00\x01\x00\x00\x00\x07\x00\x01\x00\x00\x00\x05\x00",
    ];
    for bytes in table {
        let code = code_with(&rt, &[bytes, VARS])?;
        assert!(rt; code.lines.is_empty(), "{bytes:?}");
        assert_eq!(rt; code.vars.len(), 1);
    }
    Ok(())
}

#[test]
fn rows_left_out(rt: HostRuntime) -> Result<(), Fail> {
    // Lines 1 to 5 from offsets 1, 0, 4, 5 and 2 on: 1 is within bipush, 4 the end, 5 behind it.
    let lines = [
        0, 1, 0, 0, 0, 22, 0, 5, 0, 1, 0, 1, 0, 0, 0, 2, 0, 4, 0, 3, 0, 5, 0, 4, 0, 2, 0, 5,
    ];
    let code = code_with(&rt, &[&lines])?;
    assert_eq!(rt;
        code.lines.as_slice(),
        [
            LineRow { start: 0, line: 2 },
            LineRow { start: 3, line: 3 },
            LineRow { start: 1, line: 5 }
        ]
        .as_slice()
    );
    let table: [(&[u8], &[VarRow]); 5] = [
        (b"\x00\x00\x00\x01", &[]),
        (b"\x00\x01\x00\x01", &[]),
        (b"\x00\x03\x00\x02", &[]),
        (b"\x00\x04\x00\x00", &[row(3, 3, 0)]),
        (b"\x00\x02\x00\x00", &[row(1, 1, 0)]),
    ];
    for (range, rows) in table {
        let mut vars = Vec::from_slice(rt.alloc(), b"\x00\x02\x00\x00\x00\x0c\x00\x01")?;
        vars.extend_from_slice(range)?;
        vars.extend_from_slice(b"\x00\x05\x00\x06\x00\x00")?;
        let code = code_with(&rt, &[&vars])?;
        assert_eq!(rt; code.vars.as_slice(), rows, "at {range:?}");
    }
    Ok(())
}

#[test]
fn layout_before_instructions(rt: HostRuntime) -> Result<(), Fail> {
    let mut bytes = info_of(&rt, &[LINES])?;
    for (count, at) in [
        (0, 0),
        (3, 2),
        (7, 4),
        (11, 8),
        (13, 12),
        (15, 14),
        (21, 18),
        (31, 22),
    ] {
        let front = bytes.get(..count).ok_or("fewer bytes")?;
        assert_eq!(rt;
            fault_of(&rt, front)?,
            Some(CodeFault::BadLayout(at)),
            "at {count}"
        );
    }
    assert_eq!(rt; fault_of(&rt, &bytes)?, None);
    // The second instruction is none.
    if let Some(opcode) = bytes.get_mut(10) {
        *opcode = 0xff;
    }
    assert_eq!(rt; fault_of(&rt, &bytes)?, Some(CodeFault::BadOpcode(2)));
    bytes.push(0)?;
    assert_eq!(rt; fault_of(&rt, &bytes)?, Some(CodeFault::BadLayout(32)));
    Ok(())
}

#[test]
fn entries_that_are_cut_off(rt: HostRuntime) -> Result<(), Fail> {
    // A return, and the first bytes of an entry of the exception table.
    let mut bytes = Vec::from_slice(rt.alloc(), b"\0\0\0\0\0\0\0\x01\xb1\0\x01\0\0\0\x01\0")?;
    assert_eq!(rt; fault_of(&rt, &bytes)?, Some(CodeFault::BadLayout(15)));
    bytes.extend_from_slice(b"\x01\0\0\0\0")?;
    assert_eq!(rt; fault_of(&rt, &bytes)?, Some(CodeFault::BadRange(0)));
    bytes.push(0)?;
    assert_eq!(rt; fault_of(&rt, &bytes)?, Some(CodeFault::BadLayout(21)));
    Ok(())
}

/// A Code of so many bytes of code, which are nops.
fn nops(rt: &HostRuntime, count: u32) -> Result<Vec<u8>, Fail> {
    let mut bytes = Vec::from_slice(rt.alloc(), b"\0\0\0\0")?;
    bytes.extend_from_slice(&count.to_be_bytes())?;
    for _ in 0..count {
        bytes.push(0)?;
    }
    bytes.extend_from_slice(b"\0\0\0\0")?;
    Ok(bytes)
}

#[test]
fn lengths_of_code(rt: HostRuntime) -> Result<(), Fail> {
    let table = [
        (0, Some(CodeFault::BadLayout(4))),
        (1, None),
        (65_535, None),
        (65_536, Some(CodeFault::BadLayout(4))),
    ];
    for (count, fault) in table {
        let bytes = nops(&rt, count)?;
        assert_eq!(rt; fault_of(&rt, &bytes)?, fault, "{count}");
    }
    Ok(())
}

#[test]
fn faults_of_code(rt: HostRuntime) -> Result<(), Fail> {
    let mut bytes = nops(&rt, 1)?;
    for (opcode, fault) in [
        (0xa8, CodeFault::CutShort(0)),
        (0xff, CodeFault::BadOpcode(0)),
    ] {
        if let Some(first) = bytes.get_mut(8) {
            *first = opcode;
        }
        assert_eq!(rt; fault_of(&rt, &bytes)?, Some(fault));
    }
    Ok(())
}

#[test]
fn rows_move(rt: HostRuntime) -> Result<(), Fail> {
    let code = code_with(&rt, &[LINES, VARS, TYPES])?;
    let tables = moved(&rt, &code, &[1, 2, 4, 6], 7)?;
    assert_eq!(rt;
        tables.lines.as_slice(),
        [LineRow { start: 1, line: 5 }, LineRow { start: 4, line: 6 }].as_slice()
    );
    assert_eq!(rt; tables.vars.as_slice(), [row(2, 6, 0)].as_slice());
    assert_eq!(rt; tables.var_types.as_slice(), [row(1, 6, 1)].as_slice());

    // The last two instructions go: the line stands at the end, and the variable has no range.
    let tables = moved(&rt, &code, &[0, 1, 1, 1], 1)?;
    assert_eq!(rt;
        tables.lines.as_slice(),
        [LineRow { start: 0, line: 5 }].as_slice()
    );
    assert!(rt; tables.vars.is_empty());
    assert_eq!(rt; tables.var_types.as_slice(), [row(0, 1, 1)].as_slice());

    // The first two go: both lines stand at one instruction, and stay.
    let tables = moved(&rt, &code, &[0, 0, 0, 1], 1)?;
    assert_eq!(rt;
        tables.lines.as_slice(),
        [LineRow { start: 0, line: 5 }, LineRow { start: 0, line: 6 }].as_slice()
    );
    assert_eq!(rt; tables.vars.as_slice(), [row(0, 1, 0)].as_slice());
    Ok(())
}

#[test]
fn written_in_order(rt: HostRuntime) -> Result<(), Fail> {
    let code = code_with(&rt, &[MAP, OTHER, TYPES, LINES, OTHER_LINES, VARS])?;
    let mut consts = pool_of(&rt, &NAMES)?;
    let wanted = info_of(&rt, &[LINES, VARS, TYPES, MAP])?;
    let found = written(&rt, &code, &mut consts)?;
    assert!(rt; matches!(&found, Ok(bytes) if *bytes == wanted));
    assert_eq!(rt; consts.count(), 8);
    Ok(())
}

/// The attribute with its name at another index.
fn under(rt: &HostRuntime, index: u8, attribute: &[u8]) -> Result<Vec<u8>, Fail> {
    let mut bytes = Vec::from_slice(rt.alloc(), attribute)?;
    if let Some(name) = bytes.get_mut(1) {
        *name = index;
    }
    Ok(bytes)
}

/// Whether the constant of this index is this text.
fn is_text(consts: &Consts, index: u16, bytes: &[u8]) -> bool {
    match consts.text(index) {
        Some(text) => text.bytes() == bytes,
        None => false,
    }
}

/// Code with lines, a variable and a StackMapTable, and the type of a variable that stands at the
/// end and is not written.
fn with_row_at_end(rt: &HostRuntime) -> Result<CodeAttr, Fail>
    ensures rows { IfOk result HasRowsWithin }
    ensures program { IfOk result (λ c. IsProgram c.decoded.program) }
{
    let type_at_end: &[u8] = &[0, 3, 0, 0, 0, 12, 0, 1, 0, 4, 0, 0, 0, 5, 0, 6, 0, 1];
    code_with(rt, &[LINES, VARS, type_at_end, MAP])
}

#[test]
fn names_are_added(rt: HostRuntime) -> Result<(), Fail> {
    let code = with_row_at_end(&rt)?;
    let mut consts = pool_of(&rt, &[b"a", b"LocalVariableTable", b"b"])?;
    let found = written(&rt, &code, &mut consts)?;
    let (lines, map) = (under(&rt, 4, LINES)?, under(&rt, 5, MAP)?);
    let wanted = info_of(&rt, &[&lines, VARS, &map])?;
    assert!(rt; matches!(&found, Ok(bytes) if *bytes == wanted));
    assert_eq!(rt; consts.count(), 6);
    assert!(rt; is_text(&consts, 4, b"LineNumberTable"));
    assert!(rt; is_text(&consts, 5, b"StackMapTable"));
    Ok(())
}

/// A pool of an Integer, and empty texts up to this count.
fn long_pool(rt: &HostRuntime, count: u16) -> Result<Consts, Fail> {
    let mut bytes = Vec::from_slice(rt.alloc(), &count.to_be_bytes())?;
    bytes.extend_from_slice(b"\x03\x00\x00\x00\x07")?;
    for _ in 2..count {
        bytes.extend_from_slice(b"\x01\x00\x00")?;
    }
    match Consts::read(rt.alloc(), &Run::of_vec(rt.alloc(), bytes)?, 0) {
        Ok((consts, _)) => Ok(consts),
        Err(_) => Err("no pool".into()),
    }
}

/// What the code is written as over a pool of this count, and the count that the pool has then.
fn written_over(
    rt: &HostRuntime,
    code: &CodeAttr,
    count: u16,
) -> Result<(Result<Vec<u8>, PoolStop>, u32), Fail>
    requires rows { HasRowsWithin code.now }
    requires program { IsProgram code.now.decoded.program }
{
    let mut consts = long_pool(rt, count)?;
    let found = written(rt, code, &mut consts)?;
    Ok((found, consts.count()))
}

#[test]
fn a_full_pool(rt: HostRuntime) -> Result<(), Fail> {
    let code = code_with(&rt, &[LINES, VARS, TYPES, MAP])?;
    for count in [65_535, 65_534, 65_533, 65_532] {
        let (found, after) = written_over(&rt, &code, count)?;
        assert!(rt; matches!(&found, Err(PoolStop::Full(65_536))), "{count}");
        assert_eq!(rt; after, 65_535);
    }
    Ok(())
}

#[test]
fn a_pool_with_room_for_the_names(rt: HostRuntime) -> Result<(), Fail> {
    let code = code_with(&rt, &[LINES, VARS, TYPES, MAP])?;
    let (found, after) = written_over(&rt, &code, 65_531)?;
    assert!(rt; found.is_ok());
    assert_eq!(rt; after, 65_535);
    Ok(())
}

#[test]
fn a_full_pool_where_no_name_is_wanted(rt: HostRuntime) -> Result<(), Fail> {
    let code = code_with(&rt, &[])?;
    let wanted = info_of(&rt, &[])?;
    let (found, _) = written_over(&rt, &code, 65_535)?;
    assert!(rt; matches!(&found, Ok(bytes) if *bytes == wanted));
    Ok(())
}
