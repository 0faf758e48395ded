ghost use Rattle.std.specs.Prelude.{◌≡◌, [], IfOk};
ghost use Rattle.je_instr.specs.Assembling.{IsProgram};

use je_base::Run;
use je_consts::Consts;
use je_instr::{Instr, Program, RawHandler, decode, decoded_again, opcodes as op};
use je_put::{Block, PlaceBlock, splice};
use sqlite_items::Items;
use std::test::*;

/// A pool without entries.
const EMPTY: &[u8] = b"\x00\x01";

/// `nop`, `iconst_0`, `ifeq` to `iconst_0`, `nop`, `return`.
const CODE: &[u8] = b"\x00\x03\x99\xff\xff\x00\xb1";

/// What the first two instructions throw goes to the last one.
const TABLE: [RawHandler; 1] = [RawHandler {
    start: 0,
    end: 2,
    target: 6,
    catch_const: 0,
}];

fn method(rt: &HostRuntime) -> Result<Program, Fail>
    ensures { IfOk result IsProgram }
{
    let bytes = Run::of_vec(rt.alloc(), Vec::from_slice(rt.alloc(), EMPTY)?)?;
    let Ok((consts, _)) = Consts::read(rt.alloc(), &bytes, 0) else {
        return Err("no pool".into());
    };
    let Ok(decoded) = decode(rt.alloc(), CODE, &TABLE, &consts) else {
        return Err("no program".into());
    };
    decoded_again();
    Ok(decoded.program)
}

/// A block of one instruction of which nothing is known.
fn block(rt: &HostRuntime, instr: Instr) -> Result<Block, Fail>
    ensures { IfOk result (λ b. b.shapes ≡ []) }
{
    let mut instrs = Items::new(rt.alloc());
    instrs.push(instr)?;
    Ok(Block {
        instrs,
        handlers: Items::new(rt.alloc()),
        shapes: Items::new(rt.alloc()),
        depth: 0,
        locals: 0,
    })
}

#[test]
fn nothing_is_put(rt: HostRuntime) -> Result<(), Fail> {
    let program = method(&rt)?;
    let Ok(spliced) = splice(rt.alloc(), &program, &[], &[]) else {
        return Err("there is memory".into());
    };
    assert!(rt;
        matches!(
            spliced.program.instrs.as_slice(),
            [
                Instr::Simple(op::NOP),
                Instr::IntPush(0),
                Instr::Branch(op::IFEQ, 1),
                Instr::Simple(op::NOP),
                Instr::Simple(op::RETURN)
            ]
        )
    );
    assert_eq!(rt; spliced.new_of.as_slice(), [0, 1, 2, 3, 4, 5].as_slice());
    Ok(())
}

#[test]
fn jumps_meet_what_is_put(rt: HostRuntime) -> Result<(), Fail> {
    let program = method(&rt)?;
    let places = [PlaceBlock {
        at: 1,
        removed: false,
        jumps: true,
        block: block(&rt, Instr::IntPush(7))?,
    }];
    let Ok(spliced) = splice(rt.alloc(), &program, &places, &[]) else {
        return Err("there is memory".into());
    };
    assert!(rt;
        matches!(
            spliced.program.instrs.as_slice(),
            [
                Instr::Simple(op::NOP),
                Instr::IntPush(7),
                Instr::IntPush(0),
                Instr::Branch(op::IFEQ, 1),
                Instr::Simple(op::NOP),
                Instr::Simple(op::RETURN)
            ]
        )
    );
    assert_eq!(rt; spliced.new_of.as_slice(), [0, 2, 3, 4, 5, 6].as_slice());
    Ok(())
}
