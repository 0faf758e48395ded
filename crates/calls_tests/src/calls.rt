ghost use Rattle.std.specs.Prelude.{◌≡◌, IfOk};
ghost use Rattle.je_instr.specs.Assembling.{IsProgram};

use je_base::{Run, Text};
use je_calls::{CallStop, Fragment, Replaced, Rule, replace_calls};
use je_consts::Consts;
use je_desc::MethodType;
use je_instr::{Instr, Program, RawHandler, decode, decoded_again, opcodes as op};
use sqlite_items::Items;
use std::test::*;

/// A pool of which the sixth entry is the method `A.b()V` and the tenth `A.c(I)V`.
const POOL: &[u8] = b"\x00\x0b\x01\x00\x01A\x01\x00\x01b\x01\x00\x03()V\
      \x07\x00\x01\x0c\x00\x02\x00\x03\x0a\x00\x04\x00\x05\
      \x01\x00\x01c\x01\x00\x04(I)V\x0c\x00\x07\x00\x08\x0a\x00\x04\x00\x09";

/// A call of `A.b`, and back to it.
const LOOP: &[u8] = b"\xb8\x00\x06\xa7\xff\xfd";

/// `iconst_0`, a switch to a call of `A.b` or past it, and `return`.
const SWITCH: &[u8] = b"\x03\xaa\x00\x00\x00\x00\x00\x16\x00\x00\x00\x00\x00\x00\x00\x00\
      \x00\x00\x00\x13\xb8\x00\x06\xb1";

/// A call of `A.b`, `return`; and `pop`, `return`, which handles what the call throws.
const CAUGHT: &[u8] = b"\xb8\x00\x06\xb1\x57\xb1";

const TABLE: [RawHandler; 1] = [RawHandler {
    start: 0,
    end: 3,
    target: 4,
    catch_const: 0,
}];

/// `return`, and what nothing comes to: a call of `A.b`, `return`.
const DEAD: &[u8] = b"\xb1\xb8\x00\x06\xb1";

/// A call of `A.b`, `return`.
const PLAIN: &[u8] = b"\xb8\x00\x06\xb1";

/// `iconst_0`, a call of `A.c`, `return`.
const TAKES: &[u8] = b"\x03\xb8\x00\x0a\xb1";

fn pool(rt: &HostRuntime) -> Result<Consts, Fail> {
    let bytes = Run::of_vec(rt.alloc(), Vec::from_slice(rt.alloc(), POOL)?)?;
    match Consts::read(rt.alloc(), &bytes, 0) {
        Ok((consts, _)) => Ok(consts),
        Err(_) => Err("no pool".into()),
    }
}

fn program(
    rt: &HostRuntime,
    consts: &Consts,
    code: &[u8],
    table: &[RawHandler],
) -> Result<Program, Fail>
    ensures { IfOk result IsProgram }
{
    let Ok(decoded) = decode(rt.alloc(), code, table, consts) else {
        return Err("no program".into());
    };
    decoded_again();
    Ok(decoded.program)
}

fn text(rt: &HostRuntime, of: &str) -> Result<Text, Fail> {
    match Text::of(rt.alloc(), of) {
        Ok(text) => Ok(text),
        Err(_) => Err("a text is made".into()),
    }
}

/// The code with the fragment in the place of calls of a method of class A.
fn replaced(
    rt: &HostRuntime,
    code: &[u8],
    table: &[RawHandler],
    member: &str,
    fragment: Fragment,
) -> Result<Result<Replaced, CallStop>, Fail> {
    let alloc = rt.alloc();
    let consts = pool(rt)?;
    let program = program(rt, &consts, code, table)?;
    let class = text(rt, "A")?;
    let types = MethodType {
        params: Items::new(alloc),
        result: None,
    };
    let rules = [Rule {
        class_name: text(rt, "A")?,
        member: text(rt, member)?,
        fragment,
    }];
    Ok(replace_calls(
        alloc, &class, &consts, &program, true, false, &types, &rules,
    ))
}

fn made(
    rt: &HostRuntime,
    code: &[u8],
    table: &[RawHandler],
    member: &str,
    fragment: Fragment,
) -> Result<Replaced, Fail> {
    match replaced(rt, code, table, member, fragment)? {
        Ok(replaced) => Ok(replaced),
        Err(_) => Err("the calls give way".into()),
    }
}

#[test]
fn loops(rt: HostRuntime) -> Result<(), Fail> {
    let r = made(&rt, LOOP, &[], "b", Fragment::Empty)?;
    assert!(rt; matches!(r.program.instrs.as_slice(), [Instr::Goto(0)]));
    assert_eq!(rt; r.new_of.as_slice(), [0, 0, 1].as_slice());
    assert_eq!(rt; r.count, 1);
    Ok(())
}

#[test]
fn switches(rt: HostRuntime) -> Result<(), Fail> {
    let r = made(&rt, SWITCH, &[], "b", Fragment::Empty)?;
    assert!(rt;
        matches!(
            r.program.instrs.as_slice(),
            [
                Instr::IntPush(0),
                Instr::TableSwitch(0, _, 2),
                Instr::Simple(op::RETURN)
            ]
        )
    );
    assert_eq!(rt; r.new_of.as_slice(), [0, 1, 2, 2, 3].as_slice());
    Ok(())
}

#[test]
fn handlers(rt: HostRuntime) -> Result<(), Fail> {
    let r = made(&rt, CAUGHT, &TABLE, "b", Fragment::Proceed)?;
    assert_eq!(rt; r.program.instrs.as_slice().len(), 4);
    assert_eq!(rt; r.program.handlers.as_slice().len(), 1);
    assert_eq!(rt; r.count, 1);
    Ok(())
}

#[test]
fn emptied_ranges(rt: HostRuntime) -> Result<(), Fail> {
    let r = made(&rt, CAUGHT, &TABLE, "b", Fragment::Empty)?;
    assert!(rt; r.program.handlers.is_empty());
    assert_eq!(rt; r.new_of.as_slice(), [0, 0, 1, 2, 3].as_slice());
    Ok(())
}

#[test]
fn dead_code(rt: HostRuntime) -> Result<(), Fail> {
    let r = made(&rt, DEAD, &[], "b", Fragment::Empty)?;
    assert!(rt; matches!(r.program.instrs.as_slice(), [Instr::Simple(op::RETURN)]));
    assert_eq!(rt; r.new_of.as_slice(), [0, 1, 1, 1].as_slice());
    assert_eq!(rt; r.count, 0);
    Ok(())
}

#[test]
fn no_match(rt: HostRuntime) -> Result<(), Fail> {
    let r = made(&rt, PLAIN, &[], "d", Fragment::Empty)?;
    assert_eq!(rt; r.new_of.as_slice(), [0, 1, 2].as_slice());
    assert_eq!(rt; r.count, 0);
    Ok(())
}

#[test]
fn refusals(rt: HostRuntime) -> Result<(), Fail> {
    let takes = replaced(&rt, TAKES, &[], "c", Fragment::Empty)?;
    assert!(rt; matches!(takes, Err(CallStop::NotYet)));
    let faulty = replaced(&rt, b"\x57\xb1", &[], "b", Fragment::Empty)?;
    assert!(rt; matches!(faulty, Err(CallStop::NotYet)));
    Ok(())
}
