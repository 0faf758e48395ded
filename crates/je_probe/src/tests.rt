use crate::{
    ProbeAnswer, ProbeEnd, ProbeEvent, ProbeHeap, ProbeOutcome, ProbeStatic, ProbeValue, probe,
};
use ProbeAnswer::{Throw, Value};
use ProbeOutcome::{GoesOn, Returned, Threw};
use ProbeValue::{Const, Dbl, Flt, Int, Long, Null, Obj};
use je_base::{Run, Text};
use je_consts::Consts;
use je_instr::{Instr, Program, RawHandler, decode, opcodes as op};
use sqlite_items::Items;
use std::test::*;

/// 2 is the class `A`, 6 its method `f()I`, 10 its field `x` of type int, 14 its method `g(IJI)J`,
/// 16 the class `java/lang/RuntimeException`, 18 the string `s`, 22 the method `h()V`, and 23 a
/// dynamic call `f()I`.
const POOL: &[u8] = b"\x00\x18\
      \x01\x00\x01A\x07\x00\x01\x01\x00\x01f\x01\x00\x03()I\x0c\x00\x03\x00\x04\x0a\x00\x02\x00\x05\
      \x01\x00\x01x\x01\x00\x01I\x0c\x00\x07\x00\x08\x09\x00\x02\x00\x09\
      \x01\x00\x01g\x01\x00\x06(IJI)J\x0c\x00\x0b\x00\x0c\x0a\x00\x02\x00\x0d\
      \x01\x00\x1ajava/lang/RuntimeException\x07\x00\x0f\x01\x00\x01s\x08\x00\x11\
      \x01\x00\x01h\x01\x00\x03()V\x0c\x00\x13\x00\x14\x0a\x00\x02\x00\x15\
      \x12\x00\x00\x00\x05";

/// An event: its opcode, what it names, and its operands.
type Seen<'a> = (u8, Option<&'a [u8]>, &'a [ProbeValue]);

/// A row: code, arguments, answers, and how it comes out within a hundred instructions.
type Row<'a> = (&'a [u8], &'a [ProbeValue], &'a [ProbeAnswer], ProbeOutcome);

fn pool(rt: &HostRuntime) -> Result<Consts, Fail> {
    let bytes = Run::of_vec(rt.alloc(), Vec::from_slice(rt.alloc(), POOL)?)?;
    match Consts::read(rt.alloc(), &bytes, 0) {
        Ok((consts, _)) => Ok(consts),
        Err(_) => Err("no pool".into()),
    }
}

fn text(rt: &HostRuntime, bytes: &[u8]) -> Result<Text, Fail> {
    Ok(Text::from_bytes(rt.alloc(), bytes)?.ok_or("a text")?)
}

/// The heap of these objects and of these values of `A.x`.
fn heap(rt: &HostRuntime, objects: &[&[u8]], values: &[i32]) -> Result<ProbeHeap, Fail> {
    let mut heap = ProbeHeap {
        objects: Vec::new(rt.alloc()),
        statics: Vec::new(rt.alloc()),
    };
    for object in objects {
        heap.objects.push(text(rt, object)?)?;
    }
    for value in values {
        heap.statics.push(ProbeStatic {
            class_name: text(rt, b"A")?,
            field: text(rt, b"x")?,
            descriptor: text(rt, b"I")?,
            value: Int(*value),
        })?;
    }
    Ok(heap)
}

/// What code with this exception table comes to.
fn probed(
    rt: &HostRuntime,
    code: &[u8],
    table: &[RawHandler],
    args: &[ProbeValue],
    heap: &ProbeHeap,
    answers: &[ProbeAnswer],
    limit: u32,
) -> Result<ProbeEnd, Fail> {
    let consts = pool(rt)?;
    let program = match decode(rt.alloc(), code, table, &consts) {
        Ok(decoded) => decoded.program,
        Err(_) => return Err("no code".into()),
    };
    Ok(probe(
        rt.alloc(),
        &program,
        &consts,
        49,
        args,
        heap,
        answers,
        limit,
    )?)
}

/// What code comes to on a heap of one object of this class, within a hundred instructions.
fn over(
    rt: &HostRuntime,
    class: &[u8],
    code: &[u8],
    table: &[RawHandler],
    args: &[ProbeValue],
    answers: &[ProbeAnswer],
) -> Result<ProbeEnd, Fail> {
    probed(
        rt,
        code,
        table,
        args,
        &heap(rt, &[class], &[])?,
        answers,
        100,
    )
}

fn is_event(event: &ProbeEvent, seen: &Seen<'_>) -> bool {
    let is_named = match (&event.content, seen.1) {
        (None, None) => true,
        (Some(text), Some(bytes)) => text.bytes() == bytes,
        _ => false,
    };
    is_named && event.opcode == seen.0 && event.operands.as_slice() == seen.2
}

fn has_events(end: &ProbeEnd, seen: &[Seen<'_>]) -> bool {
    end.events.len() == seen.len() && end.events.iter().zip(seen).all(|(e, s)| is_event(e, s))
}

/// Whether the objects behind the first are of these classes.
fn has_new(end: &ProbeEnd, classes: &[&[u8]]) -> bool {
    let objects = end.heap.objects.as_slice();
    objects.len() == classes.len() + 1
        && objects[1..]
            .iter()
            .zip(classes)
            .all(|(o, c)| o.bytes() == *c)
}

#[test]
fn methods_come_out(rt: HostRuntime) -> Result<(), Fail> {
    let rows: [Row<'_>; 24] = [
        // iconst_0, a tableswitch whose one target and fallback is the last instruction, return
        (
            b"\x03\xaa\0\0\0\0\0\x13\0\0\0\0\0\0\0\0\0\0\0\x13\xb1",
            &[],
            &[],
            Returned(None),
        ),
        // iload_0, lookupswitch -1, 5: 1, 2 or 3
        (LOOKUP, &[Int(-1)], &[], Returned(Some(Int(1)))),
        (LOOKUP, &[Int(5)], &[], Returned(Some(Int(2)))),
        (LOOKUP, &[Int(0)], &[], Returned(Some(Int(3)))),
        // iload_0, tableswitch -1 to 0: 1, 2 or 3
        (TABLE, &[Int(-1)], &[], Returned(Some(Int(1)))),
        (TABLE, &[Int(0)], &[], Returned(Some(Int(2)))),
        (TABLE, &[Int(1)], &[], Returned(Some(Int(3)))),
        (TABLE, &[Int(-2)], &[], Returned(Some(Int(3)))),
        // lload_0, lstore_2, lload_2, dup2, ladd, lreturn
        (
            b"\x1e\x41\x20\x5c\x61\xad",
            &[Long(0x4000_0000_0000_0000)],
            &[],
            Returned(Some(Long(i64::MIN))),
        ),
        // iload_2, lload_0, dup2_x1, pop2, ireturn: an argument behind a long is in slot 2
        (
            b"\x1c\x1e\x5d\x58\xac",
            &[Long(9), Int(4)],
            &[],
            Returned(Some(Int(4))),
        ),
        // dload_0, dload_0, pop2, dreturn
        (b"\x26\x26\x58\xaf", &[Dbl(7)], &[], Returned(Some(Dbl(7)))),
        // iload_0, i2b, ireturn
        (
            b"\x1a\x91\xac",
            &[Int(0x181)],
            &[],
            Returned(Some(Int(-127))),
        ),
        // iconst_3, newarray int, arraylength, ireturn
        (b"\x06\xbc\x0a\xbe\xac", &[], &[], Returned(Some(Int(3)))),
        // iconst_1, newarray byte, astore_0, aload_0, iconst_0, sipush 385, bastore, aload_0,
        // iconst_0, baload, ireturn: an element of a byte array is cut to eight bits
        (
            b"\x04\xbc\x08\x4b\x2a\x03\x11\x01\x81\x54\x2a\x03\x33\xac",
            &[],
            &[],
            Returned(Some(Int(-127))),
        ),
        // aload_0, arraylength, ireturn: an array that is given has no elements
        (b"\x2a\xbe\xac", &[Obj(0)], &[], Returned(Some(Int(0)))),
        // aload_0, getfield A.x, ireturn
        (
            b"\x2a\xb4\x00\x0a\xac",
            &[Obj(0)],
            &[],
            Returned(Some(Int(0))),
        ),
        // ldc the string, areturn; aload_0, areturn
        (b"\x12\x12\xb0", &[], &[], Returned(Some(Const(18)))),
        (b"\x2a\xb0", &[Const(18)], &[], Returned(Some(Const(18)))),
        // aload_0, ldc the string, if_acmpne to iconst_0: equal contents are one reference
        (
            b"\x2a\x12\x12\xa6\x00\x05\x04\xac\x03\xac",
            &[Const(18)],
            &[],
            Returned(Some(Int(1))),
        ),
        // invokestatic A.f, ireturn: a value, another kind, a throw, and no answer
        (
            CALL,
            &[],
            &[Value(Int(i32::MAX))],
            Returned(Some(Int(i32::MAX))),
        ),
        (CALL, &[], &[Value(Null)], Returned(Some(Int(0)))),
        (CALL, &[], &[Throw(Obj(0))], Threw(Obj(0))),
        (CALL, &[], &[Throw(Null)], Threw(Obj(1))),
        (CALL, &[], &[], GoesOn),
    ];
    for (code, args, answers, outcome) in rows {
        let end = over(&rt, b"[I", code, &[], args, answers)?;
        assert_eq!(rt; end.outcome, outcome);
    }
    Ok(())
}

/// `iload_0`, a lookupswitch of -1 and 5, and three ends that return 1, 2 and 3.
const LOOKUP: &[u8] = b"\x1a\xab\0\0\0\0\0\x1f\0\0\0\x02\xff\xff\xff\xff\0\0\0\x1b\
      \0\0\0\x05\0\0\0\x1d\x04\xac\x05\xac\x06\xac";

/// `iload_0`, a tableswitch of -1 to 0, and three ends that return 1, 2 and 3.
const TABLE: &[u8] = b"\x1a\xaa\0\0\0\0\0\x1b\xff\xff\xff\xff\0\0\0\0\
      \0\0\0\x17\0\0\0\x19\x04\xac\x05\xac\x06\xac";

/// `invokestatic A.f()I`, `ireturn`.
const CALL: &[u8] = b"\xb8\x00\x06\xac";

#[test]
fn events_are_seen(rt: HostRuntime) -> Result<(), Fail> {
    // iload_0, lload_1, iload_3, invokestatic A.g, lreturn
    let code = b"\x1a\x1f\x1d\xb8\x00\x0e\xad";
    let args = [Int(1), Long(5), Int(2)];
    let end = over(&rt, b"A", code, &[], &args, &[Value(Long(9))])?;
    assert!(rt; has_events(&end, &[(184, Some(b"A.g(IJI)J"), &args)]));
    assert_eq!(rt; end.outcome, Returned(Some(Long(9))));
    // aload_0, monitorenter, aload_0, invokevirtual A.f, aload_0, monitorexit, ireturn
    let code = b"\x2a\xc2\x2a\xb6\x00\x06\x2a\xc3\xac";
    let end = over(&rt, b"A", code, &[], &[Obj(0)], &[Value(Int(6))])?;
    let target = [Obj(0)];
    let seen: [Seen<'_>; 3] = [
        (194, None, &target),
        (182, Some(b"A.f()I"), &target),
        (195, None, &target),
    ];
    assert!(rt; has_events(&end, &seen));
    assert_eq!(rt; end.outcome, Returned(Some(Int(6))));
    // fload_0, fload_1, fadd, freturn: 1 and 2 are 3, and a throw counts as 0
    let floats = [Flt(0x3f80_0000), Flt(0x4000_0000)];
    for (answer, sum) in [(Value(Flt(0x4040_0000)), 0x4040_0000), (Throw(Obj(0)), 0)] {
        let end = over(&rt, b"A", b"\x22\x23\x62\xae", &[], &floats, &[answer])?;
        assert!(rt; has_events(&end, &[(98, None, &floats)]));
        assert_eq!(rt; end.outcome, Returned(Some(Flt(sum))));
    }
    // invokedynamic f()I, ireturn, without an answer
    let end = over(&rt, b"A", b"\xba\x00\x17\0\0\xac", &[], &[], &[])?;
    assert!(rt; has_events(&end, &[(186, Some(b"f()I"), &[])]));
    assert_eq!(rt; end.outcome, GoesOn);
    Ok(())
}

#[test]
fn exceptions_are_objects(rt: HostRuntime) -> Result<(), Fail> {
    let rows: [(&[u8], ProbeValue, &[u8]); 5] = [
        // aload_0, getfield A.x, ireturn
        (
            b"\x2a\xb4\x00\x0a\xac",
            Null,
            b"java/lang/NullPointerException",
        ),
        // aload_0, iconst_0, iaload, ireturn
        (
            b"\x2a\x03\x2e\xac",
            Obj(0),
            b"java/lang/ArrayIndexOutOfBoundsException",
        ),
        // iconst_m1, newarray int, areturn
        (
            b"\x02\xbc\x0a\xb0",
            Null,
            b"java/lang/NegativeArraySizeException",
        ),
        // iconst_1, iconst_0, idiv, ireturn
        (b"\x04\x03\x6c\xac", Null, b"java/lang/ArithmeticException"),
        // aload_0, checkcast A, areturn
        (
            b"\x2a\xc0\x00\x02\xb0",
            Obj(0),
            b"java/lang/ClassCastException",
        ),
    ];
    for (code, argument, class) in rows {
        let end = over(&rt, b"[I", code, &[], &[argument], &[])?;
        assert_eq!(rt; end.outcome, Threw(Obj(1)));
        assert!(rt; has_new(&end, &[class]));
        assert!(rt; end.events.is_empty());
    }
    Ok(())
}

#[test]
fn handlers_catch(rt: HostRuntime) -> Result<(), Fail> {
    // invokestatic A.h, iconst_0, ireturn, pop, iconst_1, ireturn
    let code = b"\xb8\x00\x16\x03\xac\x57\x04\xac";
    let caught = |catch_const| RawHandler {
        start: 0,
        end: 3,
        target: 5,
        catch_const,
    };
    let rows: [(&[u8], u16, ProbeAnswer, ProbeOutcome); 4] = [
        (
            b"java/lang/RuntimeException",
            16,
            Throw(Obj(0)),
            Returned(Some(Int(1))),
        ),
        (b"A", 16, Throw(Obj(0)), Threw(Obj(0))),
        (b"A", 0, Throw(Obj(0)), Returned(Some(Int(1)))),
        (b"A", 16, Value(Int(7)), Returned(Some(Int(0)))),
    ];
    for (class, catch_const, answer, outcome) in rows {
        let end = over(&rt, class, code, &[caught(catch_const)], &[], &[answer])?;
        assert!(rt; has_events(&end, &[(184, Some(b"A.h()V"), &[])]));
        assert_eq!(rt; end.outcome, outcome);
    }
    Ok(())
}

/// Whether `A.x` is the one static field, with this value.
fn has_static(end: &ProbeEnd, value: i32) -> bool {
    match end.heap.statics.as_slice() {
        [one] => {
            one.class_name.bytes() == b"A".as_slice()
                && one.field.bytes() == b"x".as_slice()
                && one.descriptor.bytes() == b"I".as_slice()
                && one.value == Int(value)
        }
        _ => false,
    }
}

#[test]
fn fields_are_kept(rt: HostRuntime) -> Result<(), Fail> {
    // getstatic A.x, ireturn: the last of the values that are given
    let given = heap(&rt, &[], &[5, 6])?;
    let end = probed(&rt, b"\xb2\x00\x0a\xac", &[], &[], &given, &[], 2)?;
    assert_eq!(rt; end.outcome, Returned(Some(Int(6))));
    assert!(rt; has_static(&end, 6));
    // invokestatic A.f, putstatic A.x, invokestatic A.f, pop, getstatic A.x, ireturn: the second
    // answer leaves what was written before it
    let code = b"\xb8\x00\x06\xb3\x00\x0a\xb8\x00\x06\x57\xb2\x00\x0a\xac";
    let answers = [Value(Int(4)), Value(Int(8))];
    for values in [[].as_slice(), &[1, 2]] {
        let given = heap(&rt, &[], values)?;
        let end = probed(&rt, code, &[], &[], &given, &answers, 6)?;
        assert_eq!(rt; end.outcome, Returned(Some(Int(4))));
        assert!(rt; has_static(&end, 4));
    }
    // new A, astore_0, aload_0, bipush 7, putfield A.x, aload_0, getfield A.x, ireturn
    let code = b"\xbb\x00\x02\x4b\x2a\x10\x07\xb5\x00\x0a\x2a\xb4\x00\x0a\xac";
    let end = over(&rt, b"A", code, &[], &[], &[])?;
    assert_eq!(rt; end.outcome, Returned(Some(Int(7))));
    assert!(rt; has_new(&end, &[b"A"]));
    Ok(())
}

#[test]
fn the_limit_counts_instructions(rt: HostRuntime) -> Result<(), Fail> {
    let empty = heap(&rt, &[], &[])?;
    // iinc 0 by -1, iload_0, ifgt to the first, return: three times three and one
    let code = b"\x84\x00\xff\x1a\x9d\xff\xfc\xb1";
    for (limit, outcome) in [(9, GoesOn), (10, Returned(None)), (11, Returned(None))] {
        let end = probed(&rt, code, &[], &[Int(3)], &empty, &[], limit)?;
        assert_eq!(rt; end.outcome, outcome);
    }
    Ok(())
}

/// So many nops between a beginning and an end.
fn nops_between(rt: &HostRuntime, begin: &[u8], count: usize, end: &[u8]) -> Result<Vec<u8>, Fail> {
    let mut code = Vec::from_slice(rt.alloc(), begin)?;
    for _ in 0..count {
        code.push(0)?;
    }
    code.extend_from_slice(end)?;
    Ok(code)
}

#[test]
fn long_methods_run(rt: HostRuntime) -> Result<(), Fail> {
    let empty = heap(&rt, &[], &[])?;
    // goto over 32,764 nops, return
    let far = nops_between(&rt, b"\xa7\x7f\xff", 32764, b"\xb1")?;
    let end = probed(&rt, &far, &[], &[], &empty, &[], 2)?;
    assert_eq!(rt; end.outcome, Returned(None));
    // iload 255 and wide iload 256, ireturn: the arguments are their own indexes
    let mut args = Vec::new(rt.alloc());
    for number in 0..257 {
        args.push(Int(number))?;
    }
    for (code, slot) in [
        (b"\x15\xff\xac".as_slice(), 255),
        (b"\xc4\x15\x01\x00\xac", 256),
    ] {
        let end = probed(&rt, code, &[], &args, &empty, &[], 2)?;
        assert_eq!(rt; end.outcome, Returned(Some(Int(slot))));
    }
    Ok(())
}

#[test]
fn code_without_a_program_does_nothing(rt: HostRuntime) -> Result<(), Fail> {
    let consts = pool(&rt)?;
    let empty = heap(&rt, &[], &[])?;
    // The second constant is a class, and the tenth is a field, which no ldc loads.
    for (index, outcome) in [(2, Returned(Some(Const(2)))), (10, GoesOn)] {
        let mut program = Program {
            instrs: Items::new(rt.alloc()),
            handlers: Items::new(rt.alloc()),
        };
        program.instrs.push(Instr::Ldc(index))?;
        program.instrs.push(Instr::Simple(op::ARETURN))?;
        let end = probe(rt.alloc(), &program, &consts, 49, &[], &empty, &[], 100)?;
        assert_eq!(rt; end.outcome, outcome);
    }
    Ok(())
}
