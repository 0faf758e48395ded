use je_base::Run;
use je_consts::Consts;
use je_instr::{
    Assembled, Case, CodeFault, Decoded, Handler, Instr, RawHandler, SizeFault, assemble, decode,
    decoded_again, opcodes as op,
};
use std::test::*;

/// A pool without entries.
const EMPTY: &[u8] = b"\x00\x01";

/// A pool of which the fourth entry is the class `A` and the sixth its method `g()V`.
const CALLED: &[u8] = b"\x00\x07\x01\x00\x01A\x01\x00\x01g\x01\x00\x03()V\
      \x07\x00\x01\x0c\x00\x02\x00\x03\x0a\x00\x04\x00\x05";

/// The same with the constructor `A.<init>()V`.
const CONSTRUCTED: &[u8] = b"\x00\x07\x01\x00\x01A\x01\x00\x06<init>\x01\x00\x03()V\
      \x07\x00\x01\x0c\x00\x02\x00\x03\x0a\x00\x04\x00\x05";

fn pool(rt: &HostRuntime, bytes: &[u8]) -> Result<Consts, Fail> {
    let bytes = Run::of_vec(rt.alloc(), Vec::from_slice(rt.alloc(), bytes)?)?;
    match Consts::read(rt.alloc(), &bytes, 0) {
        Ok((consts, _)) => Ok(consts),
        Err(_) => Err("no pool".into()),
    }
}

fn program(
    rt: &HostRuntime,
    consts: &[u8],
    code: &[u8],
    table: &[RawHandler],
) -> Result<Decoded, Fail> {
    let consts = pool(rt, consts)?;
    match decode(rt.alloc(), code, table, &consts) {
        Ok(decoded) => Ok(decoded),
        Err(fault) => Err(format!(in rt.alloc(); "{fault:?}")?.into()),
    }
}

fn fault(
    rt: &HostRuntime,
    consts: &[u8],
    code: &[u8],
    table: &[RawHandler],
) -> Result<CodeFault, Fail> {
    let consts = pool(rt, consts)?;
    match decode(rt.alloc(), code, table, &consts) {
        Ok(_) => Err("no fault".into()),
        Err(fault) => Ok(fault),
    }
}

#[test]
fn faults_of_instructions(rt: HostRuntime) -> Result<(), Fail> {
    let rows: [(&[u8], CodeFault); 16] = [
        (&[0xff], CodeFault::BadOpcode(0)),
        (&[0, 0xca], CodeFault::BadOpcode(1)),
        (&[0xa8], CodeFault::CutShort(0)),
        (&[0xa8, 0, 0], CodeFault::Jsr(0)),
        (&[0, 0xa9, 0], CodeFault::Jsr(1)),
        (&[0xa9], CodeFault::CutShort(0)),
        (&[0xc9, 0, 0, 0], CodeFault::CutShort(0)),
        (&[0xc9, 0, 0, 0, 0], CodeFault::Jsr(0)),
        (&[0xc4], CodeFault::CutShort(0)),
        (&[0xc4, 0xa9], CodeFault::Jsr(0)),
        (&[0xc4, 0], CodeFault::BadOperand(0)),
        (&[0xc4, 0x15, 1], CodeFault::CutShort(0)),
        (&[0xc4, 0x84, 0, 1, 0], CodeFault::CutShort(0)),
        (&[0xbc, 3], CodeFault::BadOperand(0)),
        (&[0xbc, 12], CodeFault::BadOperand(0)),
        (&[0x12, 5], CodeFault::BadOperand(0)),
    ];
    for (code, expected) in rows {
        assert_eq!(rt; fault(&rt, EMPTY, code, &[])?, expected);
    }
    Ok(())
}

#[test]
fn faults_of_targets(rt: HostRuntime) -> Result<(), Fail> {
    let rows: [(&[u8], CodeFault); 6] = [
        // Into itself, before the code, and behind it.
        (&[0xa7, 0, 1], CodeFault::BadTarget(0)),
        (&[0, 0xa7, 0xff, 0xfe], CodeFault::BadTarget(1)),
        (&[0xa7, 0, 3], CodeFault::BadTarget(0)),
        (&[0xc8, 0xff, 0xff, 0xff, 0xff], CodeFault::BadTarget(0)),
        // Into the middle of bipush.
        (&[3, 0x99, 0, 4, 0x10, 5, 0xb1], CodeFault::BadTarget(1)),
        // The bytes are read to their end first.
        (&[0xa7, 0, 1, 0xff], CodeFault::BadOpcode(3)),
    ];
    for (code, expected) in rows {
        assert_eq!(rt; fault(&rt, EMPTY, code, &[])?, expected);
    }
    let decoded = program(&rt, EMPTY, &[3, 0x99, 0, 3, 0x10, 5, 0xa7, 0xff, 0xfb], &[])?;
    assert!(rt;
        matches!(
            decoded.program.instrs.as_slice(),
            [
                Instr::IntPush(0),
                Instr::Branch(op::IFEQ, 2),
                Instr::IntPush(5),
                Instr::Goto(1)
            ]
        )
    );
    Ok(())
}

#[test]
fn slots(rt: HostRuntime) -> Result<(), Fail> {
    let decoded = program(&rt, EMPTY, &[0x1a, 0x15, 0, 0xc4, 0x15, 0, 0], &[])?;
    assert_eq!(rt; decoded.offsets.as_slice(), [0, 1, 3, 7].as_slice());
    for instr in decoded.program.instrs.as_slice() {
        assert!(rt; matches!(instr, Instr::Local(op::ILOAD, 0)));
    }
    let decoded = program(&rt, EMPTY, &[0xc4, 0x15, 1, 0, 0x4e], &[])?;
    assert!(rt;
        matches!(
            decoded.program.instrs.as_slice(),
            [Instr::Local(op::ILOAD, 256), Instr::Local(op::ASTORE, 3)]
        )
    );
    Ok(())
}

#[test]
fn signs(rt: HostRuntime) -> Result<(), Fail> {
    let decoded = program(&rt, EMPTY, &[2, 0x10, 0xff, 0x11, 0xff, 0xff], &[])?;
    assert_eq!(rt; decoded.offsets.as_slice(), [0, 1, 3, 6].as_slice());
    for instr in decoded.program.instrs.as_slice() {
        assert!(rt; matches!(instr, Instr::IntPush(-1)));
    }
    let code = [0x84, 7, 0xfe, 0xc4, 0x84, 1, 0, 0xff, 0];
    let decoded = program(&rt, EMPTY, &code, &[])?;
    assert!(rt;
        matches!(
            decoded.program.instrs.as_slice(),
            [Instr::Iinc(7, -2), Instr::Iinc(256, -256)]
        )
    );
    Ok(())
}

/// A tableswitch behind so many nops, of one key, which leads to the return behind it.
fn table_switch(rt: &HostRuntime, nops: usize) -> Result<Vec<u8>, Fail> {
    let mut code = vec![in rt.alloc(); 0; nops]?;
    code.push(0xaa)?;
    let padding = 3 - nops % 4;
    for _ in 0..padding {
        code.push(0xee)?;
    }
    let end = padding as u8 + 17;
    code.extend_from_slice(&[0, 0, 0, end, 0xff, 0xff, 0xff, 0xfe])?;
    code.extend_from_slice(&[0xff, 0xff, 0xff, 0xfe, 0, 0, 0, end, 0xb1])?;
    Ok(code)
}

#[test]
fn alignment(rt: HostRuntime) -> Result<(), Fail> {
    for nops in 0..5 {
        let code = table_switch(&rt, nops)?;
        let decoded = program(&rt, EMPTY, &code, &[])?;
        assert_eq!(rt; decoded.program.instrs.len(), nops + 2);
        let Some(Instr::TableSwitch(low, targets, fallback)) = decoded.program.instrs.get(nops)
        else {
            return Err("no switch".into());
        };
        assert_eq!(rt; *low, -2);
        assert_eq!(rt; targets.as_slice(), [nops as u32 + 1].as_slice());
        assert_eq!(rt; *fallback, nops as u32 + 1);
    }
    Ok(())
}

#[test]
fn faults_of_switches(rt: HostRuntime) -> Result<(), Fail> {
    let rows: [(&[u8], CodeFault); 7] = [
        (
            &[0xaa, 0, 0, 0, 0, 0, 0, 0, 0, 0, 0, 0, 0, 0, 0],
            CodeFault::CutShort(0),
        ),
        // The bounds are tested before the targets are.
        (
            &[0xaa, 0, 0, 0, 0, 0, 0, 0, 0, 0, 0, 1, 0, 0, 0, 0],
            CodeFault::BadOperand(0),
        ),
        (
            &[0xaa, 0, 0, 0, 0, 0, 0, 0, 0, 0, 0, 0, 0, 0, 0, 0],
            CodeFault::CutShort(0),
        ),
        (
            &[
                0xaa, 0, 0, 0, 0, 0, 0, 0, 0x80, 0, 0, 0, 0x7f, 0xff, 0xff, 0xff,
            ],
            CodeFault::CutShort(0),
        ),
        (
            &[0xab, 0, 0, 0, 0, 0, 0, 0, 0x80, 0, 0, 0],
            CodeFault::BadOperand(0),
        ),
        (
            &[0xab, 0, 0, 0, 0, 0, 0, 0, 0, 0, 0, 1, 0],
            CodeFault::CutShort(0),
        ),
        // Two equal keys.
        (
            &[
                0xab, 0, 0, 0, 0, 0, 0, 0, 0, 0, 0, 2, 0, 0, 0, 5, 0, 0, 0, 0, 0, 0, 0, 5, 0, 0, 0,
                0,
            ],
            CodeFault::BadOperand(0),
        ),
    ];
    for (code, expected) in rows {
        assert_eq!(rt; fault(&rt, EMPTY, code, &[])?, expected);
    }
    Ok(())
}

#[test]
fn lookup_switch(rt: HostRuntime) -> Result<(), Fail> {
    let code = [
        0xab, 9, 9, 9, 0, 0, 0, 0, 0, 0, 0, 2, 0xff, 0xff, 0xff, 0xff, 0, 0, 0, 0, 0, 0, 0, 5, 0,
        0, 0, 28, 0xb1,
    ];
    let decoded = program(&rt, EMPTY, &code, &[])?;
    let Some(Instr::LookupSwitch(cases, fallback)) = decoded.program.instrs.get(0) else {
        return Err("no switch".into());
    };
    let expected = [Case { key: -1, target: 0 }, Case { key: 5, target: 1 }];
    assert_eq!(rt; cases.as_slice(), expected.as_slice());
    assert_eq!(rt; *fallback, 0);
    Ok(())
}

const fn entry(start: u16, end: u16, target: u16, catch_const: u16) -> RawHandler {
    RawHandler {
        start,
        end,
        target,
        catch_const,
    }
}

#[test]
fn exception_table(rt: HostRuntime) -> Result<(), Fail> {
    // bipush 5, nop, return.
    let code = [0x10, 5, 0, 0xb1];
    let table = [entry(0, 4, 2, 0), entry(2, 3, 0, 4)];
    let decoded = program(&rt, CALLED, &code, &table)?;
    let handlers = [
        Handler {
            start: 0,
            end: 3,
            target: 1,
            catch_const: 0,
        },
        Handler {
            start: 1,
            end: 2,
            target: 0,
            catch_const: 4,
        },
    ];
    assert_eq!(rt; decoded.program.handlers.as_slice(), handlers.as_slice());
    let rows = [
        entry(2, 2, 0, 0),
        entry(3, 2, 0, 0),
        entry(1, 3, 0, 0),
        entry(0, 1, 0, 0),
        entry(0, 5, 0, 0),
        entry(0, 2, 1, 0),
        entry(0, 2, 4, 0),
        entry(0, 2, 0, 6),
    ];
    for row in rows {
        let table = [entry(0, 4, 2, 0), row, entry(9, 9, 9, 9)];
        assert_eq!(rt; fault(&rt, CALLED, &code, &table)?, CodeFault::BadRange(1));
    }
    Ok(())
}

#[test]
fn constants(rt: HostRuntime) -> Result<(), Fail> {
    let decoded = program(&rt, CALLED, &[0xb8, 0, 6, 0xb1], &[])?;
    assert!(rt;
        matches!(
            decoded.program.instrs.as_slice(),
            [
                Instr::Invoke(op::INVOKESTATIC, 6),
                Instr::Simple(op::RETURN)
            ]
        )
    );
    assert_eq!(rt; decoded.offsets.as_slice(), [0, 3, 4].as_slice());
    // A class and what may be made of it.
    let code = [0xbb, 0, 4, 0xbd, 0, 4, 0xc0, 0, 4, 0xc1, 0, 4, 0x12, 4];
    assert_eq!(rt; program(&rt, CALLED, &code, &[])?.program.instrs.len(), 5);
    let rows: [&[u8]; 6] = [
        &[0xbb, 0, 6],
        &[0xb2, 0, 6],
        &[0xb9, 0, 6, 1, 0],
        &[0xba, 0, 6, 0, 0],
        &[0xc5, 0, 4, 1],
        &[0x14, 0, 4],
    ];
    for code in rows {
        assert_eq!(rt; fault(&rt, CALLED, code, &[])?, CodeFault::BadOperand(0));
    }
    // A constructor is called by invokespecial alone.
    assert_eq!(rt;
        program(&rt, CONSTRUCTED, &[0xb7, 0, 6], &[])?
            .program
            .instrs
            .len(),
        1
    );
    for opcode in [0xb6, 0xb8] {
        assert_eq!(rt;
            fault(&rt, CONSTRUCTED, &[opcode, 0, 6], &[])?,
            CodeFault::BadOperand(0)
        );
    }
    Ok(())
}

#[test]
fn sizes(rt: HostRuntime) -> Result<(), Fail> {
    let consts = pool(&rt, EMPTY)?;
    let rows: [(u8, u8, u8); 25] = [
        (0, 15, 1),
        (16, 16, 2),
        (17, 17, 3),
        (18, 18, 2),
        (19, 20, 3),
        (21, 25, 2),
        (26, 53, 1),
        (54, 58, 2),
        (59, 131, 1),
        (132, 132, 3),
        (133, 152, 1),
        (153, 168, 3),
        (169, 169, 2),
        (172, 177, 1),
        (178, 184, 3),
        (185, 186, 5),
        (187, 187, 3),
        (188, 188, 2),
        (189, 189, 3),
        (190, 191, 1),
        (192, 193, 3),
        (194, 195, 1),
        (197, 197, 4),
        (198, 199, 3),
        (200, 201, 5),
    ];
    for (first, last, size) in rows {
        for opcode in first..=last {
            let mut code = vec![in rt.alloc(); opcode]?;
            for _ in 1..size {
                let cut = decode(rt.alloc(), &code, &[], &consts);
                assert!(rt; matches!(cut, Err(CodeFault::CutShort(0))), "of {opcode}");
                code.push(0)?;
            }
            let whole = decode(rt.alloc(), &code, &[], &consts);
            assert!(rt;
                !matches!(whole, Err(CodeFault::CutShort(_))),
                "of {opcode}"
            );
        }
    }
    Ok(())
}

/// What code is assembled to, once it is decoded.
fn again(rt: &HostRuntime, code: &[u8]) -> Result<Result<Assembled, SizeFault>, Fail> {
    let consts = pool(rt, EMPTY)?;
    let Ok(decoded) = decode(rt.alloc(), code, &[], &consts) else {
        return Err("no program".into());
    };
    decoded_again();
    Ok(assemble(rt.alloc(), &decoded.program))
}

fn bytes_again(rt: &HostRuntime, code: &[u8]) -> Result<Assembled, Fail> {
    match again(rt, code)? {
        Ok(assembled) => Ok(assembled),
        Err(_) => Err("it has a size".into()),
    }
}

/// So many nops between two pieces of code.
fn nops_between(
    rt: &HostRuntime,
    front: &[u8],
    count: usize,
    behind: &[u8],
) -> Result<Vec<u8>, Fail> {
    let mut code = Vec::new(rt.alloc());
    code.extend_from_slice(front)?;
    for _ in 0..count {
        code.push(0)?;
    }
    code.extend_from_slice(behind)?;
    Ok(code)
}

#[test]
fn shortest_forms(rt: HostRuntime) -> Result<(), Fail> {
    let rows: [(&[u8], &[u8]); 10] = [
        (&[0xc4, 0x15, 0x00, 0xff], &[0x15, 0xff]),
        (&[0xc4, 0x15, 0x01, 0x00], &[0xc4, 0x15, 0x01, 0x00]),
        (&[0x15, 0x03], &[0x1d]),
        (&[0xc4, 0x3a, 0x00, 0x00], &[0x4b]),
        (&[0x11, 0xff, 0xff], &[0x02]),
        (&[0x11, 0x00, 0x06], &[0x10, 0x06]),
        (&[0x11, 0xff, 0x80], &[0x10, 0x80]),
        (&[0x11, 0x00, 0x80], &[0x11, 0x00, 0x80]),
        (&[0xc4, 0x84, 0x00, 0xff, 0x00, 0x7f], &[0x84, 0xff, 0x7f]),
        (
            &[0xc4, 0x84, 0x00, 0x01, 0x00, 0x80],
            &[0xc4, 0x84, 0x00, 0x01, 0x00, 0x80],
        ),
    ];
    for (long, short) in rows {
        let assembled = bytes_again(&rt, long)?;
        assert_eq!(rt; assembled.code.as_slice(), short);
    }
    Ok(())
}

#[test]
fn switch_behind_nops(rt: HostRuntime) -> Result<(), Fail> {
    let switches: [(&[u8], &[u8], u32); 4] = [
        (
            &[
                0xaa, 9, 9, 0, 0, 0, 19, 0, 0, 0, 0, 0, 0, 0, 0, 0, 0, 0, 19, 0xb1,
            ],
            &[
                0xaa, 0, 0, 0, 0, 0, 19, 0, 0, 0, 0, 0, 0, 0, 0, 0, 0, 0, 19, 0xb1,
            ],
            21,
        ),
        (
            &[
                0xaa, 9, 0, 0, 0, 18, 0, 0, 0, 0, 0, 0, 0, 0, 0, 0, 0, 18, 0xb1,
            ],
            &[
                0xaa, 0, 0, 0, 0, 18, 0, 0, 0, 0, 0, 0, 0, 0, 0, 0, 0, 18, 0xb1,
            ],
            21,
        ),
        (
            &[0xaa, 0, 0, 0, 17, 0, 0, 0, 0, 0, 0, 0, 0, 0, 0, 0, 17, 0xb1],
            &[0xaa, 0, 0, 0, 17, 0, 0, 0, 0, 0, 0, 0, 0, 0, 0, 0, 17, 0xb1],
            21,
        ),
        (
            &[
                0xaa, 9, 9, 9, 0, 0, 0, 20, 0, 0, 0, 0, 0, 0, 0, 0, 0, 0, 0, 20, 0xb1,
            ],
            &[
                0xaa, 0, 0, 0, 0, 0, 0, 20, 0, 0, 0, 0, 0, 0, 0, 0, 0, 0, 0, 20, 0xb1,
            ],
            25,
        ),
    ];
    for (count, (read, written, size)) in switches.iter().enumerate() {
        let code = nops_between(&rt, &[0x03], count, read)?;
        let assembled = bytes_again(&rt, &code)?;
        let expected = nops_between(&rt, &[0x03], count, written)?;
        assert_eq!(rt; assembled.code.as_slice(), expected.as_slice());
        assert_eq!(rt; assembled.offsets.as_slice().last(), Some(size));
    }
    Ok(())
}

#[test]
fn too_long_and_too_far(rt: HostRuntime) -> Result<(), Fail> {
    let longest = nops_between(&rt, &[], 65534, &[0xb1])?;
    let assembled = bytes_again(&rt, &longest)?;
    assert_eq!(rt; assembled.code.len(), 65535);
    let longer = nops_between(&rt, &[], 65535, &[0xb1])?;
    assert!(rt; matches!(again(&rt, &longer)?, Err(SizeFault::CodeTooLong(65536))));
    // A goto_w over 32,764 nops, and over one more.
    let near = nops_between(&rt, &[0xc8, 0, 0, 0x80, 0x01], 32764, &[0xb1])?;
    let assembled = bytes_again(&rt, &near)?;
    assert_eq!(rt; assembled.code.len(), 32768);
    assert!(rt; assembled.code.as_slice().starts_with(&[0xa7, 0x7f, 0xff]));
    let far = nops_between(&rt, &[0xc8, 0, 0, 0x80, 0x02], 32765, &[0xb1])?;
    assert!(rt; matches!(again(&rt, &far)?, Err(SizeFault::JumpTooFar(0))));
    Ok(())
}
