ghost use Rattle.std.specs.Prelude.{◌≡◌, IfOk};

use je_base::{Run, Text};
use je_consts::{Const, ConstFault, Consts, MemberTag, PoolStop};
use samples::CLASS_A;
use std::test::*;

/// A pool with an entry of each tag.
const TAGS: [u8; 82] = [
    0x00, 0x11, 0x01, 0x00, 0x01, 0x61, 0x03, 0xff, 0xff, 0xff, 0xfe, 0x04, 0x3f, 0x80, 0x00, 0x00,
    0x05, 0xff, 0xff, 0xff, 0xff, 0xff, 0xff, 0xff, 0xfd, 0x06, 0x3f, 0xf0, 0x00, 0x00, 0x00, 0x00,
    0x00, 0x00, 0x07, 0x00, 0x01, 0x08, 0x00, 0x01, 0x0c, 0x00, 0x01, 0x00, 0x01, 0x09, 0x00, 0x08,
    0x00, 0x0a, 0x0a, 0x00, 0x08, 0x00, 0x0a, 0x0b, 0x00, 0x08, 0x00, 0x0a, 0x0f, 0x01, 0x00, 0x0b,
    0x10, 0x00, 0x01, 0x12, 0x00, 0x07, 0x00, 0x0a, 0x00, 0x00, 0x00, 0x00, 0x00, 0x00, 0x00, 0x00,
    0x00, 0x00,
];

fn run_of(rt: &HostRuntime, bytes: &[u8]) -> Result<Run, Fail>
    ensures { IfOk result (λ run. run ≡ bytes.now) }
{
    let copy = Vec::from_slice(rt.alloc(), bytes)?;
    Ok(Run::of_vec(rt.alloc(), copy)?)
}

fn class_pool(rt: &HostRuntime) -> Result<Consts, Fail> {
    match Consts::read(rt.alloc(), &run_of(rt, &CLASS_A)?, 8) {
        Ok((consts, 70)) => Ok(consts),
        Ok(_) => Err("another end".into()),
        Err(_) => Err("no pool".into()),
    }
}

fn text(rt: &HostRuntime, bytes: &[u8]) -> Result<Text, Fail>
    ensures { IfOk result (λ t. t ≡ bytes.now) }
{
    match Text::from_bytes(rt.alloc(), bytes) {
        Ok(Some(text)) => Ok(text),
        _ => Err("no text".into()),
    }
}

#[test]
fn read_copied_and_written(rt: HostRuntime) -> Result<(), Fail> {
    let consts = class_pool(&rt)?;
    assert_eq!(rt; consts.count(), 11);
    assert!(rt; matches!(consts.text(1), Some(text) if text.bytes() == b"A".as_slice()));
    assert!(rt; matches!(consts.class_name(2), Some(name) if name.bytes() == b"A".as_slice()));
    assert!(rt; consts.text(2).is_none() && consts.class_name(1).is_none());
    let copy = consts.copy()?;
    let written = copy.write()?;
    assert_eq!(rt; written.as_slice(), &CLASS_A[8..70]);
    Ok(())
}

#[test]
fn each_tag(rt: HostRuntime) -> Result<(), Fail> {
    let consts = match Consts::read(rt.alloc(), &run_of(&rt, &TAGS)?, 0) {
        Ok((consts, 72)) => consts,
        _ => return Err("no pool".into()),
    };
    assert!(rt; matches!(consts.get(2), Some(Const::Integer(-2))));
    assert!(rt; matches!(consts.get(3), Some(Const::Float(0x3f80_0000))));
    assert!(rt; matches!(consts.get(4), Some(Const::Long(-3))));
    assert!(rt; matches!(consts.get(14), Some(Const::MethodHandle(1, 11))));
    assert!(rt; matches!(consts.get(16), Some(Const::InvokeDynamic(7, 10))));
    for index in [0, 5, 7, 17] {
        assert!(rt; consts.get(index).is_none(), "at {index}");
    }
    let written = consts.write()?;
    assert_eq!(rt; written.as_slice(), &TAGS[..72]);
    Ok(())
}

#[test]
fn faults(rt: HostRuntime) -> Result<(), Fail> {
    let table: [(&[u8], usize, ConstFault); 18] = [
        (b"\x09\x09\x00", 2, ConstFault::Truncated(2)),
        (b"\x00\x00", 0, ConstFault::BadConst(0)),
        (b"\x00\x02", 0, ConstFault::Truncated(2)),
        (b"\x00\x02\x07\x00", 0, ConstFault::Truncated(3)),
        (b"\x00\x02\x09\x00\x01\x00", 0, ConstFault::Truncated(5)),
        (b"\x00\x02\x01\x00\x03a", 0, ConstFault::Truncated(5)),
        (b"\x00\x03\x05\x00\x00", 0, ConstFault::Truncated(3)),
        (b"\x00\x02\x0f", 0, ConstFault::Truncated(3)),
        (b"\x00\x02\x0f\x09\x00", 0, ConstFault::Truncated(4)),
        (b"\x00\x02\x02", 0, ConstFault::BadConst(1)),
        (b"\x00\x02\x01\x00\x01\x00", 0, ConstFault::BadConst(1)),
        (b"\x00\x02\x0f\x00", 0, ConstFault::BadConst(1)),
        (b"\x00\x02\x0f\x0a", 0, ConstFault::BadConst(1)),
        (b"\x00\x02\x05\0\0\0\0\0\0\0\0", 0, ConstFault::BadConst(1)),
        (
            b"\x00\x03\x03\0\0\0\0\x07\x00\x01",
            0,
            ConstFault::BadConst(2),
        ),
        (
            b"\x00\x03\x07\x00\x02\x07\x00\x01",
            0,
            ConstFault::BadConst(1),
        ),
        (b"\x00\x03\x07\x00\x01\x02", 0, ConstFault::BadConst(2)),
        (b"\x00\x02\x12\x00\x00\x00\x05", 0, ConstFault::BadConst(1)),
    ];
    for (bytes, at, fault) in table {
        let run = run_of(&rt, bytes)?;
        if at <= run.len() {
            let read = Consts::read(rt.alloc(), &run, at);
            assert!(rt;
                matches!(&read, Err(found) if *found == fault),
                "at {bytes:?}"
            );
        }
    }
    Ok(())
}

#[test]
fn added(rt: HostRuntime) -> Result<(), Fail> {
    let mut consts = class_pool(&rt)?;
    assert_eq!(rt; consts.add(Const::Integer(5)), Ok(11));
    assert_eq!(rt; consts.add(Const::Long(5)), Ok(12));
    assert_eq!(rt; consts.add(Const::Integer(5)), Ok(11));
    assert_eq!(rt; consts.add(Const::Integer(6)), Ok(14));
    assert_eq!(rt; consts.count(), 15);
    Ok(())
}

#[test]
fn added_to_a_copy(rt: HostRuntime) -> Result<(), Fail> {
    let mut consts = class_pool(&rt)?;
    consts.build_index();
    let mut copy = consts.copy()?;
    assert_eq!(rt; copy.add(Const::Integer(6)), Ok(11));
    assert_eq!(rt; consts.count(), 11);
    let mut expected = Vec::from_slice(rt.alloc(), b"\x00\x0c")?;
    expected.extend_from_slice(&CLASS_A[10..70])?;
    expected.extend_from_slice(b"\x03\x00\x00\x00\x06")?;
    let written = copy.write()?;
    assert_eq!(rt; written.as_slice(), expected.as_slice());
    Ok(())
}

#[test]
fn added_with_texts(rt: HostRuntime) -> Result<(), Fail> {
    let mut consts = class_pool(&rt)?;
    let code = text(&rt, b"Code")?;
    assert_eq!(rt; consts.add_text(&code), Ok(7));
    let owner = text(&rt, b"A")?;
    assert_eq!(rt; consts.add_class(&owner), Ok(2));
    let name = text(&rt, b"f")?;
    let descriptor = text(&rt, b"()V")?;
    assert_eq!(rt;
        consts.add_member(MemberTag::Method, &owner, &name, &descriptor),
        Ok(10)
    );
    assert_eq!(rt; consts.count(), 11);
    assert_eq!(rt;
        consts.add_member(MemberTag::Field, &owner, &name, &descriptor),
        Ok(11)
    );
    Ok(())
}

/// A pool of an Integer, and empty texts up to this count.
fn long_pool(rt: &HostRuntime, count: u16) -> Result<Consts, Fail> {
    let mut bytes = Vec::from_slice(rt.alloc(), &count.to_be_bytes())?;
    bytes.extend_from_slice(b"\x03\x00\x00\x00\x07")?;
    for _ in 2..count {
        bytes.extend_from_slice(b"\x01\x00\x00")?;
    }
    match Consts::read(rt.alloc(), &Run::of_vec(rt.alloc(), bytes)?, 0) {
        Ok((consts, _)) => Ok(consts),
        Err(_) => Err("no pool".into()),
    }
}

#[test]
fn full(rt: HostRuntime) -> Result<(), Fail> {
    let mut consts = long_pool(&rt, 65_535)?;
    assert_eq!(rt; consts.count(), 65_535);
    assert_eq!(rt; consts.add(Const::Integer(5)), Err(PoolStop::Full(65_536)));
    assert_eq!(rt; consts.add(Const::Long(5)), Err(PoolStop::Full(65_537)));
    assert_eq!(rt; consts.add(Const::Integer(7)), Ok(1));
    let empty = text(&rt, b"")?;
    assert_eq!(rt; consts.add_text(&empty), Ok(2));
    Ok(())
}

#[test]
fn full_for_texts(rt: HostRuntime) -> Result<(), Fail> {
    let mut consts = long_pool(&rt, 65_535)?;
    let empty = text(&rt, b"")?;
    let name = text(&rt, b"f")?;
    assert_eq!(rt; consts.add_text(&name), Err(PoolStop::Full(65_536)));
    assert_eq!(rt; consts.add_class(&empty), Err(PoolStop::Full(65_536)));
    assert_eq!(rt; consts.add_text(&empty), Ok(2));
    Ok(())
}

#[test]
fn full_in_a_row(rt: HostRuntime) -> Result<(), Fail> {
    let mut consts = long_pool(&rt, 65_532)?;
    let name = text(&rt, b"f")?;
    let empty = text(&rt, b"")?;
    assert_eq!(rt;
        consts.add_member(MemberTag::Method, &empty, &name, &empty),
        Err(PoolStop::Full(65_536))
    );
    assert_eq!(rt; consts.count(), 65_535);
    Ok(())
}

#[test]
fn named(rt: HostRuntime) -> Result<(), Fail> {
    let consts = class_pool(&rt)?;
    assert!(rt;
        matches!(consts.name_and_type(9), Some((name, descriptor))
            if name.bytes() == b"f".as_slice() && descriptor.bytes() == b"()V".as_slice())
    );
    assert!(rt; consts.name_and_type(10).is_none() && consts.member(9).is_none());
    match consts.member(10) {
        Some(member) => {
            assert_eq!(rt; member.kind, MemberTag::Method);
            assert_eq!(rt; member.owner.bytes(), b"A".as_slice());
            assert_eq!(rt; member.name.bytes(), b"f".as_slice());
            assert_eq!(rt; member.descriptor.bytes(), b"()V".as_slice());
        }
        None => return Err("no member".into()),
    }
    Ok(())
}

#[test]
fn written_behind_other_bytes(rt: HostRuntime) -> Result<(), Fail> {
    let consts = class_pool(&rt)?;
    let mut out = Vec::from_slice(rt.alloc(), b"front")?;
    consts.write_to(&mut out)?;
    let mut wanted = Vec::from_slice(rt.alloc(), b"front")?;
    wanted.extend_from_slice(&CLASS_A[8..70])?;
    assert_eq!(rt; out.as_slice(), wanted.as_slice());
    Ok(())
}
