ghost use Rattle.std.specs.Prelude.{◌≡◌, IfOk};

use je_base::{Run, Text};
use je_class::{ClassFault, ClassFile, MethodIndex, read_class, write_class};
use je_consts::Const;
use je_desc::Summary;
use samples::CLASS_A;
use std::test::*;

/// One interface, one private field `f` of type int with an attribute of one byte.
const INTERFACE_AND_FIELD: &[u8] =
    b"\x00\x01\x00\x04\x00\x01\x00\x02\x00\x08\x00\x01\x00\x01\x00\x07\x00\x00\x00\x01\x2a";

/// One attribute of no bytes.
const ATTRIBUTE: &[u8] = b"\x00\x01\x00\x07\x00\x00\x00\x00";

fn run_of(rt: &HostRuntime, bytes: &[u8]) -> Result<Run, Fail>
    ensures { IfOk result (λ run. run ≡ bytes.now) }
{
    let copy = Vec::from_slice(rt.alloc(), bytes)?;
    Ok(Run::of_vec(rt.alloc(), copy)?)
}

/// Why these bytes are not read, or `None` where they are.
fn fault_of(rt: &HostRuntime, bytes: &[u8]) -> Result<Option<ClassFault>, Fail> {
    let run = run_of(rt, bytes)?;
    Ok(read_class(rt.alloc(), &run).err())
}

fn class_of(rt: &HostRuntime, bytes: &[u8]) -> Result<ClassFile, Fail> {
    let run = run_of(rt, bytes)?;
    let class = read_class(rt.alloc(), &run)
        .ok()
        .ok_or("the bytes are a class")?;
    Ok(class)
}

/// The bytes of class `A` with another one at an offset.
fn with_byte(at: usize, byte: u8) -> [u8; 114] {
    let mut bytes = CLASS_A;
    if let Some(old) = bytes.get_mut(at) {
        *old = byte;
    }
    bytes
}

fn part(bytes: &[u8], from: usize, to: usize) -> Result<&[u8], Fail> {
    let part = bytes.get(from..to).ok_or("fewer bytes")?;
    Ok(part)
}

/// Class `A` under the name `I`, with items in each of its tables.
fn with_tables(rt: &HostRuntime) -> Result<Vec<u8>, Fail> {
    let named = with_byte(13, b'I');
    let mut bytes = Vec::from_slice(rt.alloc(), part(&named, 0, 76)?)?;
    bytes.extend_from_slice(INTERFACE_AND_FIELD)?;
    bytes.extend_from_slice(part(&named, 80, 112)?)?;
    bytes.extend_from_slice(ATTRIBUTE)?;
    Ok(bytes)
}

fn text(rt: &HostRuntime, bytes: &[u8]) -> Result<Text, Fail>
    ensures { IfOk result (λ text. text ≡ bytes.now) }
{
    match Text::from_bytes(rt.alloc(), bytes) {
        Ok(Some(text)) => Ok(text),
        _ => Err("no text".into()),
    }
}

/// The class read from the bytes, and its copy, are written as the bytes.
fn comes_back(rt: &HostRuntime, bytes: &[u8]) -> Result<bool, Fail> {
    let class = class_of(rt, bytes)?;
    let written = write_class(rt.alloc(), &class)?;
    let copy = class.copy()?;
    let again = write_class(rt.alloc(), &copy)?;
    Ok(written.as_slice() == bytes && again.as_slice() == bytes)
}

/// What class `A` is written as with a number as its last constant, and three bytes for the code of
/// its method.
fn with_code(rt: &HostRuntime) -> Result<Vec<u8>, Fail> {
    let mut class = class_of(rt, &CLASS_A)?;
    let mut consts = class.consts().copy()?;
    if consts.add(Const::Integer(7)).ok() != Some(11) {
        return Err("index 11".into());
    }
    let [method] = class.methods() else {
        return Err("one method".into());
    };
    if method.attributes.is_empty() {
        return Err("an attribute".into());
    }
    class.set_code(0, 0, run_of(rt, b"\x07\x08\x09")?, consts);
    Ok(write_class(rt.alloc(), &class)?)
}

fn summary_of(rt: &HostRuntime, bytes: &[u8]) -> Result<Summary, Fail> {
    let class = class_of(rt, bytes)?;
    Ok(class.summary()?)
}

#[test]
fn first_bytes_alone(rt: HostRuntime) -> Result<(), Fail> {
    let table = [
        (0, ClassFault::Truncated(0)),
        (9, ClassFault::Truncated(8)),
        (20, ClassFault::Truncated(20)),
        (113, ClassFault::Truncated(112)),
    ];
    for (count, fault) in table {
        let front = part(&CLASS_A, 0, count)?;
        assert_eq!(rt; fault_of(&rt, front)?, Some(fault), "at {count}");
    }
    let mut more = Vec::from_slice(rt.alloc(), &CLASS_A)?;
    more.push(0)?;
    assert_eq!(rt; fault_of(&rt, &more)?, Some(ClassFault::Trailing(114)));
    Ok(())
}

#[test]
fn most_bytes(rt: HostRuntime) -> Result<(), Fail> {
    let mut bytes = Vec::from_slice(rt.alloc(), &CLASS_A)?;
    bytes.resize(16_777_216, 0)?;
    assert_eq!(rt; fault_of(&rt, &bytes)?, Some(ClassFault::Trailing(114)));
    bytes.push(0)?;
    assert_eq!(rt; fault_of(&rt, &bytes)?, Some(ClassFault::TooLong));
    Ok(())
}

#[test]
fn one_byte_set(rt: HostRuntime) -> Result<(), Fail> {
    let table = [
        (0, 0x00, Some(ClassFault::BadMagic)),
        (7, 0x30, Some(ClassFault::Version(48))),
        (7, 0x32, None),
        (7, 0x33, None),
        (7, 0x34, None),
        (7, 0x35, Some(ClassFault::Version(53))),
        (9, 0x0c, Some(ClassFault::BadConst(11))),
        (10, 0x02, Some(ClassFault::BadConst(1))),
        (16, 0x04, Some(ClassFault::BadConst(2))),
        (73, 0x01, Some(ClassFault::BadIndex(72))),
        (75, 0x01, Some(ClassFault::BadIndex(74))),
        (75, 0x00, None),
        (85, 0x02, Some(ClassFault::BadIndex(84))),
        (87, 0x08, Some(ClassFault::BadDescriptor(86))),
        (89, 0x02, Some(ClassFault::BadAttribute(112))),
        (91, 0x02, Some(ClassFault::BadAttribute(90))),
        (92, 0xff, Some(ClassFault::Truncated(96))),
    ];
    for (at, byte, fault) in table {
        let bytes = with_byte(at, byte);
        assert_eq!(rt; fault_of(&rt, &bytes)?, fault, "{byte} at {at}");
    }
    Ok(())
}

#[test]
fn written_and_copied(rt: HostRuntime) -> Result<(), Fail> {
    assert!(rt; comes_back(&rt, &CLASS_A)?);
    assert!(rt; comes_back(&rt, &with_tables(&rt)?)?);
    Ok(())
}

#[test]
fn code_set_with_a_grown_pool(rt: HostRuntime) -> Result<(), Fail> {
    let mut wanted = Vec::from_slice(rt.alloc(), part(&with_byte(9, 12), 0, 70)?)?;
    wanted.extend_from_slice(b"\x03\x00\x00\x00\x07")?;
    wanted.extend_from_slice(part(&CLASS_A, 70, 92)?)?;
    wanted.extend_from_slice(b"\x00\x00\x00\x03\x07\x08\x09")?;
    wanted.extend_from_slice(part(&CLASS_A, 112, 114)?)?;
    assert_eq!(rt; with_code(&rt)?, wanted);
    Ok(())
}

#[test]
fn members_found(rt: HostRuntime) -> Result<(), Fail> {
    let class = class_of(&rt, &CLASS_A)?;
    let table: [(&[u8], &[u8], Option<usize>); 3] = [
        (b"m", b"()V", Some(0)),
        (b"q", b"()V", None),
        (b"m", b"()I", None),
    ];
    for (name, descriptor, found) in table {
        let name = text(&rt, name)?;
        let descriptor = text(&rt, descriptor)?;
        assert_eq!(rt; class.find_member(&name, &descriptor), found);
    }
    Ok(())
}

#[test]
fn summed_up(rt: HostRuntime) -> Result<(), Fail> {
    let summary = summary_of(&rt, &CLASS_A)?;
    assert_eq!(rt; summary.name.bytes(), b"A".as_slice());
    let super_name = summary.super_name.as_ref().ok_or("a super class")?;
    assert_eq!(rt; super_name.bytes(), b"java/lang/Object".as_slice());
    assert_eq!(rt; summary.access, 0x21);
    assert!(rt; summary.interfaces.is_empty() && summary.fields.is_empty());
    let [method] = summary.methods.as_slice() else {
        return Err("one method".into());
    };
    assert_eq!(rt; method.name.bytes(), b"m".as_slice());
    assert_eq!(rt; method.descriptor.bytes(), b"()V".as_slice());
    assert_eq!(rt; method.access, 9);
    Ok(())
}

#[test]
fn summed_up_with_tables(rt: HostRuntime) -> Result<(), Fail> {
    let summary = summary_of(&rt, &with_tables(&rt)?)?;
    let [interface] = summary.interfaces.as_slice() else {
        return Err("one interface".into());
    };
    assert_eq!(rt; interface.bytes(), b"java/lang/Object".as_slice());
    let [field] = summary.fields.as_slice() else {
        return Err("one field".into());
    };
    assert_eq!(rt; field.name.bytes(), b"f".as_slice());
    assert_eq!(rt; field.descriptor.bytes(), b"I".as_slice());
    assert_eq!(rt; field.access, 2);
    assert_eq!(rt; summary.methods.len(), 1);

    let first = class_of(&rt, &with_byte(75, 0))?;
    assert!(rt; first.super_name().is_none());
    assert!(rt; first.summary()?.super_name.is_none());
    Ok(())
}

/// Class `A` with its method twice.
fn with_method_twice(rt: &HostRuntime) -> Result<Vec<u8>, Fail> {
    let mut bytes = Vec::from_slice(rt.alloc(), part(&CLASS_A, 0, 81)?)?;
    bytes.push(2)?;
    bytes.extend_from_slice(part(&CLASS_A, 82, 112)?)?;
    bytes.extend_from_slice(part(&CLASS_A, 82, 114)?)?;
    Ok(bytes)
}

#[test]
fn methods_found_by_index(rt: HostRuntime) -> Result<(), Fail> {
    let class = class_of(&rt, &with_method_twice(&rt)?)?;
    assert_eq!(rt; class.methods().len(), 2);
    let index = MethodIndex::of(&class)?;
    let table: [(&[u8], &[u8], Option<usize>); 3] = [
        (b"m", b"()V", Some(0)),
        (b"q", b"()V", None),
        (b"m", b"()I", None),
    ];
    for (name, descriptor, found) in table {
        let name = text(&rt, name)?;
        let descriptor = text(&rt, descriptor)?;
        assert_eq!(rt; index.find(&name, &descriptor), found);
        assert_eq!(rt; class.find_member(&name, &descriptor), found);
    }
    Ok(())
}
