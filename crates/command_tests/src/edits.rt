use je_base::{Run, Text};
use je_class::{ClassFile, read_class, write_class};
use je_session::{EditStop, Fragment, MethodPlan, Rule, edit_method};
use samples::{CLASS_A, CLASS_B};
use sqlite_items::Items;
use std::test::*;

fn class(rt: &HostRuntime, bytes: &[u8]) -> Result<ClassFile, Fail> {
    let bytes = Vec::from_slice(rt.alloc(), bytes)?;
    let run = Run::of_vec(rt.alloc(), bytes)?;
    let class = read_class(rt.alloc(), &run)
        .ok()
        .ok_or("the bytes are a class")?;
    Ok(class)
}

fn text(rt: &HostRuntime, bytes: &[u8]) -> Result<Text, Fail> {
    let found = Text::from_bytes(rt.alloc(), bytes).ok().ok_or("memory")?;
    let text = found.ok_or("the bytes are a text")?;
    Ok(text)
}

/// The plan `method void METHOD() { call CLASS.MEMBER FRAGMENT }`.
fn plan(
    rt: &HostRuntime,
    method: &[u8],
    class_name: &[u8],
    member: &[u8],
    fragment: Fragment,
) -> Result<MethodPlan, Fail> {
    let mut rules = Items::new(rt.alloc());
    rules.push(Rule {
        class_name: text(rt, class_name)?,
        member: text(rt, member)?,
        fragment,
    })?;
    Ok(MethodPlan {
        name: text(rt, method)?,
        rules,
    })
}

#[test]
fn the_call_is_removed(rt: HostRuntime) -> Result<(), Fail> {
    let mut class = class(&rt, &CLASS_A)?;
    let plan = plan(&rt, b"m", b"A", b"f", Fragment::Empty)?;
    assert_eq!(rt; edit_method(rt.alloc(), &mut class, &plan), Ok(1));
    let [method] = class.methods() else {
        return Err("one method".into());
    };
    let [code] = method.attributes.as_slice() else {
        return Err("one attribute".into());
    };
    let expected = [0, 0, 0, 0, 0, 0, 0, 1, 0xb1, 0, 0, 0, 0];
    assert_eq!(rt; code.bytes.as_slice(), expected.as_slice());
    Ok(())
}

/// The rows go where their instructions go; the row of the call that is gone is left out.
#[test]
fn the_rows_go_along(rt: HostRuntime) -> Result<(), Fail> {
    let mut class = class(&rt, &CLASS_B)?;
    let plan = plan(&rt, b"m", b"B", b"f", Fragment::Empty)?;
    assert_eq!(rt; edit_method(rt.alloc(), &mut class, &plan), Ok(1));
    let [method] = class.methods() else {
        return Err("one method".into());
    };
    let [code] = method.attributes.as_slice() else {
        return Err("one attribute".into());
    };
    let expected = [
        0x00, 0x00, 0x00, 0x01, 0x00, 0x00, 0x00, 0x04, 0xb8, 0x00, 0x0d, 0xb1, 0x00, 0x00, 0x00,
        0x02, 0x00, 0x0e, 0x00, 0x00, 0x00, 0x0e, 0x00, 0x03, 0x00, 0x00, 0x00, 0x07, 0x00, 0x03,
        0x00, 0x08, 0x00, 0x03, 0x00, 0x09, 0x00, 0x0f, 0x00, 0x00, 0x00, 0x0c, 0x00, 0x01, 0x00,
        0x00, 0x00, 0x04, 0x00, 0x08, 0x00, 0x10, 0x00, 0x00,
    ];
    assert_eq!(rt; code.bytes.as_slice(), expected.as_slice());
    Ok(())
}

#[test]
fn the_call_proceeds(rt: HostRuntime) -> Result<(), Fail> {
    let mut class = class(&rt, &CLASS_A)?;
    let plan = plan(&rt, b"m", b"A", b"f", Fragment::Proceed)?;
    assert_eq!(rt; edit_method(rt.alloc(), &mut class, &plan), Ok(1));
    let written = write_class(rt.alloc(), &class).ok().ok_or("memory")?;
    assert_eq!(rt; written.as_slice(), CLASS_A.as_slice());
    Ok(())
}

#[test]
fn other_calls_stay(rt: HostRuntime) -> Result<(), Fail> {
    let mut class = class(&rt, &CLASS_A)?;
    let plan = plan(&rt, b"m", b"A", b"h", Fragment::Empty)?;
    assert_eq!(rt; edit_method(rt.alloc(), &mut class, &plan), Ok(0));
    let written = write_class(rt.alloc(), &class).ok().ok_or("memory")?;
    assert_eq!(rt; written.as_slice(), CLASS_A.as_slice());
    Ok(())
}

#[test]
fn no_such_method(rt: HostRuntime) -> Result<(), Fail> {
    let mut class = class(&rt, &CLASS_A)?;
    let plan = plan(&rt, b"q", b"A", b"f", Fragment::Empty)?;
    assert_eq!(rt;
        edit_method(rt.alloc(), &mut class, &plan),
        Err(EditStop::NotYet)
    );
    Ok(())
}
