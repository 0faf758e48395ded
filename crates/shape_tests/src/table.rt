//! Small methods and their shapes, each by hand after JVMS 4.10.1.

use crate::made::*;
use je_base::{Memory, Text};
use je_least::{ShapeFault, Shapes, least_shapes};
use je_shape::{Shape, Slot};
use je_value::{
    BasicForm, Condition, KindForm, Operation, OperationForm, Program, Sort, ValueForm,
};
use sqlite_items::Items;
use std::alloc::Global;
use std::test::*;

/// The shapes of a method of class A without frames, as they are shown, or its fault.
fn lines(
    rt: &HostRuntime,
    program: Result<Program, Memory>,
    locals: Items<Slot>,
) -> Result<String, Fail> {
    framed(rt, program, locals, &[])
}

/// With these frames.
fn framed(
    rt: &HostRuntime,
    program: Result<Program, Memory>,
    locals: Items<Slot>,
    frames: &[(u32, Shape)],
) -> Result<String, Fail> {
    let alloc = rt.alloc();
    let (Ok(class), Ok(program)) = (Text::of(alloc, "A"), program) else {
        return Err("a method is made".into());
    };
    let entry = shape(alloc, locals);
    match least_shapes(alloc, &class, &program, &entry, frames, Some(None)) {
        Ok(shapes) => text_of(alloc, &shapes),
        Err(ShapeFault::BadCode(at)) => Ok(format!(in alloc; "bad code {at}")?),
        Err(ShapeFault::Memory) => Err("there is memory".into()),
    }
}

fn text_of(alloc: Global, shapes: &Shapes) -> Result<String, Fail> {
    match shown(alloc, shapes.list.as_slice()) {
        Ok(text) => Ok(text),
        Err(_) => Err("shapes are shown".into()),
    }
}

/// One local variable.
fn one(alloc: Global, slot: Result<Slot, Memory>) -> Result<Items<Slot>, Fail> {
    let Ok(slot) = slot else {
        return Err("a slot is made".into());
    };
    let mut locals = Items::new(alloc);
    locals.push(slot)?;
    Ok(locals)
}

/// `aload_0`, `checkcast B`, `astore_0`, `goto` 0.
fn cast_in_loop(alloc: Global) -> Result<Program, Memory> {
    let mut list = Items::new(alloc);
    list.push(aload(0))?;
    list.push(cast(alloc, b"B")?)?;
    list.push(astore(0))?;
    list.push(goto(0))?;
    program(alloc, list, None)
}

#[test]
fn loop_widens_names(rt: HostRuntime) -> Result<(), Fail> {
    let alloc = rt.alloc();
    let text = lines(&rt, cast_in_loop(alloc), one(alloc, object(alloc, "C"))?)?;
    assert_eq!(rt; text.as_str(), " | B/C\n B/C | B/C\n B | B/C\n | B\n");
    let text = lines(&rt, cast_in_loop(alloc), one(alloc, object(alloc, "A"))?)?;
    assert_eq!(rt; text.as_str(), " | A/B\n A/B | A/B\n B | A/B\n | B\n");
    let text = lines(&rt, cast_in_loop(alloc), one(alloc, Ok(Slot::Null))?)?;
    assert_eq!(rt; text.as_str(), " | B\n B | B\n B | B\n | B\n");
    Ok(())
}

/// `aconst_null`, `astore_0`, `nop`, `goto` 2, `astore_0`, `goto` 2; 2 to 4 are covered by 4.
fn handler_in_loop(alloc: Global) -> Result<Program, Memory> {
    let mut list = Items::new(alloc);
    list.push(push(ValueForm::Null))?;
    list.push(astore(0))?;
    list.push(basic(BasicForm::Nop))?;
    list.push(goto(2))?;
    list.push(astore(0))?;
    list.push(goto(2))?;
    program(alloc, list, Some((2, 4, 4)))
}

#[test]
fn handler_stands_in_a_loop(rt: HostRuntime) -> Result<(), Fail> {
    let alloc = rt.alloc();
    let text = lines(&rt, handler_in_loop(alloc), Items::new(alloc))?;
    let wanted = " |\n null |\n | java/lang/Throwable\n | java/lang/Throwable\n \
                  java/lang/Throwable | java/lang/Throwable\n | java/lang/Throwable\n";
    assert_eq!(rt; text.as_str(), wanted);
    Ok(())
}

/// `lconst_0`, `lstore_0`, `iconst_0`, `istore_1`, `return`; a handler at 4 would see the int, and
/// one that covers 2 and 3 sees the long.
fn handler_before_store(alloc: Global) -> Result<Program, Memory> {
    let mut list = Items::new(alloc);
    list.push(push(ValueForm::Long(0)))?;
    list.push(store(KindForm::Long, 0))?;
    list.push(push(ValueForm::Int(0)))?;
    list.push(store(KindForm::Int, 1))?;
    list.push(leave())?;
    list.push(leave())?;
    program(alloc, list, Some((2, 4, 5)))
}

#[test]
fn handler_sees_locals_from_before(rt: HostRuntime) -> Result<(), Fail> {
    let alloc = rt.alloc();
    let text = lines(&rt, handler_before_store(alloc), Items::new(alloc))?;
    assert_eq!(rt;
        text.as_str(),
        " |\n J |\n | J T\n I | J T\n | T I\n java/lang/Throwable | J T\n"
    );
    Ok(())
}

/// `new A`, `astore_0`, `goto` 0.
fn new_in_loop(alloc: Global) -> Result<Program, Memory> {
    let mut list = Items::new(alloc);
    list.push(new(alloc, b"A")?)?;
    list.push(astore(0))?;
    list.push(goto(0))?;
    program(alloc, list, None)
}

/// `new A`, `goto` 0.
fn new_stays_on_stack(alloc: Global) -> Result<Program, Memory> {
    let mut list = Items::new(alloc);
    list.push(new(alloc, b"A")?)?;
    list.push(goto(0))?;
    program(alloc, list, None)
}

#[test]
fn new_stands_in_a_loop(rt: HostRuntime) -> Result<(), Fail> {
    let alloc = rt.alloc();
    let text = lines(&rt, new_in_loop(alloc), Items::new(alloc))?;
    assert_eq!(rt; text.as_str(), " |\n new0 |\n | new0\n");
    let text = lines(&rt, new_in_loop(alloc), one(alloc, Ok(Slot::Uninit(0)))?)?;
    assert_eq!(rt; text.as_str(), " | new0\n new0 | T\n | new0\n");
    let text = lines(&rt, new_stays_on_stack(alloc), Items::new(alloc))?;
    assert_eq!(rt; text.as_str(), "bad code 0");
    Ok(())
}

/// `aload_0`, `dup`, `invokespecial B.<init>`, `astore_1`, `return`.
fn constructor(alloc: Global) -> Result<Program, Memory> {
    let mut list = Items::new(alloc);
    list.push(aload(0))?;
    list.push(dup())?;
    list.push(init(alloc, b"B")?)?;
    list.push(astore(1))?;
    list.push(leave())?;
    program(alloc, list, None)
}

/// `new B`, `dup`, `invokespecial` of a constructor of a class, `pop`, `return`.
fn constructed(alloc: Global, class: &[u8]) -> Result<Program, Memory> {
    let mut list = Items::new(alloc);
    list.push(new(alloc, b"B")?)?;
    list.push(dup())?;
    list.push(init(alloc, class)?)?;
    list.push(basic(BasicForm::Drop(1)))?;
    list.push(leave())?;
    program(alloc, list, None)
}

/// `aload_0`, `invokevirtual A.f`, `return`.
fn called(alloc: Global) -> Result<Program, Memory> {
    let mut list = Items::new(alloc);
    list.push(aload(0))?;
    list.push(call(alloc, Sort::Virtual, b"A", b"f")?)?;
    list.push(leave())?;
    program(alloc, list, None)
}

#[test]
fn this_is_made_by_another_constructor(rt: HostRuntime) -> Result<(), Fail> {
    let alloc = rt.alloc();
    let text = lines(&rt, constructor(alloc), one(alloc, Ok(Slot::UninitThis))?)?;
    assert_eq!(rt;
        text.as_str(),
        " | this\n this | this\n this this | this\n A | A\n | A A\n"
    );
    let text = lines(&rt, called(alloc), one(alloc, Ok(Slot::UninitThis))?)?;
    assert_eq!(rt; text.as_str(), "bad code 1");
    let text = lines(&rt, called(alloc), one(alloc, object(alloc, "A"))?)?;
    assert_eq!(rt; text.as_str(), " | A\n A | A\n | A\n");
    Ok(())
}

#[test]
fn object_is_made_by_its_constructor(rt: HostRuntime) -> Result<(), Fail> {
    let alloc = rt.alloc();
    let text = lines(&rt, constructed(alloc, b"B"), Items::new(alloc))?;
    assert_eq!(rt; text.as_str(), " |\n new0 |\n new0 new0 |\n B |\n |\n");
    let text = lines(&rt, constructed(alloc, b"C"), Items::new(alloc))?;
    assert_eq!(rt; text.as_str(), "bad code 2");
    let text = lines(&rt, called(alloc), one(alloc, Ok(Slot::Uninit(0)))?)?;
    assert_eq!(rt; text.as_str(), "bad code 1");
    Ok(())
}

/// `aload_0`, `iconst_0`, `aaload`, `iconst_0`, `aaload`, `astore_0`, `return`.
fn twice_loaded(alloc: Global) -> Result<Program, Memory> {
    let mut list = Items::new(alloc);
    list.push(aload(0))?;
    list.push(push(ValueForm::Int(0)))?;
    list.push(aaload())?;
    list.push(push(ValueForm::Int(0)))?;
    list.push(aaload())?;
    list.push(astore(0))?;
    list.push(leave())?;
    program(alloc, list, None)
}

#[test]
fn arrays_have_arrays(rt: HostRuntime) -> Result<(), Fail> {
    let alloc = rt.alloc();
    let text = lines(
        &rt,
        twice_loaded(alloc),
        one(alloc, object(alloc, "[[LB;"))?,
    )?;
    assert_eq!(rt;
        text.as_str(),
        " | [[LB;\n [[LB; | [[LB;\n I [[LB; | [[LB;\n [LB; | [[LB;\n I [LB; | [[LB;\n \
         B | [[LB;\n | B\n"
    );
    let text = lines(&rt, twice_loaded(alloc), one(alloc, Ok(Slot::Null))?)?;
    assert_eq!(rt;
        text.as_str(),
        " | null\n null | null\n I null | null\n null | null\n I null | null\n null | null\n \
         | null\n"
    );
    Ok(())
}

/// `goto` 2, `pop`, `return`, `pop`.
fn dead(alloc: Global) -> Result<Program, Memory> {
    let mut list = Items::new(alloc);
    list.push(goto(2))?;
    list.push(basic(BasicForm::Drop(1)))?;
    list.push(leave())?;
    list.push(basic(BasicForm::Drop(1)))?;
    program(alloc, list, None)
}

#[test]
fn dead_code_has_no_shape(rt: HostRuntime) -> Result<(), Fail> {
    let alloc = rt.alloc();
    let text = lines(&rt, dead(alloc), Items::new(alloc))?;
    assert_eq!(rt; text.as_str(), " |\n -\n |\n -\n");
    Ok(())
}

/// `aload_0`, `ifnull` 3, `nop`, `return`.
fn framed_method(alloc: Global) -> Result<Program, Memory> {
    let mut list: Items<Operation> = Items::new(alloc);
    list.push(aload(0))?;
    list.push(Operation::of(OperationForm::Branch(Condition::IsNull(true), 3)))?;
    list.push(basic(BasicForm::Nop))?;
    list.push(leave())?;
    program(alloc, list, None)
}

#[test]
fn first_frame_counts(rt: HostRuntime) -> Result<(), Fail> {
    let alloc = rt.alloc();
    let mut frames = Items::new(alloc);
    frames.push((3, shape(alloc, one(alloc, object(alloc, "C"))?)))?;
    frames.push((3, shape(alloc, one(alloc, Ok(Slot::Int))?)))?;
    let locals = one(alloc, object(alloc, "A"))?;
    let text = framed(&rt, framed_method(alloc), locals, frames.as_slice())?;
    assert_eq!(rt; text.as_str(), " | A\n A | A\n | A\n | C\n");
    let locals = one(alloc, object(alloc, "A"))?;
    let text = framed(&rt, framed_method(alloc), locals, &frames.as_slice()[1..])?;
    assert_eq!(rt; text.as_str(), "bad code 3");
    Ok(())
}
