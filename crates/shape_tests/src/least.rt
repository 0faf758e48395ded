use je_base::Text;
use je_least::{ShapeFault, Shapes, least_shapes, lost};
use je_shape::{Shape, Slot};
use je_value::{
    Basic, BasicForm, Condition, Kind, KindForm, Operation, OperationForm, Program, Value,
    ValueForm,
};
use sqlite_items::Items;
use std::test::*;

fn basic(form: BasicForm) -> Operation {
    Operation::of(OperationForm::Do(Basic::of(form)))
}

fn push(form: ValueForm) -> Operation {
    basic(BasicForm::Push(Value::of(form)))
}

fn store(form: KindForm) -> Operation {
    Operation::of(OperationForm::Store(Kind::of(form), 0))
}

/// The shapes of a method of class A, without parameters, frames and handlers.
fn least(
    rt: &HostRuntime,
    operations: Items<Operation>,
) -> Result<Result<Shapes, ShapeFault>, Fail> {
    let Ok(class) = Text::of(rt.alloc(), "A") else {
        return Err("a text is made".into());
    };
    let program = Program::of(Items::new(rt.alloc()), operations, Items::new(rt.alloc()));
    let entry = Shape {
        stack: Items::new(rt.alloc()),
        locals: Items::new(rt.alloc()),
    };
    Ok(least_shapes(rt.alloc(), &class, &program, &entry, &[], None))
}

#[test]
fn faults(rt: HostRuntime) -> Result<(), Fail> {
    let mut pop = Items::new(rt.alloc());
    pop.push(basic(BasicForm::Drop(1)))?;
    assert!(rt; matches!(least(&rt, pop)?, Err(ShapeFault::BadCode(0))));
    let mut nop = Items::new(rt.alloc());
    nop.push(basic(BasicForm::Nop))?;
    assert!(rt; matches!(least(&rt, nop)?, Err(ShapeFault::BadCode(0))));
    Ok(())
}

/// `aconst_null`, `ifnull` to 5, `iconst_1`, `istore_0`, `goto` 7, `aconst_null`, `astore_0`,
/// `return`.
fn two_ways(rt: &HostRuntime) -> Result<Items<Operation>, Fail> {
    let mut operations = Items::new(rt.alloc());
    operations.push(push(ValueForm::Null))?;
    operations.push(Operation::of(OperationForm::Branch(Condition::IsNull(true), 5)))?;
    operations.push(push(ValueForm::Int(1)))?;
    operations.push(store(KindForm::Int))?;
    operations.push(Operation::of(OperationForm::Goto(7)))?;
    operations.push(push(ValueForm::Null))?;
    operations.push(store(KindForm::Reference))?;
    operations.push(Operation::of(OperationForm::Return(None)))?;
    Ok(operations)
}

#[test]
fn ways_meet(rt: HostRuntime) -> Result<(), Fail> {
    let Ok(shapes) = least(&rt, two_ways(&rt)?)? else {
        return Err("there are shapes".into());
    };
    assert_eq!(rt; shapes.list.len(), 8);
    let mut used = Items::new(rt.alloc());
    used.push((0, Slot::Int))?;
    assert_eq!(rt; lost(&shapes, used.as_slice(), &[4]), None);
    assert_eq!(rt; lost(&shapes, used.as_slice(), &[7, 4, 6]), Some((0, 6)));
    assert_eq!(rt; lost(&shapes, used.as_slice(), &[7, 4]), Some((0, 7)));
    Ok(())
}
