use je_base::Memory;
use je_heap::{Classes, Fields, Heap};
use je_value::{
    Action, ActionForm, Basic, BasicForm, BinaryOp, Calculation, Kind, KindForm, Operation,
    OperationForm, Program, Value, ValueForm, Whole,
};
use je_vm::{Ending, Outcome, run_of};
use sqlite_items::Items;
use std::alloc::Global;
use std::test::*;

fn push(n: i32) -> Operation {
    let value = Value::of(ValueForm::Int(n));
    Operation::of(OperationForm::Do(Basic::of(BasicForm::Push(value))))
}

fn divide() -> Operation {
    let calculation = Calculation::Binary(Whole::Int, BinaryOp::Divide);
    let action = Action::of(ActionForm::Calculate(calculation));
    Operation::of(OperationForm::Do(Basic::of(BasicForm::Act(action))))
}

/// `bipush a`, `bipush b`, `idiv`, `ireturn`.
fn quotient(alloc: Global, a: i32, b: i32) -> Result<Program, Memory> {
    let mut operations = Items::new(alloc);
    operations.push(push(a))?;
    operations.push(push(b))?;
    operations.push(divide())?;
    let ints = Kind::of(KindForm::Int);
    operations.push(Operation::of(OperationForm::Return(Some(ints))))?;
    Ok(Program::of(Items::new(alloc), operations, Items::new(alloc)))
}

fn run(alloc: Global, a: i32, b: i32, bound: u64) -> Result<Outcome, Memory> {
    let program = quotient(alloc, a, b)?;
    let classes = Classes::new(Vec::new(alloc), Vec::new(alloc));
    let heap = Heap::new(Vec::new(alloc), Fields::new(alloc));
    run_of(
        alloc,
        &program,
        &classes,
        &[],
        heap,
        Items::new(alloc),
        bound,
    )
}

/// The int that a run returned, or a number that tells how else it came out.
fn shown(outcome: &Outcome) -> i64 {
    match &outcome.ending {
        Some(Ending::Returned(Some(value))) => value.number_of(),
        Some(Ending::Returned(None)) => -1001,
        Some(Ending::Thrown(_)) => -1002,
        None => -1003,
    }
}

#[test]
fn returns(rt: HostRuntime) -> Result<(), Fail> {
    assert_eq!(rt; shown(&run(rt.alloc(), -7, 2, 4)?), -3);
    Ok(())
}

#[test]
fn throws(rt: HostRuntime) -> Result<(), Fail> {
    let outcome = run(rt.alloc(), 7, 0, 4)?;
    assert_eq!(rt; shown(&outcome), -1002);
    assert_eq!(rt; outcome.outside.heap().objects().len(), 1);
    Ok(())
}

#[test]
fn goes_on(rt: HostRuntime) -> Result<(), Fail> {
    assert_eq!(rt; shown(&run(rt.alloc(), 7, 2, 3)?), -1003);
    Ok(())
}
