use je_base::{Memory, Run};
use je_value::{
    Action, ActionForm, BinaryOp, Calculation, Comparison, Condition, Content, ContentForm, Field,
    Part, ShiftOp, Sort, Value, ValueForm, Whole, admit_all, calculate, is_met, read_field_type,
    read_method_types, value_at,
};
use std::alloc::Global;
use std::test::*;

fn run(alloc: Global, text: &[u8]) -> Result<Run, Memory> {
    Run::of_vec(alloc, Vec::from_slice(alloc, text)?)
}

fn int(n: i32) -> Value {
    Value::of(ValueForm::Int(n))
}

fn long(n: i64) -> Value {
    Value::of(ValueForm::Long(n))
}

fn number(value: Option<Value>) -> i64 {
    match value {
        Some(value) => value.number_of(),
        None => -77,
    }
}

#[test]
fn computed(rt: HostRuntime) -> Result<(), Fail> {
    let ints = Whole::Int;
    let longs = Whole::Long;
    let xs = [int(i32::MIN), int(-1)];
    assert_eq!(rt;
        number(calculate(Calculation::Binary(ints, BinaryOp::Divide), &xs)),
        i32::MIN as i64
    );
    assert_eq!(rt;
        number(calculate(Calculation::Binary(ints, BinaryOp::Remainder), &xs)),
        0
    );
    assert_eq!(rt;
        number(calculate(Calculation::Shift(ints, ShiftOp::RightUnsigned), &xs)),
        1
    );
    assert_eq!(rt;
        number(calculate(Calculation::Binary(ints, BinaryOp::Add), &xs)),
        i32::MAX as i64
    );
    let ys = [long(-7), long(2)];
    assert_eq!(rt;
        number(calculate(Calculation::Binary(longs, BinaryOp::Divide), &ys)),
        -3
    );
    assert_eq!(rt;
        number(calculate(Calculation::Binary(longs, BinaryOp::Remainder), &ys)),
        -1
    );
    assert_eq!(rt; number(calculate(Calculation::CompareLongs, &ys)), -1);
    let zs = [long(1), long(0)];
    assert_eq!(rt;
        number(calculate(Calculation::Binary(longs, BinaryOp::Divide), &zs)),
        -77
    );
    let ks = [int(-1)];
    assert_eq!(rt;
        number(calculate(Calculation::Keep(Part::Char), &ks)),
        65535
    );
    assert_eq!(rt; number(calculate(Calculation::Extend, &ks)), -1);
    let ls = [long(0x1_8000_0000)];
    assert_eq!(rt;
        number(calculate(Calculation::Truncate, &ls)),
        i32::MIN as i64
    );
    assert!(rt; is_met(Condition::Ints(Comparison::IsLess), &xs));
    assert!(rt; !is_met(Condition::Same(true), &xs));
    Ok(())
}

#[test]
fn spelled(rt: HostRuntime) -> Result<(), Fail> {
    let alloc = rt.alloc();
    let Some(types) = read_method_types(alloc, b"(I[[JLjava/lang/String;D)LA;".as_slice())? else {
        return Err("no types".into());
    };
    assert_eq!(rt; types.params().len(), 4);
    let class = run(alloc, b"B")?;
    let content = Content::of(ContentForm::Class(class));
    let call = Action::of(ActionForm::Invoke(Sort::Virtual, content.copy()?, types.copy(alloc)?));
    let kinds = call.operands_of(alloc)?;
    assert_eq!(rt; kinds.len(), 5);
    assert!(rt; call.has_target() && call.result_of().is_some());
    let Some(of) = read_field_type(alloc, b"[I".as_slice())? else {
        return Err("no type".into());
    };
    let field = Field::of(run(alloc, b"A")?, run(alloc, b"x")?, of);
    let put = Action::of(ActionForm::PutField(field)).copy(alloc)?;
    let kinds = put.operands_of(alloc)?;
    assert_eq!(rt; kinds.len(), 2);
    let values = [Value::of(ValueForm::Object(3)), int(4)];
    let all = admit_all(alloc, kinds.as_slice(), &values)?;
    assert!(rt; value_at(all.as_slice(), 1)?.is_null());
    assert!(rt; !value_at(all.as_slice(), 0)?.is_null());
    assert!(rt; read_field_type(alloc, b"[".as_slice())?.is_none());
    assert!(rt; read_field_type(alloc, b"V".as_slice())?.is_none());
    assert!(rt; read_method_types(alloc, b"()VV".as_slice())?.is_none());
    assert!(rt; read_method_types(alloc, b"()V".as_slice())?.is_some());
    Ok(())
}
