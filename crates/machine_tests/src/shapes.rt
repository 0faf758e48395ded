use je_base::Text;
use je_desc::{JType, MethodType};
use je_shape::{Shape, Slot, entry_shape, join_shapes};
use sqlite_items::{Boxed, Items};
use std::test::*;

/// A letter a slot, and the names of a reference.
fn shown(rt: &HostRuntime, slots: &[Slot]) -> Result<String, Fail> {
    let mut line = String::new(rt.alloc());
    for slot in slots {
        match slot {
            Slot::Top => line.push_str("T ")?,
            Slot::Int => line.push_str("I ")?,
            Slot::Float => line.push_str("F ")?,
            Slot::Long => line.push_str("J ")?,
            Slot::Double => line.push_str("D ")?,
            Slot::Null => line.push_str("null ")?,
            Slot::UninitThis => line.push_str("this ")?,
            Slot::Uninit(_) => line.push_str("new ")?,
            Slot::Ref(names) => {
                for name in names.as_slice() {
                    let Ok(text) = name.show() else {
                        return Err("a name is shown".into());
                    };
                    line.push_str(&text)?;
                    line.push_str(" ")?;
                }
            }
        }
    }
    Ok(line)
}

/// The entry of a method `(J[LB;)V` of a class, by whether it is a constructor.
fn entry(rt: &HostRuntime, name: &str, is_init: bool) -> Result<Shape, Fail> {
    let Ok(class) = Text::of(rt.alloc(), name) else {
        return Err("a text is made".into());
    };
    let Ok(element) = Text::of(rt.alloc(), "B") else {
        return Err("a text is made".into());
    };
    let mut params = Items::new(rt.alloc());
    params.push(JType::Long)?;
    let component = Boxed::new(rt.alloc(), JType::Class(element))?;
    params.push(JType::Array(component))?;
    let m = MethodType {
        params,
        result: None,
    };
    match entry_shape(rt.alloc(), &class, false, is_init, &m) {
        Ok(shape) => Ok(shape),
        Err(_) => Err("there is an entry".into()),
    }
}

#[test]
fn entries(rt: HostRuntime) -> Result<(), Fail> {
    let shape = entry(&rt, "A", false)?;
    assert_eq!(rt; shape.stack.len(), 0);
    let line = shown(&rt, shape.locals.as_slice())?;
    assert_eq!(rt; line.as_str(), "A J T [LB; ");
    let shape = entry(&rt, "A", true)?;
    let line = shown(&rt, shape.locals.as_slice())?;
    assert_eq!(rt; line.as_str(), "this J T [LB; ");
    let shape = entry(&rt, "java/lang/Object", true)?;
    let line = shown(&rt, shape.locals.as_slice())?;
    assert_eq!(rt; line.as_str(), "java/lang/Object J T [LB; ");
    Ok(())
}

#[test]
fn joins(rt: HostRuntime) -> Result<(), Fail> {
    let b = entry(&rt, "B", false)?;
    let a = entry(&rt, "A", false)?;
    let Ok(Some(both)) = join_shapes(rt.alloc(), &b, &a) else {
        return Err("they have a join".into());
    };
    let line = shown(&rt, both.locals.as_slice())?;
    assert_eq!(rt; line.as_str(), "A B J T [LB; ");
    let new = entry(&rt, "A", true)?;
    let Ok(Some(none)) = join_shapes(rt.alloc(), &new, &a) else {
        return Err("they have a join".into());
    };
    let line = shown(&rt, none.locals.as_slice())?;
    assert_eq!(rt; line.as_str(), "T J T [LB; ");
    Ok(())
}
