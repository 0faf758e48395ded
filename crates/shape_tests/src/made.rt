//! Operations, programs and shapes, made and shown.

use je_base::{Memory, Run, Text};
use je_consts::MemberTag;
use je_shape::{Shape, Slot, reference};
use je_value::{
    Action, ActionForm, Basic, BasicForm, Content, ContentForm, Element, FieldType, Handler, Kind,
    KindForm, MethodTypes, Operation, OperationForm, Program, Sort, Value, ValueForm,
};
use sqlite_items::Items;
use std::alloc::Global;

/// The operation of what works on the stack and the outside alone.
pub fn basic(form: BasicForm) -> Operation {
    Operation::of(OperationForm::Do(Basic::of(form)))
}

/// aconst_null to ldc2_w.
pub fn push(form: ValueForm) -> Operation {
    basic(BasicForm::Push(Value::of(form)))
}

/// aload of a slot.
pub fn aload(slot: usize) -> Operation {
    Operation::of(OperationForm::Load(Kind::of(KindForm::Reference), slot))
}

/// astore to a slot.
pub fn astore(slot: usize) -> Operation {
    Operation::of(OperationForm::Store(Kind::of(KindForm::Reference), slot))
}

/// istore, lstore, fstore or dstore to a slot.
pub fn store(form: KindForm, slot: usize) -> Operation {
    Operation::of(OperationForm::Store(Kind::of(form), slot))
}

/// goto.
pub fn goto(target: usize) -> Operation {
    Operation::of(OperationForm::Goto(target))
}

/// return.
pub fn leave() -> Operation {
    Operation::of(OperationForm::Return(None))
}

/// dup.
pub fn dup() -> Operation {
    basic(BasicForm::Copy(1, 0))
}

fn act(form: ActionForm) -> Operation {
    basic(BasicForm::Act(Action::of(form)))
}

fn run(alloc: Global, text: &[u8]) -> Result<Run, Memory> {
    Run::of_vec(alloc, Vec::from_slice(alloc, text)?)
}

/// new.
pub fn new(alloc: Global, class: &[u8]) -> Result<Operation, Memory> {
    Ok(act(ActionForm::New(run(alloc, class)?)))
}

/// checkcast.
pub fn cast(alloc: Global, class: &[u8]) -> Result<Operation, Memory> {
    Ok(act(ActionForm::CheckCast(run(alloc, class)?)))
}

/// aaload.
pub fn aaload() -> Operation {
    act(ActionForm::LoadElement(Element::References))
}

/// A call of a method `()V`, by invokespecial or invokevirtual.
pub fn call(alloc: Global, sort: Sort, class: &[u8], name: &[u8]) -> Result<Operation, Memory> {
    let method = Content::of(ContentForm::Member(
        MemberTag::Method,
        run(alloc, class)?,
        run(alloc, name)?,
        run(alloc, b"()V")?,
    ));
    let params: Items<FieldType> = Items::new(alloc);
    let types = MethodTypes::of(params, None);
    Ok(act(ActionForm::Invoke(sort, method, types)))
}

/// A constructor `()V` is called.
pub fn init(alloc: Global, class: &[u8]) -> Result<Operation, Memory> {
    call(alloc, Sort::Special, class, b"<init>")
}

/// A program of these operations, and a handler of all from an index up to another.
pub fn program(
    alloc: Global,
    operations: Items<Operation>,
    handler: Option<(usize, usize, usize)>,
) -> Result<Program, Memory> {
    let mut handlers = Items::new(alloc);
    if let Some((start, end, target)) = handler {
        handlers.push(Handler::of(start, end, target, None))?;
    }
    Ok(Program::of(Items::new(alloc), operations, handlers))
}

/// A reference to an object of a class.
pub fn object(alloc: Global, class: &str) -> Result<Slot, Memory> {
    reference(alloc, Text::of(alloc, class)?)
}

/// The shape of these local variables, with nothing on the stack.
pub fn shape(alloc: Global, locals: Items<Slot>) -> Shape {
    Shape {
        stack: Items::new(alloc),
        locals,
    }
}

/// A word for each slot: the names of a reference, `T` for Top, `I` to `D`, `this`, and `new` with
/// its index.
fn put_slots(line: &mut String, slots: &[Slot]) -> Result<(), Memory> {
    for slot in slots {
        match slot {
            Slot::Top => line.push_str(" T")?,
            Slot::Int => line.push_str(" I")?,
            Slot::Float => line.push_str(" F")?,
            Slot::Long => line.push_str(" J")?,
            Slot::Double => line.push_str(" D")?,
            Slot::Null => line.push_str(" null")?,
            Slot::UninitThis => line.push_str(" this")?,
            Slot::Uninit(new) => write!(line, " new{new}")?,
            Slot::Ref(names) => put_names(line, names.as_slice())?,
        }
    }
    Ok(())
}

fn put_names(line: &mut String, names: &[Text]) -> Result<(), Memory> {
    let mut mark = " ";
    for name in names {
        line.push_str(mark)?;
        line.push_str(&name.show()?)?;
        mark = "/";
    }
    Ok(())
}

/// The shape of each index: the stack, its top first, a bar, and the local variables; `-` where it
/// is not reached.
pub fn shown(alloc: Global, shapes: &[Option<Shape>]) -> Result<String, Memory> {
    let mut text = String::new(alloc);
    for shape in shapes {
        match shape {
            Some(shape) => {
                put_slots(&mut text, shape.stack.as_slice())?;
                text.push_str(" |")?;
                put_slots(&mut text, shape.locals.as_slice())?;
            }
            None => text.push_str(" -")?,
        }
        text.push_str("\n")?;
    }
    Ok(text)
}
