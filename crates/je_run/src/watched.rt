//! The least shapes of a method, and whether the frames of its run have them.

use crate::method::{code_in, code_of, member_named};
use crate::stop::Stop;
use je_base::{Memory, Run};
use je_class::{ClassFile, Member};
use je_least::{ShapeFault, Shapes};
use je_shape::{Shape, entry_shape};
use je_shapes::{allows_program, shapes};
use je_type::parse_method;
use je_vm::State;
use je_watch::fits_known;
use std::alloc::Global;

/// The flag of a static method (JVMS table 4.6-A).
const ACC_STATIC: u16 = 0x0008;

/// The name of constructors (JVMS 2.9).
const CONSTRUCTOR: &[u8] = b"<init>";

/// The least shapes of a method with this code, or the index of its first fault. No frames are
/// given.
fn shapes_of(
    alloc: Global,
    class: &ClassFile,
    method: &Member,
    name: &[u8],
    descriptor: &[u8],
    code: &Run,
) -> Result<Result<Shapes, u32>, Stop> {
    let consts = class.consts();
    let Some(types) = parse_method(alloc, descriptor)? else {
        return Err(Stop::NotRead);
    };
    let Some(code) = code_in(alloc, code, consts)? else {
        return Err(Stop::NotRead);
    };
    let program = &code.decoded.program;
    if !allows_program(consts, program) {
        return Err(Stop::NotRead);
    }
    let is_static = method.access & ACC_STATIC != 0;
    let class_name = class.this_name();
    let entry = entry_shape(alloc, class_name, is_static, name == CONSTRUCTOR, &types)?;
    match shapes(
        alloc,
        class_name,
        program,
        consts,
        &entry,
        &[],
        Some(&types),
    ) {
        Ok(found) => Ok(Ok(found)),
        Err(ShapeFault::BadCode(at)) => Ok(Err(at)),
        Err(ShapeFault::Memory) => Err(Stop::Memory),
    }
}

/// The least shapes of the method of a name and a descriptor, or the index of its first fault.
pub fn shapes_named(
    alloc: Global,
    class: &ClassFile,
    name: &[u8],
    descriptor: &[u8],
) -> Result<Result<Shapes, u32>, Stop> {
    let Some(method) = member_named(class, name, descriptor) else {
        return Err(Stop::NotRead);
    };
    let Some(attribute) = code_of(class.consts(), method) else {
        return Err(Stop::NotRead);
    };
    shapes_of(alloc, class, method, name, descriptor, &attribute.bytes)
}

/// The state, after a line where its frame has not the shape of its index.
pub fn watched(shapes: &[Option<Shape>], state: State, text: &mut String) -> Result<State, Memory> {
    let (place, frame, outside) = state.into_parts();
    if !fits_known(shapes, place, &frame) {
        write!(text, "unfit {place}\n")?;
    }
    Ok(State::of(place, frame, outside))
}
