//! Shapes of code by its bytes and the constants of its class.

use crate::made::{shape, shown};
use je_base::{Run, Text};
use je_consts::Consts;
use je_desc::{JType, MethodType};
use je_instr::{Decoded, RawHandler, decode};
use je_least::ShapeFault;
use je_shapes::{allows_program, shapes};
use sqlite_items::Items;
use std::test::*;

/// A pool of which the fourth entry is the class `A` and the sixth its constructor `A.<init>()V`.
const POOL: &[u8] = b"\x00\x07\x01\x00\x01A\x01\x00\x06<init>\x01\x00\x03()V\
      \x07\x00\x01\x0c\x00\x02\x00\x03\x0a\x00\x04\x00\x05";

/// `new A`, `dup`, `invokespecial A.<init>`, `astore_0`, `return`; and `astore_0`, `return`, which
/// handles each A that is thrown up to the first `return`.
const CODE: &[u8] = &[0xbb, 0, 4, 0x59, 0xb7, 0, 6, 0x4b, 0xb1, 0x4b, 0xb1];

const TABLE: &[RawHandler] = &[RawHandler {
    start: 0,
    end: 8,
    target: 9,
    catch_const: 4,
}];

fn pool(rt: &HostRuntime) -> Result<Consts, Fail> {
    let bytes = Run::of_vec(rt.alloc(), Vec::from_slice(rt.alloc(), POOL)?)?;
    match Consts::read(rt.alloc(), &bytes, 0) {
        Ok((consts, _)) => Ok(consts),
        Err(_) => Err("no pool".into()),
    }
}

fn program(rt: &HostRuntime, consts: &Consts) -> Result<Decoded, Fail> {
    match decode(rt.alloc(), CODE, TABLE, consts) {
        Ok(decoded) => Ok(decoded),
        Err(_) => Err("no program".into()),
    }
}

/// The shapes of the code in class A, as they are shown, or the fault, with a result or none.
fn lines(rt: &HostRuntime, of: Option<JType>) -> Result<String, Fail> {
    let alloc = rt.alloc();
    let consts = pool(rt)?;
    let decoded = program(rt, &consts)?;
    let m = MethodType {
        params: Items::new(alloc),
        result: of,
    };
    let Ok(class) = Text::of(alloc, "A") else {
        return Err("a text is made".into());
    };
    let entry = shape(alloc, Items::new(alloc));
    let program = &decoded.program;
    if !allows_program(&consts, program) {
        return Err("the constants allow it".into());
    }
    match shapes(alloc, &class, program, &consts, &entry, &[], Some(&m)) {
        Ok(found) => match shown(alloc, found.list.as_slice()) {
            Ok(text) => Ok(text),
            Err(_) => Err("shapes are shown".into()),
        },
        Err(ShapeFault::BadCode(at)) => Ok(format!(in alloc; "bad code {at}")?),
        Err(ShapeFault::Memory) => Err("there is memory".into()),
    }
}

#[test]
fn code_has_shapes(rt: HostRuntime) -> Result<(), Fail> {
    let text = lines(&rt, None)?;
    assert_eq!(rt;
        text.as_str(),
        " |\n new0 |\n new0 new0 |\n A |\n | A\n A |\n | A\n"
    );
    let text = lines(&rt, Some(JType::Int))?;
    assert_eq!(rt; text.as_str(), "bad code 4");
    Ok(())
}
