use je_base::Text;
use je_builtin::{built_in, built_ins};
use std::test::Fail;

/// How many methods the built-in class of this name has.
fn methods_of(rt: &HostRuntime, bytes: &[u8]) -> Result<Option<usize>, Fail> {
    let name = Text::from_bytes(rt.alloc(), bytes)?.ok_or("a text")?;
    match built_in(rt.alloc(), &name)? {
        Some(class) => Ok(Some(class.methods.len())),
        None => Ok(None),
    }
}

#[test]
fn a_built_in_class_is_found_by_its_name(rt: HostRuntime) -> Result<(), Fail> {
    let table: [(&[u8], Option<usize>); 5] = [
        (b"java/lang/Object", Some(5)),
        (b"java/lang/Void", Some(0)),
        (b"java/io/PrintStream", Some(17)),
        (b"java.lang.Object", None),
        (b"java/lang/Iterable", None),
    ];
    for (bytes, want) in table {
        if methods_of(&rt, bytes)? != want {
            return Err("another class was wanted".into());
        }
    }
    Ok(())
}

#[test]
fn there_are_thirty_eight_built_in_classes(rt: HostRuntime) -> Result<(), Fail> {
    let classes = built_ins(rt.alloc())?;
    if classes.len() != 38 {
        return Err("another number was wanted".into());
    }
    Ok(())
}
