use je_type::{method_text, parse_method};
use std::test::*;

/// How many parameters there are, where the text are the bytes again; `None` where they are no
/// descriptor.
fn params(rt: &HostRuntime, bytes: &[u8]) -> Result<Option<usize>, Fail> {
    let Some(m) = parse_method(rt.alloc(), bytes)? else {
        return Ok(None);
    };
    if method_text(rt.alloc(), &m)?.bytes() != bytes {
        return Err("the text is another".into());
    }
    Ok(Some(m.params.len()))
}

#[test]
fn types_of_methods(rt: HostRuntime) -> Result<(), Fail> {
    let table: [(&[u8], Option<usize>); 8] = [
        (b"(IJ)V", Some(2)),
        (b"()V", Some(0)),
        (b"()[J", Some(0)),
        (b"(DLA;[[Z)Ljava/lang/Object;", Some(3)),
        (b"(V)V", None),
        (b"()", None),
        (b"(I)", None),
        (b"(LA\xff;)V", None),
    ];
    for (bytes, count) in table {
        assert_eq!(rt; params(&rt, bytes)?, count);
    }
    Ok(())
}

#[test]
fn no_result_is_void(rt: HostRuntime) -> Result<(), Fail> {
    let m = parse_method(rt.alloc(), b"(IJ)V")?.ok_or("a descriptor")?;
    assert!(rt; m.result.is_none());
    Ok(())
}

/// So many parameters of a letter, and no result.
fn method(rt: &HostRuntime, letter: u8, count: u16) -> Result<Vec<u8>, Fail> {
    let mut bytes = Vec::from_slice(rt.alloc(), b"(")?;
    for _ in 0..count {
        bytes.push(letter)?;
    }
    bytes.extend_from_slice(b")V")?;
    Ok(bytes)
}

#[test]
fn most_units(rt: HostRuntime) -> Result<(), Fail> {
    assert_eq!(rt; params(&rt, &method(&rt, b'I', 255)?)?, Some(255));
    assert_eq!(rt; params(&rt, &method(&rt, b'I', 256)?)?, None);
    assert_eq!(rt; params(&rt, &method(&rt, b'J', 127)?)?, Some(127));
    assert_eq!(rt; params(&rt, &method(&rt, b'J', 128)?)?, None);
    Ok(())
}
