use je_desc::JType;
use je_type::{parse_field, source_text, text};
use sqlite_items::Boxed;
use std::test::*;

/// The type in source, where its text are the bytes again; `-` where they are no descriptor.
fn source(rt: &HostRuntime, bytes: &[u8]) -> Result<String, Fail> {
    let Some(t) = parse_field(rt.alloc(), bytes)? else {
        return Ok(String::from_str(rt.alloc(), "-")?);
    };
    if text(rt.alloc(), &t)?.bytes() != bytes {
        return Err("the text is another".into());
    }
    Ok(source_text(rt.alloc(), &t)?)
}

#[test]
fn types_of_descriptors(rt: HostRuntime) -> Result<(), Fail> {
    let table: [(&[u8], &str); 9] = [
        (b"Z", "boolean"),
        (b"B", "byte"),
        (b"C", "char"),
        (b"S", "short"),
        (b"I", "int"),
        (b"J", "long"),
        (b"F", "float"),
        (b"D", "double"),
        (b"[I", "int[]"),
    ];
    for (bytes, want) in table {
        assert_eq!(rt; source(&rt, bytes)?.as_str(), want);
    }
    Ok(())
}

#[test]
fn types_with_names(rt: HostRuntime) -> Result<(), Fail> {
    let table: [(&[u8], &str); 6] = [
        (b"LA;", "A"),
        (b"Ljava/lang/String;", "java.lang.String"),
        (b"Ljava/util/Map$Entry;", "java.util.Map$Entry"),
        (b"[[Ljava/lang/Object;", "java.lang.Object[][]"),
        (b"La/\xc3\xa9;", "a.\u{e9}"),
        (b"La/\xed\xa0\xbd;", "a.\\xed\\xa0\\xbd"),
    ];
    for (bytes, want) in table {
        assert_eq!(rt; source(&rt, bytes)?.as_str(), want);
    }
    Ok(())
}

#[test]
fn no_types(rt: HostRuntime) -> Result<(), Fail> {
    let table: [&[u8]; 8] = [b"", b"[", b"V", b"II", b"L;", b"LA", b"La.b;", b"LA\xff;"];
    for bytes in table {
        assert_eq!(rt; source(&rt, bytes)?.as_str(), "-");
    }
    Ok(())
}

/// So many `[` and an `I`.
fn array(rt: &HostRuntime, dimensions: u16) -> Result<Vec<u8>, Fail> {
    let mut bytes = Vec::new(rt.alloc());
    for _ in 0..dimensions {
        bytes.push(b'[')?;
    }
    bytes.push(b'I')?;
    Ok(bytes)
}

#[test]
fn most_dimensions(rt: HostRuntime) -> Result<(), Fail> {
    assert_eq!(rt; source(&rt, &array(&rt, 255)?)?.len(), 3 + 2 * 255);
    assert_eq!(rt; source(&rt, &array(&rt, 256)?)?.as_str(), "-");
    Ok(())
}

/// An array of so many dimensions, which may have no descriptor.
fn deep(rt: &HostRuntime, dimensions: u16) -> Result<JType, Fail> {
    let mut t = JType::Int;
    for _ in 0..dimensions {
        t = JType::Array(Boxed::new(rt.alloc(), t)?);
    }
    Ok(t)
}

#[test]
fn more_dimensions_than_a_descriptor_has(rt: HostRuntime) -> Result<(), Fail> {
    let t = deep(&rt, 256)?;
    assert_eq!(rt; text(rt.alloc(), &t)?.bytes(), array(&rt, 256)?.as_slice());
    assert_eq!(rt; source_text(rt.alloc(), &t)?.len(), 3 + 2 * 256);
    Ok(())
}
