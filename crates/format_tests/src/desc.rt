use je_desc::{is_class_name, is_field, units};
use std::test::*;

/// So many times the piece, between a front and an end.
fn text(
    rt: &HostRuntime,
    front: &[u8],
    piece: &[u8],
    count: u16,
    end: &[u8],
) -> Result<Vec<u8>, Fail> {
    let mut text = Vec::from_slice(rt.alloc(), front)?;
    for _ in 0..count {
        text.extend_from_slice(piece)?;
    }
    text.extend_from_slice(end)?;
    Ok(text)
}

#[test]
fn field_descriptors(rt: HostRuntime) -> Result<(), Fail> {
    let table: [(&[u8], bool); 16] = [
        (b"I", true),
        (b"Z", true),
        (b"[I", true),
        (b"[[J", true),
        (b"Ljava/lang/Object;", true),
        (b"[LA;", true),
        (b"", false),
        (b"[", false),
        (b"V", false),
        (b"II", false),
        (b"L;", false),
        (b"LA", false),
        (b"LA;I", false),
        (b"La.b;", false),
        (b"L[A;", false),
        (b"A", false),
    ];
    for (bytes, is) in table {
        assert_eq!(rt; is_field(bytes), is, "at {bytes:?}");
    }
    assert!(rt; is_field(&text(&rt, b"", b"[", 255, b"I")?));
    assert!(rt; !is_field(&text(&rt, b"", b"[", 256, b"I")?));
    Ok(())
}

#[test]
fn units_of_method_descriptors(rt: HostRuntime) -> Result<(), Fail> {
    let table: [(&[u8], Option<u32>); 14] = [
        (b"()V", Some(0)),
        (b"()I", Some(0)),
        (b"()J", Some(0)),
        (b"(IJ)V", Some(3)),
        (b"(DLA;)[D", Some(3)),
        (b"([J)J", Some(1)),
        (b"", None),
        (b"(", None),
        (b"()", None),
        (b"(I)", None),
        (b"(V)V", None),
        (b"()VV", None),
        (b"I()V", None),
        (b"(LA)V", None),
    ];
    for (bytes, count) in table {
        assert_eq!(rt; units(bytes), count, "at {bytes:?}");
    }
    assert_eq!(rt; units(&text(&rt, b"(", b"I", 255, b")V")?), Some(255));
    assert_eq!(rt; units(&text(&rt, b"(", b"I", 256, b")V")?), None);
    assert_eq!(rt; units(&text(&rt, b"(", b"J", 127, b"I)V")?), Some(255));
    assert_eq!(rt; units(&text(&rt, b"(", b"J", 128, b")V")?), None);
    Ok(())
}
