use je_base::{
    Cut, Failed, FileStop, Files, FsFiles, MemFiles, MemSink, Run, Sink, StdSink, Text,
    decode_text, encode_text, put_u16, put_u32, put_u64, run_at, u8_at, u16_at, u32_at, u64_at,
};
use std::fs;
use std::hash::{DefaultHasher, Hash, Hasher};
use std::test::Fail;

#[test]
fn numbers_and_runs_of_a_format(rt: HostRuntime) -> Result<(), Fail> {
    let mut out = Vec::new(rt.alloc());
    out.push(0x01)?;
    put_u16(&mut out, 0x0203)?;
    put_u32(&mut out, 0x0405_0607)?;
    put_u64(&mut out, 0x0809_0a0b_0c0d_0e0f)?;
    let bytes = b"\x01\x02\x03\x04\x05\x06\x07\x08\x09\x0a\x0b\x0c\x0d\x0e\x0f".as_slice();
    assert_eq!(rt; out.as_slice(), bytes);
    assert_eq!(rt; u8_at(bytes, 0), Ok((0x01, 1)));
    assert_eq!(rt; u16_at(bytes, 1), Ok((0x0203, 3)));
    assert_eq!(rt; u32_at(bytes, 3), Ok((0x0405_0607, 7)));
    assert_eq!(rt; u64_at(bytes, 7), Ok((0x0809_0a0b_0c0d_0e0f, 15)));
    assert_eq!(rt; run_at(bytes, 12, 3), Ok((b"\x0d\x0e\x0f".as_slice(), 15)));
    assert_eq!(rt; u8_at(bytes, 15), Err(Cut(15)));
    assert_eq!(rt; u16_at(bytes, 14), Err(Cut(14)));
    assert_eq!(rt; u32_at(bytes, 12), Err(Cut(12)));
    assert_eq!(rt; u64_at(bytes, 8), Err(Cut(8)));
    assert_eq!(rt; run_at(bytes, 12, 4), Err(Cut(12)));
    Ok(())
}

/// A part of a run of seven bytes, and a text of a part of it.
fn parts_of_a_run(rt: &HostRuntime) -> Result<(Run, Text), Fail> {
    let bytes = Vec::from_slice(rt.alloc(), b"\x00\x04Code\x00")?;
    let run = Run::of_vec(rt.alloc(), bytes)?;
    if run.len() != 7 {
        return Err("seven bytes".into());
    }
    if Text::of_part(&run, 0, 2)?.is_some() {
        return Err("no text".into());
    }
    let text = Text::of_part(&run, 2, 6)?.ok_or("a text")?;
    Ok((run.part(1, 6)?, text))
}

#[test]
fn parts_stay_without_their_run(rt: HostRuntime) -> Result<(), Fail> {
    let (part, text) = parts_of_a_run(&rt)?;
    assert_eq!(rt; part.copy()?.as_slice(), b"\x04Code".as_slice());
    assert_eq!(rt; text.copy()?.bytes(), b"Code".as_slice());
    Ok(())
}

#[test]
fn texts_are_modified_utf8(rt: HostRuntime) -> Result<(), Fail> {
    let table: [(&[u8], bool); 8] = [
        (b"", true),
        (b"Code", true),
        (b"\xc0\x80", true),
        (b"\xed\xa0\xbd", true),
        (b"\x00", false),
        (b"\xed\xa0", false),
        (b"\x80", false),
        (b"\xf0\x9f\x98\x80", false),
    ];
    for (bytes, is_text) in table {
        let text = Text::from_bytes(rt.alloc(), bytes)?;
        assert_eq!(rt; text.is_some(), is_text, "at {bytes:?}");
        if let Some(text) = text {
            assert_eq!(rt; text.copy()?.bytes(), bytes);
        }
    }
    Ok(())
}

#[test]
fn strings_are_encoded(rt: HostRuntime) -> Result<(), Fail> {
    let table: [(&str, &[u8]); 5] = [
        ("", b""),
        ("A", b"\x41"),
        ("\0", b"\xc0\x80"),
        ("\u{e9}\u{20ac}", b"\xc3\xa9\xe2\x82\xac"),
        ("\u{1f600}", b"\xed\xa0\xbd\xed\xb8\x80"),
    ];
    for (string, bytes) in table {
        let text = Text::of(rt.alloc(), string)?;
        assert_eq!(rt; text.bytes(), bytes);
        let encoded = encode_text(rt.alloc(), string)?;
        assert_eq!(rt; encoded.as_slice(), bytes);
        let decoded = decode_text(rt.alloc(), bytes)?;
        assert!(rt;
            matches!(&decoded, Some(found) if found.as_str() == string),
            "at {bytes:?}"
        );
    }
    Ok(())
}

#[test]
fn texts_are_in_the_order_of_their_bytes(rt: HostRuntime) -> Result<(), Fail> {
    let strings = ["", "A", "AB", "B", "\0", "\u{e9}", "\u{20ac}"];
    for (i, string) in strings.iter().enumerate() {
        let text = Text::of(rt.alloc(), string)?;
        for (j, other) in strings.iter().enumerate() {
            let other = Text::of(rt.alloc(), other)?;
            assert_eq!(rt; text == other, i == j);
            assert!(rt; text.cmp(&other) == i.cmp(&j));
            assert_eq!(rt; hash_of(&text) == hash_of(&other), i == j);
        }
    }
    Ok(())
}

fn hash_of(text: &Text) -> u64 {
    let mut state = DefaultHasher::new();
    text.hash(&mut state);
    state.finish()
}

#[test]
fn other_bytes_encode_no_string(rt: HostRuntime) -> Result<(), Fail> {
    let table: [&[u8]; 8] = [
        b"\x00",
        b"\x80",
        b"\xc1\x81",
        b"\xe0\x81\x81",
        b"\xed\xa0",
        b"\xed\xa0\xbd",
        b"\xed\xb8\x80\xed\xa0\xbd",
        b"\xf0\x9f\x98\x80",
    ];
    for bytes in table {
        let decoded = decode_text(rt.alloc(), bytes)?;
        assert!(rt; decoded.is_none(), "at {bytes:?}");
    }
    Ok(())
}

#[test]
fn texts_are_shown(rt: HostRuntime) -> Result<(), Fail> {
    let table: [(&[u8], &str); 5] = [
        (b"Code", "Code"),
        (b"\xc3\xa9\x7f", "\u{e9}\u{7f}"),
        (b"\xc0\x80", "\\xc0\\x80"),
        (b"\xed\xa0\xbd", "\\xed\\xa0\\xbd"),
        (b"a~\n\x7f", "a~\\x0a\\x7f"),
    ];
    for (bytes, shown) in table {
        let Some(text) = Text::from_bytes(rt.alloc(), bytes)? else {
            panic!(rt; "no text at {bytes:?}");
        };
        assert_eq!(rt; text.show()?.as_str(), shown);
    }
    Ok(())
}

#[test]
fn a_read_fails_where_it_was_told_to(rt: HostRuntime) -> Result<(), Fail> {
    let mut files = MemFiles::new(rt.alloc());
    files.add("a", b"old")?;
    files.add("a", b"xyz")?;
    files.fail_at(2)?;
    let front = files.read("a", 2);
    assert!(rt; matches!(&front, Ok(Some(bytes)) if bytes.as_slice() == b"xy".as_slice()));
    let failed = files.read("a", 2);
    assert!(rt; matches!(&failed, Err(FileStop::Failed)));
    assert_eq!(rt; (files.reads(), files.writes(), files.faults()), (2, 0, 1));
    let absent = files.read("b", 2);
    assert!(rt; matches!(&absent, Ok(None)));
    assert_eq!(rt; files.asked().len(), 3);
    assert_eq!(rt; files.asked()[2].as_str(), "b");
    Ok(())
}

#[test]
fn writes_use_up_the_room(rt: HostRuntime) -> Result<(), Fail> {
    let mut files = MemFiles::new(rt.alloc());
    assert!(rt; files.write("a", b"") == Err(Failed));
    files.room(1, 4)?;
    files.add("c", b"old")?;
    assert!(rt; files.write("ab", b"xyz") == Err(Failed));
    assert!(rt; files.write("ab", b"xy") == Ok(()));
    assert!(rt; files.write("c", b"z") == Err(Failed));
    assert!(rt; files.content("ab") == Some(b"xy".as_slice()));
    assert!(rt; files.content("c") == Some(b"old".as_slice()));
    assert!(rt; files.content("a").is_none());
    assert_eq!(rt; (files.reads(), files.writes(), files.faults()), (0, 4, 3));
    Ok(())
}

#[test]
fn puts_use_up_the_room(rt: HostRuntime) -> Result<(), Fail> {
    let mut sink = MemSink::new(rt.alloc());
    sink.room(1)?;
    sink.fail_at(1)?;
    assert!(rt; sink.put(b"a") == Err(Failed));
    assert!(rt; sink.put(b"b") == Ok(()));
    assert!(rt; sink.put(b"c") == Err(Failed));
    assert!(rt; sink.put(b"") == Ok(()));
    assert_eq!(rt; sink.bytes(), b"b".as_slice());
    assert_eq!(rt; (sink.puts(), sink.faults()), (4, 2));
    Ok(())
}

#[test]
fn a_written_file_is_read(rt: HostRuntime) -> Result<(), Fail> {
    let mut files = FsFiles::new(rt.alloc(), rt.clone()?);
    assert!(rt; files.write("je_base_tests/deep/a", b"xyz") == Ok(()));
    assert!(rt; files.write("je_base_tests/deep/a/b", b"xyz") == Err(Failed));
    let front = files.read("je_base_tests/deep/a", 2);
    assert!(rt; matches!(&front, Ok(Some(bytes)) if bytes.as_slice() == b"xy".as_slice()));
    let whole = files.read("je_base_tests/deep/a", 100);
    assert!(rt; matches!(&whole, Ok(Some(bytes)) if bytes.as_slice() == b"xyz".as_slice()));
    let absent = files.read("je_base_tests/none", 100);
    assert!(rt; matches!(&absent, Ok(None)));
    let folder = files.read("je_base_tests/deep", 100);
    assert!(rt; matches!(&folder, Err(FileStop::Failed)));
    assert_eq!(rt; (files.reads(), files.writes(), files.faults()), (4, 2, 2));
    fs::remove_dir_all(&rt, "je_base_tests")?;
    Ok(())
}

#[test]
fn a_long_file_is_written_and_read_whole(rt: HostRuntime) -> Result<(), Fail> {
    let mut bytes = Vec::new(rt.alloc());
    for i in 0..0x10_0000u32 {
        bytes.push((i % 251) as u8)?;
    }
    let mut files = FsFiles::new(rt.alloc(), rt.clone()?);
    assert!(rt; files.write("je_base_long/a", &bytes) == Ok(()));
    for limit in [0, 0x1_0000, 0x1_0001, 0x10_0000, usize::MAX] {
        let front = &bytes[..limit.min(bytes.len())];
        let read = files.read("je_base_long/a", limit);
        assert!(rt;
            matches!(&read, Ok(Some(found)) if found.as_slice() == front),
            "at {limit}"
        );
    }
    fs::remove_dir_all(&rt, "je_base_long")?;
    Ok(())
}

#[test]
fn streams_take_pieces(rt: HostRuntime) {
    let mut output = StdSink::output(rt.stdout());
    assert!(rt; output.put(b"one line\n") == Ok(()));
    let mut error = StdSink::error(rt.stderr());
    assert!(rt; error.put(b"") == Ok(()));
    assert_eq!(rt; (output.puts(), output.faults()), (1, 0));
    assert_eq!(rt; (error.puts(), error.faults()), (1, 0));
}
