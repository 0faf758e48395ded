//! Whole runs over files and sinks in memory.
use je_base::{MemFiles, MemSink};
use je_session::{Status, run};
use samples::{CLASS_A, CLASS_A_WITHOUT_CALL};
use std::process::Abort;
use std::test::Fail;

const SCRIPT: &str = "class A { method void m() { call A.f { } } }";

#[derive(Drop)]
struct Outside {
    files: MemFiles,
    out: MemSink,
    err: MemSink,
}

// The script and the class, with ample room.
fn ample(rt: &HostRuntime, script: &str) -> Result<Outside, Fail> {
    let mut files = MemFiles::new(rt.alloc());
    files.add("s.je", script.as_bytes())?;
    files.add("./A.class", &CLASS_A)?;
    files.room(4, 1000)?;
    let mut out = MemSink::new(rt.alloc());
    out.room(1000)?;
    let mut err = MemSink::new(rt.alloc());
    err.room(1000)?;
    Ok(Outside { files, out, err })
}

fn run_on(rt: &impl AllocGlobal, outside: &mut Outside, words: &[&str]) -> Result<Status, Fail> {
    let mut all = Vec::new(rt.alloc());
    for word in words {
        all.push(String::from_str(rt.alloc(), word)?)?;
    }
    Ok(run(
        rt.alloc(),
        &all,
        &mut outside.files,
        &mut outside.out,
        &mut outside.err,
    ))
}

#[test]
fn memory_with_ample_room(rt: HostRuntime) -> Result<(), Fail> {
    let mut outside = ample(&rt, SCRIPT)?;
    assert_eq!(rt; run_on(&rt, &mut outside, &["s.je"])?, Status::Done);
    assert_eq!(rt;
        outside.out.bytes(),
        b"edited A.m()V matched 1\nwrote out/A.class\n".as_slice()
    );
    assert_eq!(rt; outside.err.bytes(), b"".as_slice());
    let written = outside.files.content("out/A.class").ok_or("written")?;
    assert_eq!(rt; written, CLASS_A_WITHOUT_CALL.as_slice());
    assert_eq!(rt; outside.files.asked().len(), 2);
    for (asked, path) in outside.files.asked().iter().zip(["s.je", "./A.class"]) {
        assert_eq!(rt; asked.as_str(), path);
    }
    assert_eq!(rt; outside.files.writes(), 1);
    Ok(())
}

#[test]
fn proceed_keeps_the_call(rt: HostRuntime) -> Result<(), Fail> {
    let script = "class A { method void m() { call A.f { $proceed($$); } } }";
    let mut outside = ample(&rt, script)?;
    assert_eq!(rt; run_on(&rt, &mut outside, &["s.je"])?, Status::Done);
    assert_eq!(rt;
        outside.out.bytes(),
        b"edited A.m()V matched 1\nwrote out/A.class\n".as_slice()
    );
    assert_eq!(rt; outside.err.bytes(), b"".as_slice());
    let written = outside.files.content("out/A.class").ok_or("written")?;
    assert_eq!(rt; written, CLASS_A.as_slice());
    Ok(())
}

// The status, what standard output got, and what standard error got.
fn expect<R: AllocGlobal + Abort>(
    rt: &R,
    outside: &mut Outside,
    words: &[&str],
    status: Status,
    out: &[u8],
    err: &[u8],
) -> Result<(), Fail> {
    assert_eq!(rt; run_on(rt, outside, words)?, status);
    assert_eq!(rt; outside.out.bytes(), out);
    assert_eq!(rt; outside.err.bytes(), err);
    Ok(())
}

const USAGE: &[u8] =
    b"usage: classedit [--path DIRS] [--out DIR] [--mode edit|check|list|gen] SCRIPT\n";

const EDITED_LINE: &[u8] = b"edited A.m()V matched 1\n";

#[test]
fn refusals(rt: HostRuntime) -> Result<(), Fail> {
    let no_words: [&str; 0] = [];
    expect(
        &rt,
        &mut ample(&rt, SCRIPT)?,
        &no_words,
        Status::Usage,
        b"",
        USAGE,
    )?;
    expect(
        &rt,
        &mut ample(&rt, SCRIPT)?,
        &["s.je", "s.je"],
        Status::Usage,
        b"",
        USAGE,
    )?;
    expect(
        &rt,
        &mut ample(&rt, SCRIPT)?,
        &["-x"],
        Status::Usage,
        b"",
        USAGE,
    )?;
    let mut outside = ample(&rt, SCRIPT)?;
    expect(
        &rt,
        &mut outside,
        &["t.je"],
        Status::Refused,
        b"",
        b"no script t.je\n",
    )?;
    assert_eq!(rt; outside.files.writes(), 0);
    let other = "class Z { method void m() { call A.f { } } }";
    expect(
        &rt,
        &mut ample(&rt, other)?,
        &["s.je"],
        Status::Refused,
        b"",
        b"no class Z\n",
    )?;
    expect(
        &rt,
        &mut ample(&rt, "class A")?,
        &["s.je"],
        Status::Refused,
        b"",
        b"not yet script\n",
    )
}

#[test]
fn refused_classes(rt: HostRuntime) -> Result<(), Fail> {
    let script_b = "class B { method void m() { call A.f { } } }";
    let other_method = "class A { method void q() { call A.f { } } }";
    let mut older = CLASS_A;
    older[7] = 0x30;
    let mut newer = CLASS_A;
    newer[7] = 0x34;
    let mut no_descriptor = CLASS_A;
    no_descriptor[87] = 0x08;
    let mut longer = Vec::from_slice(rt.alloc(), &CLASS_A)?;
    longer.push(0)?;
    // The script, where its class lies, what lies there, and the line that refuses it.
    for (script, path, class, err) in [
        (
            SCRIPT,
            "./A.class",
            older.as_slice(),
            b"bad class A version 48\n".as_slice(),
        ),
        (
            SCRIPT,
            "./A.class",
            &CLASS_A[..3],
            b"bad class A truncated 0\n".as_slice(),
        ),
        (
            SCRIPT,
            "./A.class",
            no_descriptor.as_slice(),
            b"bad class A bad descriptor 86\n".as_slice(),
        ),
        (
            SCRIPT,
            "./A.class",
            longer.as_slice(),
            b"bad class A trailing 114\n".as_slice(),
        ),
        (
            script_b,
            "./B.class",
            CLASS_A.as_slice(),
            b"wrong name B found A\n".as_slice(),
        ),
        (
            SCRIPT,
            "./A.class",
            newer.as_slice(),
            b"not yet class\n".as_slice(),
        ),
        (
            other_method,
            "./A.class",
            CLASS_A.as_slice(),
            b"not yet class\n".as_slice(),
        ),
    ] {
        let mut outside = ample(&rt, script)?;
        outside.files.add(path, class)?;
        expect(&rt, &mut outside, &["s.je"], Status::Refused, b"", err)?;
        assert_eq!(rt; outside.files.writes(), 0);
    }
    Ok(())
}

// The class A with one more constant, an interface, a field and an attribute, and with these
// methods.
fn with_members<R: AllocGlobal>(rt: &R, methods: &[u8]) -> Result<Vec<u8>, Fail> {
    let mut class = Vec::new(rt.alloc());
    for part in [
        &CLASS_A[..8],
        [0, 12].as_slice(),
        &CLASS_A[10..70],
        // the text `I`
        [1, 0, 1, b'I'].as_slice(),
        &CLASS_A[70..76],
        // the interface java/lang/Object
        [0, 1, 0, 4].as_slice(),
        // the field `int f`
        [0, 1, 0, 0, 0, 8, 0, 11, 0, 0].as_slice(),
        methods,
        // the attribute `f` of one byte
        [0, 1, 0, 8, 0, 0, 0, 1, 0xff].as_slice(),
    ] {
        class.extend_from_slice(part)?;
    }
    Ok(class)
}

#[test]
fn other_members_stay(rt: HostRuntime) -> Result<(), Fail> {
    let mut outside = ample(&rt, SCRIPT)?;
    let class = with_members(&rt, &CLASS_A[80..112])?;
    outside.files.add("./A.class", &class)?;
    let out = b"edited A.m()V matched 1\nwrote out/A.class\n".as_slice();
    expect(&rt, &mut outside, &["s.je"], Status::Done, out, b"")?;
    let written = outside.files.content("out/A.class").ok_or("written")?;
    let edited = with_members(&rt, &CLASS_A_WITHOUT_CALL[80..109])?;
    assert_eq!(rt; written, edited.as_slice());
    Ok(())
}

// The class A whose method `m` calls `A.f()V` so many times and returns.
fn with_calls<R: AllocGlobal>(rt: &R, calls: u8) -> Result<Vec<u8>, Fail> {
    let mut class = Vec::new(rt.alloc());
    let code_len = 3 * calls as u16 + 1;
    class.extend_from_slice(&CLASS_A[..94])?;
    class.extend_from_slice(&(12 + code_len).to_be_bytes())?;
    class.extend_from_slice(&CLASS_A[96..102])?;
    class.extend_from_slice(&code_len.to_be_bytes())?;
    for _ in 0..calls {
        class.extend_from_slice(&CLASS_A[104..107])?;
    }
    class.extend_from_slice(&CLASS_A[107..])?;
    Ok(class)
}

#[test]
fn several_matches(rt: HostRuntime) -> Result<(), Fail> {
    let proceed = "class A { method void m() { call A.f { $proceed($$); } } }";
    for (calls, script, proceeds, out) in [
        (
            2,
            SCRIPT,
            false,
            b"edited A.m()V matched 2\nwrote out/A.class\n".as_slice(),
        ),
        (
            12,
            SCRIPT,
            false,
            b"edited A.m()V matched 12\nwrote out/A.class\n".as_slice(),
        ),
        (
            12,
            proceed,
            true,
            b"edited A.m()V matched 12\nwrote out/A.class\n".as_slice(),
        ),
    ] {
        let mut outside = ample(&rt, script)?;
        let class = with_calls(&rt, calls)?;
        outside.files.add("./A.class", &class)?;
        expect(&rt, &mut outside, &["s.je"], Status::Done, out, b"")?;
        let written = outside.files.content("out/A.class").ok_or("written")?;
        let edited = if proceeds {
            class.as_slice()
        } else {
            CLASS_A_WITHOUT_CALL.as_slice()
        };
        assert_eq!(rt; written, edited);
    }
    Ok(())
}

// The class A with a method `void f()` that returns in front of these.
fn with_another_first<R: AllocGlobal>(rt: &R, class: &[u8]) -> Result<Vec<u8>, Fail> {
    let mut longer = Vec::new(rt.alloc());
    let head = class.get(..80).ok_or("a head")?;
    let method = class.get(82..).ok_or("a method")?;
    longer.extend_from_slice(head)?;
    longer.extend_from_slice(&[0, 2, 0, 9, 0, 8, 0, 6, 0, 1, 0, 7, 0, 0, 0, 13])?;
    longer.extend_from_slice(&[0, 0, 0, 0, 0, 0, 0, 1, 0xb1, 0, 0, 0, 0])?;
    longer.extend_from_slice(method)?;
    Ok(longer)
}

#[test]
fn the_planned_method_is_the_second(rt: HostRuntime) -> Result<(), Fail> {
    let mut outside = ample(&rt, SCRIPT)?;
    let class = with_another_first(&rt, &CLASS_A)?;
    outside.files.add("./A.class", &class)?;
    let out = b"edited A.m()V matched 1\nwrote out/A.class\n".as_slice();
    expect(&rt, &mut outside, &["s.je"], Status::Done, out, b"")?;
    let written = outside.files.content("out/A.class").ok_or("written")?;
    let edited = with_another_first(&rt, &CLASS_A_WITHOUT_CALL)?;
    assert_eq!(rt; written, edited.as_slice());
    Ok(())
}

#[test]
fn what_stands_at_the_out_path_is_replaced(rt: HostRuntime) -> Result<(), Fail> {
    let once = b"edited A.m()V matched 1\nwrote out/A.class\n".as_slice();
    let twice =
        b"edited A.m()V matched 1\nwrote out/A.class\nedited A.m()V matched 1\nwrote out/A.class\n";
    for there in [
        b"other bytes".as_slice(),
        CLASS_A.as_slice(),
        CLASS_A_WITHOUT_CALL.as_slice(),
    ] {
        let mut outside = ample(&rt, SCRIPT)?;
        outside.files.add("out/A.class", there)?;
        expect(&rt, &mut outside, &["s.je"], Status::Done, once, b"")?;
        let written = outside.files.content("out/A.class").ok_or("written")?;
        assert_eq!(rt; written, CLASS_A_WITHOUT_CALL.as_slice());
        // The same run once more, over what the first one left.
        expect(&rt, &mut outside, &["s.je"], Status::Done, twice, b"")?;
        let written = outside.files.content("out/A.class").ok_or("written again")?;
        assert_eq!(rt; written, CLASS_A_WITHOUT_CALL.as_slice());
        assert_eq!(rt; outside.files.writes(), 2);
    }
    Ok(())
}

#[test]
fn nothing_matched(rt: HostRuntime) -> Result<(), Fail> {
    let mut outside = ample(&rt, "class A { method void m() { call A.h { } } }")?;
    let out = b"edited A.m()V matched 0\nwrote out/A.class\n".as_slice();
    expect(&rt, &mut outside, &["s.je"], Status::Done, out, b"")?;
    let written = outside.files.content("out/A.class").ok_or("written")?;
    assert_eq!(rt; written, CLASS_A.as_slice());
    Ok(())
}

#[test]
fn files_fail(rt: HostRuntime) -> Result<(), Fail> {
    for (call, out, err) in [
        (
            1,
            b"".as_slice(),
            b"outside fault: reading s.je\n".as_slice(),
        ),
        (
            2,
            b"".as_slice(),
            b"outside fault: reading ./A.class\n".as_slice(),
        ),
        (
            3,
            EDITED_LINE,
            b"outside fault: writing out/A.class\n".as_slice(),
        ),
    ] {
        let mut outside = ample(&rt, SCRIPT)?;
        outside.files.fail_at(call)?;
        expect(&rt, &mut outside, &["s.je"], Status::Outside, out, err)?;
        assert!(rt; outside.files.content("out/A.class").is_none());
    }
    Ok(())
}

#[test]
fn streams_fail(rt: HostRuntime) -> Result<(), Fail> {
    let err = b"outside fault: standard output\n".as_slice();
    let mut outside = ample(&rt, SCRIPT)?;
    outside.out.fail_at(1)?;
    expect(&rt, &mut outside, &["s.je"], Status::Outside, b"", err)?;
    assert!(rt; outside.files.content("out/A.class").is_none());
    let mut outside = ample(&rt, SCRIPT)?;
    outside.out.fail_at(2)?;
    expect(
        &rt,
        &mut outside,
        &["s.je"],
        Status::Outside,
        EDITED_LINE,
        err,
    )?;
    assert!(rt; outside.files.content("out/A.class").is_some());
    let mut outside = ample(&rt, SCRIPT)?;
    outside.err.fail_at(1)?;
    expect(&rt, &mut outside, &["t.je"], Status::Refused, b"", b"")
}
