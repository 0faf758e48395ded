use crate::shown::{is, shown};
use std::test::Fail;

#[test]
fn character_literals(rt: HostRuntime) -> Result<(), Fail> {
    assert!(rt; is(&rt, "'a'", "0-3 1:1 character 97")?);
    assert!(rt; is(&rt, "'\\''", "0-4 1:1 character 39")?);
    assert!(rt; is(&rt, "'\\377'", "0-6 1:1 character 255")?);
    assert!(rt; is(&rt, "'\\uD83d'", "0-8 1:1 character 55357")?);
    assert!(rt; is(&rt, "''", "1:1 BadChar")?);
    assert!(rt; is(&rt, "'ab'", "1:1 BadChar")?);
    assert!(rt; is(&rt, "'\u{1f600}'", "1:1 BadChar")?);
    assert!(rt; is(&rt, "'\\400'", "1:1 BadChar")?);
    assert!(rt; is(&rt, "'\\q'", "1:1 BadEscape")?);
    assert!(rt; is(&rt, "'a", "1:1 Unclosed")?);
    Ok(())
}

#[test]
fn string_literals(rt: HostRuntime) -> Result<(), Fail> {
    assert!(rt; is(&rt, "\"a\\u0041\\x\"", "1:1 BadEscape")?);
    assert!(rt; is(&rt, "\"a\\u0041b\"", "0-10 1:1 string aAb")?);
    assert!(rt; is(&rt, "\"\\400\"", "0-6 1:1 string  0")?);
    assert!(rt; is(&rt, "\"\\\"\\\\\"", "0-6 1:1 string \"\\")?);
    assert!(rt; is(&rt, "\"\\ud83d\\ude00\"", "0-14 1:1 string \u{1f600}")?);
    assert!(rt; is(&rt, "\"\\u12\"", "1:1 BadEscape")?);
    assert!(rt; is(&rt, "x \"a\nb\"", "1:3 Unclosed")?);
    assert!(rt; is(&rt, "\"\\q", "1:1 Unclosed")?);
    Ok(())
}

#[test]
fn long_string_literals(rt: HostRuntime) -> Result<(), Fail> {
    assert!(rt; shown(&rt, &quoted(&rt, 65535)?)?.starts_with("0-65537 1:1 string"));
    assert!(rt; is(&rt, &quoted(&rt, 65536)?, "1:1 LiteralTooLong")?);
    Ok(())
}

/// A string literal of so many characters.
fn quoted(rt: &HostRuntime, count: u32) -> Result<String, Fail> {
    let mut text = String::new(rt.alloc());
    text.push('"')?;
    for _ in 0..count {
        text.push('a')?;
    }
    text.push('"')?;
    Ok(text)
}
