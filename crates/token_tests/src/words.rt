use crate::shown::{is, shown};
use std::test::Fail;

#[test]
fn words_marks_and_their_places(rt: HostRuntime) -> Result<(), Fail> {
    assert_eq!(rt;
        shown(&rt, "{ $_ = 1; }")?.as_str(),
        "0-1 1:1 {, 2-4 1:3 dollar $_, 5-6 1:6 =, 7-8 1:8 1 decimal, 8-9 1:9 ;, 10-11 1:11 }"
    );
    assert_eq!(rt;
        shown(&rt, "if a$b _1 true $$ $")?.as_str(),
        "0-2 1:1 reserved if, 3-6 1:4 ident a$b, 7-9 1:8 ident _1, 10-14 1:11 reserved true, \
         15-17 1:16 dollar $$, 18-19 1:19 dollar $"
    );
    Ok(())
}

#[test]
fn marks_are_as_long_as_they_can_be(rt: HostRuntime) -> Result<(), Fail> {
    assert!(rt;
        is(
            &rt,
            "a>>>=b",
            "0-1 1:1 ident a, 1-5 1:2 >>>=, 5-6 1:6 ident b"
        )?
    );
    assert!(rt; is(&rt, ">>>>", "0-3 1:1 >>>, 3-4 1:4 >")?);
    assert!(rt; is(&rt, "+++", "0-2 1:1 ++, 2-3 1:3 +")?);
    assert!(rt; is(&rt, "->", "0-1 1:1 -, 1-2 1:2 >")?);
    Ok(())
}

#[test]
fn no_token_begins_so(rt: HostRuntime) -> Result<(), Fail> {
    assert!(rt; is(&rt, "a @", "1:3 BadChar")?);
    assert!(rt; is(&rt, "\u{e9}", "1:1 BadChar")?);
    assert!(rt; is(&rt, "x \\u0041", "1:3 BadChar")?);
    Ok(())
}

#[test]
fn names_have_a_thousand_characters(rt: HostRuntime) -> Result<(), Fail> {
    let mut name = String::new(rt.alloc());
    for _ in 0..1000 {
        name.push('a')?;
    }
    assert!(rt; shown(&rt, &name)?.starts_with("0-1000 1:1 ident"));
    name.push('$')?;
    assert!(rt; is(&rt, &name, "1:1 NameTooLong")?);
    Ok(())
}
