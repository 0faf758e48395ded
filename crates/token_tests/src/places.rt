use crate::shown::is;
use je_base::Pos;
use je_tokens::text_end;
use std::test::Fail;

#[test]
fn comments_are_passed_over(rt: HostRuntime) -> Result<(), Fail> {
    assert!(rt; is(&rt, "/* * / ** */x", "12-13 1:13 ident x")?);
    assert!(rt; is(&rt, "/**/x", "4-5 1:5 ident x")?);
    assert!(rt; is(&rt, "// a\nx", "5-6 2:1 ident x")?);
    assert!(rt; is(&rt, "// a", "")?);
    assert!(rt; is(&rt, "a /*/", "1:3 Unclosed")?);
    Ok(())
}

#[test]
fn columns_are_characters(rt: HostRuntime) -> Result<(), Fail> {
    assert!(rt;
        is(
            &rt,
            "\"\u{e9}\" x",
            "0-4 1:1 string \u{e9}, 5-6 1:5 ident x"
        )?
    );
    assert!(rt; is(&rt, "\t\r\n\u{c} x", "5-6 2:3 ident x")?);
    Ok(())
}

#[test]
fn the_end_of_a_text(rt: HostRuntime) -> Result<(), Fail> {
    assert_eq!(rt; text_end(""), Pos { line: 1, column: 1 });
    assert_eq!(rt; text_end("a\nb\u{e9}"), Pos { line: 2, column: 3 });
    Ok(())
}
