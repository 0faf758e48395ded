use je_session::{Fragment, ScriptStop, parse_script};
use std::test::*;

#[test]
fn script_with_and_without_space(rt: HostRuntime) -> Result<(), Fail> {
    let texts = [
        "class A { method void m() { call A.f { } } }",
        "class A{method void m(){call A.f{}}}",
    ];
    for text in texts {
        let script = parse_script(rt.alloc(), text.as_bytes())
            .ok()
            .ok_or("the text is a script")?;
        assert_eq!(rt; script.class_name.bytes(), b"A".as_slice());
        assert_eq!(rt; script.plan.name.bytes(), b"m".as_slice());
        assert_eq!(rt; script.plan.rules.len(), 1);
        for rule in script.plan.rules.as_slice() {
            assert_eq!(rt; rule.class_name.bytes(), b"A".as_slice());
            assert_eq!(rt; rule.member.bytes(), b"f".as_slice());
            assert_eq!(rt; rule.fragment, Fragment::Empty);
        }
    }
    Ok(())
}

#[test]
fn fragment_that_proceeds(rt: HostRuntime) -> Result<(), Fail> {
    let texts = [
        "class A { method void m() { call A.f { $proceed($$); } } }",
        "class A{method void m(){call A.f{$proceed ( $$ ) ;}}}",
    ];
    for text in texts {
        let script = parse_script(rt.alloc(), text.as_bytes())
            .ok()
            .ok_or("the text is a script")?;
        assert_eq!(rt; script.plan.rules.len(), 1);
        for rule in script.plan.rules.as_slice() {
            assert_eq!(rt; rule.fragment, Fragment::Proceed);
        }
    }
    Ok(())
}

#[test]
fn not_read_yet(rt: HostRuntime) {
    let texts = [
        "",
        "class A { }",
        "class int { method void m() { call A.f { } } }",
        "// A\nclass A { method void m() { call A.f { } } }",
        "class A { method void m() { call A.f { } } } x",
        "classA { method void m() { call A.f { } } }",
        "class A { method void m() { call A.f { $proceed($1); } } }",
        "class A { method void m() { call A.f { $proceed($$) } } }",
        "class A { method void m() { call A.f { $proceed($$); $proceed($$); } } }",
    ];
    for text in texts {
        let result = parse_script(rt.alloc(), text.as_bytes());
        assert!(rt; matches!(result, Err(ScriptStop::NotYet)), "{text}");
    }
}
