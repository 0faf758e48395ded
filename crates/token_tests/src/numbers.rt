use crate::shown::is;
use std::test::Fail;

#[test]
fn hexadecimal_and_octal_numbers(rt: HostRuntime) -> Result<(), Fail> {
    assert!(rt; is(&rt, "0x1e", "0-4 1:1 30 int")?);
    assert!(rt; is(&rt, "0x1eL", "0-5 1:1 30 long")?);
    assert!(rt; is(&rt, "0xFd", "0-4 1:1 253 int")?);
    assert!(rt;
        is(
            &rt,
            "010 00 0 0l",
            "0-3 1:1 8 int, 4-6 1:5 0 int, 7-8 1:8 0 decimal, \
        9-11 1:10 0 long decimal"
        )?
    );
    assert!(rt; is(&rt, "08", "0-1 1:1 0 decimal, 1-2 1:2 8 decimal")?);
    assert!(rt; is(&rt, "0x", "0-1 1:1 0 decimal, 1-2 1:2 ident x")?);
    Ok(())
}

#[test]
fn the_greatest_numbers(rt: HostRuntime) -> Result<(), Fail> {
    assert!(rt; is(&rt, "2147483647", "0-10 1:1 2147483647 decimal")?);
    assert!(rt; is(&rt, "2147483648", "1:1 NumberTooLarge")?);
    assert!(rt;
        is(
            &rt,
            "- /* */ 2147483648",
            "0-1 1:1 -, 8-18 1:9 2147483648 decimal"
        )?
    );
    assert!(rt; is(&rt, "-2147483649", "1:2 NumberTooLarge")?);
    assert!(rt; is(&rt, "-(2147483648", "1:3 NumberTooLarge")?);
    assert!(rt;
        is(
            &rt,
            "9223372036854775807L",
            "0-20 1:1 9223372036854775807 long decimal"
        )?
    );
    assert!(rt; is(&rt, "9223372036854775808L", "1:1 NumberTooLarge")?);
    assert!(rt; is(&rt, "0xffffffff", "0-10 1:1 4294967295 int")?);
    assert!(rt; is(&rt, "0x100000000", "1:1 NumberTooLarge")?);
    assert!(rt; is(&rt, "037777777777", "0-12 1:1 4294967295 int")?);
    assert!(rt; is(&rt, "040000000000", "1:1 NumberTooLarge")?);
    assert!(rt;
        is(
            &rt,
            "0xffffffffffffffffL",
            "0-19 1:1 18446744073709551615 long"
        )?
    );
    assert!(rt; is(&rt, "0x10000000000000000L", "1:1 NumberTooLarge")?);
    Ok(())
}

#[test]
fn numbers_that_are_not_whole(rt: HostRuntime) -> Result<(), Fail> {
    assert!(rt; is(&rt, "{ x = 1.5; }", "1:7 FloatNumber")?);
    assert!(rt; is(&rt, "1e5", "1:1 FloatNumber")?);
    assert!(rt; is(&rt, "1e-5", "1:1 FloatNumber")?);
    assert!(rt; is(&rt, "1f", "1:1 FloatNumber")?);
    assert!(rt; is(&rt, "09D", "1:1 FloatNumber")?);
    assert!(rt; is(&rt, "a .5", "1:3 FloatNumber")?);
    assert!(rt; is(&rt, "99999999999.5", "1:1 FloatNumber")?);
    assert!(rt; is(&rt, "1e", "0-1 1:1 1 decimal, 1-2 1:2 ident e")?);
    assert!(rt; is(&rt, "a.b", "0-1 1:1 ident a, 1-2 1:2 ., 2-3 1:3 ident b")?);
    Ok(())
}
