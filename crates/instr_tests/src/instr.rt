use je_base::Run;
use je_consts::Consts;
use je_instr::{Case, Instr, called_method};
use sqlite_items::Items;
use std::test::*;

/// A pool of which the sixth entry is the method `A.g()V`.
const CALLED: &[u8] = b"\x00\x07\x01\x00\x01A\x01\x00\x01g\x01\x00\x03()V\
      \x07\x00\x01\x0c\x00\x02\x00\x03\x0a\x00\x04\x00\x05";

/// The same with the constructor `A.<init>()V`.
const CONSTRUCTED: &[u8] = b"\x00\x07\x01\x00\x01A\x01\x00\x06<init>\x01\x00\x03()V\
      \x07\x00\x01\x0c\x00\x02\x00\x03\x0a\x00\x04\x00\x05";

fn pool(rt: &HostRuntime, bytes: &[u8]) -> Result<Consts, Fail> {
    let copy = Vec::from_slice(rt.alloc(), bytes)?;
    let run = Run::of_vec(rt.alloc(), copy)?;
    match Consts::read(rt.alloc(), &run, 0) {
        Ok((consts, _)) => Ok(consts),
        Err(_) => Err("no pool".into()),
    }
}

#[test]
fn callee(rt: HostRuntime) -> Result<(), Fail> {
    let consts = pool(&rt, CALLED)?;
    let (class, name) = called_method(&consts, 6).ok_or("the method may be called")?;
    assert_eq!(rt; class.bytes(), b"A".as_slice());
    assert_eq!(rt; name.bytes(), b"g".as_slice());
    for index in [0, 5, 7] {
        assert!(rt; called_method(&consts, index).is_none(), "at {index}");
    }
    let consts = pool(&rt, CONSTRUCTED)?;
    assert!(rt; called_method(&consts, 6).is_none());
    Ok(())
}

#[test]
fn copies(rt: HostRuntime) -> Result<(), Fail> {
    let targets = Items::from_slice(rt.alloc(), &[3, 9])?;
    let table = Instr::TableSwitch(-1, targets, 7);
    let Ok(Instr::TableSwitch(low, targets, fallback)) = table.copy(rt.alloc()) else {
        return Err("a switch is copied".into());
    };
    assert_eq!(rt; low, -1);
    assert_eq!(rt; targets.as_slice(), [3, 9].as_slice());
    assert_eq!(rt; fallback, 7);
    let cases = [Case { key: -5, target: 2 }, Case { key: 8, target: 4 }];
    let lookup = Instr::LookupSwitch(Items::from_slice(rt.alloc(), &cases)?, 1);
    let Ok(Instr::LookupSwitch(copied, fallback)) = lookup.copy(rt.alloc()) else {
        return Err("a switch is copied".into());
    };
    assert_eq!(rt; copied.as_slice(), cases.as_slice());
    assert_eq!(rt; fallback, 1);
    Ok(())
}
