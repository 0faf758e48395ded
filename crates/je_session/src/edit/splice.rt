//! A method's instructions with blocks in the place of some.

ghost use Rattle.std.specs.Prelude.{◌≡◌, ◌≤◌, [], ◌∷◌, ◌++◌, length, IfOk, OnOk};
ghost use Rattle.je_session.specs.Splice.{new_instrs, new_places};

use crate::plan::Fragment;
use je_base::Memory;
use je_instr::{Instr, InstrIndex};
use std::alloc::Global;

/// Instructions of which some gave way to blocks, and where each one went.
#[derive(Drop)]
pub struct Spliced {
    pub instrs: Vec<Instr>,
    /// The new index of each old instruction, and that of the end.
    pub new_of: Vec<InstrIndex>,
}

/// Appends the instruction, or what does the fragment in its place.
fn put(
    alloc: Global,
    out: &mut Vec<Instr>,
    instr: &Instr,
    choice: Option<Fragment>,
) -> Result<(), Memory>
    ensures { OnOk result
        (out.new.items ≡ out.old.items ++ new_instrs (choice ∷ []) (instr.now ∷ [])) }
{
    match choice {
        None => out.push(instr.copy(alloc)?)?,
        Some(Fragment::Empty) => {}
        Some(Fragment::Proceed) => out.push(instr.copy(alloc)?)?,
    }
    Ok(())
}

/// The instructions, with what does its fragment in the place of each one that has one.
pub fn splice(
    alloc: Global,
    instrs: &[Instr],
    chosen: &[Option<Fragment>],
) -> Result<Spliced, Memory>
    requires each { length chosen.now ≡ length instrs.now }
    requires few { length instrs.now ≤ 65535 }
    ensures instrs { IfOk result (λ s. s.instrs.items ≡ new_instrs chosen.now instrs.now) }
    ensures places { IfOk result (λ s. s.new_of.items ≡ new_places 0 chosen.now instrs.now) }
{
    let mut out = Vec::new(alloc);
    let mut new_of = Vec::new(alloc);
    for (instr, choice) in instrs.iter().zip(chosen) {
        new_of.push(out.len() as u32)?;
        put(alloc, &mut out, instr, *choice)?;
    }
    new_of.push(out.len() as u32)?;
    Ok(Spliced {
        instrs: out,
        new_of,
    })
}
