//! Laws over all words and files, and over all classes.

ghost use Rattle.std.specs.Prelude.{◌≡◌, ℕ, List, Some, slice_get};
ghost use Rattle.je_base.specs.Files.{Contents};
ghost use Rattle.je_consts.specs.Adding.{Keeps};
ghost use Rattle.je_class.specs.declared.member.Member.{Member};
ghost use Rattle.je_class.specs.Class.{Class};
ghost use Rattle.je_class.specs.FileParts.{IsSound};
ghost use Rattle.je_machine.specs.Operation.{Program};
ghost use Rattle.je_session.specs.Cause.{Refusal, IsRefusal};
ghost use Rattle.je_session.specs.ProgramOf.{ProgramOf};

use je_class::{names_stay, one_class};
use je_code::one_code;
use je_instr::contents_stay;

/// Words and files are refused in one way at most.
pub fn one_refusal()
    ensures { (words : List (List ℕ)) (files : Contents) (r q : Refusal) →
        IsRefusal words files r → IsRefusal words files q → r ≡ q }
{
    // The law of the layer below that the proof stands on.
    one_class();
}

/// A method of a class has at most one program.
pub fn one_program()
    ensures { (c : Class) (m : Member) (p q : Program) →
        ProgramOf c m p → ProgramOf c m q → p ≡ q }
{
    // The laws of the layers below that the proof stands on.
    one_code();
    je_instr::one_program();
}

/// A method's program stays what it is where the constant pool grows, whatever else of the class
/// changes. So what one plan of a class leaves of the other methods is what the next plan speaks
/// of.
pub fn programs_stay()
    ensures { (c d : Class) (at : ℕ) (m : Member) (program : Program) →
        IsSound c → Keeps c.consts d.consts → slice_get c.methods at ≡ Some m →
        ProgramOf c m program → ProgramOf d m program }
{
    // The laws of the layers below that the proof stands on.
    names_stay();
    contents_stay();
}
