//! Laws of the bytes of Code attributes.

ghost use Rattle.std.specs.Prelude.{◌≡◌, ℕ, ◌^◌, ◌<◌, List, slice_index};
ghost use Rattle.je_base.specs.Parts.{OneWay};
ghost use Rattle.je_consts.specs.declared.place.Place.{Place};
ghost use Rattle.je_instr.specs.declared.fault.CodeFault.{CodeFault};
ghost use Rattle.je_instr.specs.declared.program.Decoded.{Decoded};
ghost use Rattle.je_instr.specs.Decoding.{Decodes};
ghost use Rattle.je_code.specs.declared.attr.CodeAttr.{CodeAttr};
ghost use Rattle.je_code.specs.Code.{Test, Code, CodeBytes, code_format};
ghost use Rattle.je_code.specs.CodeAttr.{IsCodeAttr};
ghost use Rattle.je_code.specs.Faults.{FirstFault};

use je_base::{Parted, one_way};
use je_instr::one_decoding;

/// The parts of a Code attribute (JVMS 4.7.3).
pub(crate) struct CodeParts;

impl Parted for CodeParts {
    ghost Test = { Test };

    ghost Value = { ⊥ };

    ghost Fault = { CodeFault };

    ghost format = { code_format };
}

/// What stands at an offset of a Code attribute is one way.
pub(crate) fn one_code_way()
    ensures { OneWay code_format }
{
    one_way::<CodeParts>();
}

/// Bytes are the content of one Code attribute or have one first fault, over the same constants.
pub fn one_code()
    // It cannot be that they are none and have no first fault.
    ensures some { (consts : List Place) (info : List ℕ) →
        ((i : ℕ) → slice_index info i < 2 ^ 8)
        → ((a : CodeAttr) → IsCodeAttr consts info a → ⊥)
        → ((f : CodeFault) → FirstFault consts info f → ⊥) → ⊥ }
    // Bytes have one layout, whatever the constants are.
    ensures layout { (info : List ℕ) (a b : Code) → CodeBytes info a → CodeBytes info b → a ≡ b }
    ensures same { (consts : List Place) (info : List ℕ) (a b : CodeAttr) →
        IsCodeAttr consts info a → IsCodeAttr consts info b → a ≡ b }
    // Where the code decodes there is no fault, whatever the tables are.
    ensures decoded_no_fault { (consts : List Place) (info : List ℕ) (c : Code) (d : Decoded)
        (f : CodeFault) → CodeBytes info c → Decodes consts c.code c.handlers d →
        FirstFault consts info f → ⊥ }
    ensures no_fault { (consts : List Place) (info : List ℕ) (a : CodeAttr) (f : CodeFault) →
        IsCodeAttr consts info a → FirstFault consts info f → ⊥ }
    ensures one_fault { (consts : List Place) (info : List ℕ) (f g : CodeFault) →
        FirstFault consts info f → FirstFault consts info g → f ≡ g }
{
    // The laws that the proof stands on.
    one_code_way();
    one_decoding();
}
