//! What is decoded can be assembled again.

ghost use Rattle.std.specs.Prelude.{List, ℕ};
ghost use Rattle.je_consts.specs.declared.place.Place.{Place};
ghost use Rattle.je_instr.specs.declared.program.Decoded.{Decoded};
ghost use Rattle.je_instr.specs.declared.program.RawHandler.{RawHandler};
ghost use Rattle.je_instr.specs.Assembling.{IsProgram, AllowsProgram};
ghost use Rattle.je_instr.specs.Decoding.{Decodes};

/// What is decoded is a program, and the constants allow its operands.
pub fn decoded_again()
    ensures program { (consts : List Place) (code : List ℕ) (table : List RawHandler) (d : Decoded)
        → Decodes consts code table d → IsProgram d.program }
    ensures allows { (consts : List Place) (code : List ℕ) (table : List RawHandler) (d : Decoded)
        → Decodes consts code table d → AllowsProgram consts d.program }
{}
