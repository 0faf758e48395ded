//! The offsets of instructions rise.

ghost use Rattle.std.specs.Prelude.{◌≡◌, ℕ, ◌+◌, ◌^◌, ◌<◌, List, length, slice_index};
ghost use Rattle.je_consts.specs.declared.place.Place.{Place};
ghost use Rattle.je_instr.specs.declared.assembled.Assembled.{Assembled};
ghost use Rattle.je_instr.specs.declared.program.Decoded.{Decoded};
ghost use Rattle.je_instr.specs.declared.program.Program.{Program};
ghost use Rattle.je_instr.specs.declared.program.RawHandler.{RawHandler};
ghost use Rattle.je_instr.specs.Assembling.{IsAssembled};
ghost use Rattle.je_instr.specs.Decoding.{Decodes};

/// The offsets of a program that was decoded: one for each instruction, and one for the end.
pub fn offsets_rise()
    ensures count { (consts : List Place) (code : List ℕ) (table : List RawHandler) (d : Decoded)
        → Decodes consts code table d → length d.offsets ≡ length d.program.instrs + 1 }
    ensures rise { (consts : List Place) (code : List ℕ) (table : List RawHandler) (d : Decoded)
        (i j : ℕ) → Decodes consts code table d → i < j → j < length d.offsets
        → slice_index d.offsets i < slice_index d.offsets j }
    ensures last { (consts : List Place) (code : List ℕ) (table : List RawHandler) (d : Decoded)
        → Decodes consts code table d
        → slice_index d.offsets (length d.program.instrs) ≡ length code }
{}

/// The offsets of a program that was assembled: one for each instruction, and one for the end.
/// They are those of code of at most 65,535 bytes.
pub fn assembled_offsets()
    ensures count { (p : Program) (a : Assembled) → IsAssembled p a
        → length a.offsets ≡ length p.instrs + 1 }
    ensures rise { (p : Program) (a : Assembled) (i j : ℕ) → IsAssembled p a
        → i < j → j < length a.offsets → slice_index a.offsets i < slice_index a.offsets j }
    ensures short { (p : Program) (a : Assembled) (i : ℕ) → IsAssembled p a
        → slice_index a.offsets i < 2 ^ 16 }
{}
