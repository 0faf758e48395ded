//! A small method with blocks put into it in each of the ways, computed.

ghost use Rattle.std.specs.Prelude.{◌≡◌, List, [], ◌∷◌, map};
ghost use Rattle.je_instr.specs.declared.instr.Instr.TheVariants.{Simple, Branch, Goto, New};
ghost use Rattle.je_instr.specs.declared.opcodes.TheConstants as op;
ghost use Rattle.je_shape.specs.declared.slot.Slot.TheVariants.{Uninit};
ghost use Rattle.je_put.specs.Result.{put_program, new_place, put_shapes};
ghost use Rattle.je_put.specs.Sample.{sample, sample_places, sample_entries, handler, known};

/// The method with its blocks in place, where its indexes went, and what is known there.
pub fn sample_is_spliced()
    // The jump back meets what stands before the second instruction, but for what it passes by. A
    // jump leads past the block in the way of the handler.
    ensures code { (put_program sample sample_places sample_entries).instrs
        ≡ New 1 ∷ Simple op.NOP ∷ Goto 4 ∷ Simple op.ATHROW ∷ Branch op.IFEQ 2 ∷ Simple op.NOP
        ∷ Goto 8 ∷ Simple op.POP ∷ Simple op.RETURN ∷ [] }
    // The block's own entry comes first. The first range covers the blocks, and leads to the block
    // in the way; the second ends before the jump.
    ensures handlers { (put_program sample sample_places sample_entries).handlers
        ≡ handler 2 3 3 0 ∷ handler 0 4 7 0 ∷ handler 4 6 5 7 ∷ [] }
    ensures indexes { map (new_place sample sample_places sample_entries)
        (0 ∷ 1 ∷ 2 ∷ 3 ∷ 4 ∷ 5 ∷ []) ≡ 0 ∷ 2 ∷ 4 ∷ 5 ∷ 8 ∷ 9 ∷ [] }
    // What its own instruction made is at that one's new index, and so is what the method's made.
    ensures shapes { put_shapes sample sample_places sample_entries
        ≡ known 2 (Uninit 3 ∷ []) ∷ known 4 (Uninit 0 ∷ []) ∷ known 7 [] ∷ known 8 [] ∷ [] }
{}
