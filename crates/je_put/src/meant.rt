//! Laws of what a program with blocks in place does.

ghost use Rattle.std.specs.Prelude.{List, map, Bool};
ghost use Rattle.std.specs.List.{AllZip};
ghost use Rattle.je_consts.specs.declared.place.Place.{Place};
ghost use Rattle.je_machine.specs.Operation as machine;
ghost use Rattle.je_instr.specs.declared.program.Program.{Program};
ghost use Rattle.je_splice.specs.InstrCodes.{instr_codes};
ghost use Rattle.je_splice.specs.Laid.{Fragment};
ghost use Rattle.je_splice.specs.Layout.{operation_codes};
ghost use Rattle.je_splice.specs.Marks.{marked_handlers};
ghost use Rattle.je_splice.specs.Put.{PutAt, PutBefore, marks_of};
ghost use Rattle.je_splice.specs.Resolved.{AreProgram, AreMeant, IsPlacedAs, IsMetAs, IsWoven};
ghost use Rattle.je_splice.specs.Resolved.{fragment_items};
ghost use Rattle.je_put.specs.declared.block.EntryBlock.{EntryBlock};
ghost use Rattle.je_put.specs.declared.block.PlaceBlock.{PlaceBlock};
ghost use Rattle.je_put.specs.Placing.{piece_of, completes, put_at, put_before, block_marks};
ghost use Rattle.je_put.specs.Result.{put_items, pieces, put_program};

use crate::block::Block;
use je_splice::{code_is_woven, marks_are_meant, puts_are_marks};

/// A program with blocks in place does what is meant by it, for every meaning of its blocks, every
/// relation of classes, heap and answers.
pub fn put_programs_do()
    ensures { (consts : List Place) (p : Program) (places : List PlaceBlock)
        (entries : List EntryBlock) →
        let q = put_program p places entries in
        IsWoven consts (pieces (put_items p places entries))
        (marked_handlers instr_codes (block_marks places entries) p.handlers) q.instrs q.handlers }
{
    // The law that the proof stands on.
    code_is_woven();
}

/// What is meant by it is the marked method, with a fragment in the place of each block.
pub fn put_programs_are_meant<Y>()
    ensures { (consts : List Place) (fragment_of : Y → Fragment) (goes_on : Y → Bool) (p : Program)
        (old : machine.Program) (places : List PlaceBlock) (entries : List EntryBlock)
        (fragments : List (PutAt Y)) (others : List (PutBefore Y machine.Handler)) →
        AreProgram consts p.instrs p.handlers old
        → AllZip (IsPlacedAs consts piece_of fragment_of completes goes_on) (map put_at places)
        fragments
        → AllZip (IsMetAs consts piece_of fragment_of completes goes_on p.handlers old.handlers)
        (map put_before entries) others
        → let n = marks_of (λ h. h.target) goes_on fragments others in
        AreMeant consts (pieces (put_items p places entries))
        (marked_handlers instr_codes (block_marks places entries) p.handlers)
        (fragment_items fragment_of n old.operations)
        (marked_handlers operation_codes n old.handlers) }
{
    // The laws that the proof stands on.
    marks_are_meant::<Block, Y>();
    puts_are_marks::<Block, Y>();
}
