//! Laws of small pieces of code: that they do what is meant, in the place of an action too.

ghost use Rattle.std.specs.Prelude.{◌≡◌, ℕ, List, [], None, Bool};
ghost use Rattle.je_consts.specs.declared.place.Place.{Place};
ghost use Rattle.je_desc.specs.Descriptor.{MethodTypes};
ghost use Rattle.je_machine.specs.Content.{Content};
ghost use Rattle.je_machine.specs.Action.{Sort, Action, Invoke, operands_of, result_of};
ghost use Rattle.je_machine.specs.Operation.{Basic, Act, Operation, Do};
ghost use Rattle.je_machine.specs.Frame.{Frame};
ghost use Rattle.je_instr.specs.declared.instr.Instr.{Instr};
ghost use Rattle.je_instr.specs.Resolves.{Resolves};
ghost use Rattle.je_splice.specs.Instead.{no_piece, one_piece, IsCall, emptied, proceeded};
ghost use Rattle.je_splice.specs.Laid.{FitsAnywhere};
ghost use Rattle.je_splice.specs.Resolved.{IsBlockOf, PieceMeans};
ghost use Rattle.je_splice.specs.Sample.{no_code, nothing, one_instruction, proceeding};

/// The piece without code and that of one instruction: the blocks that they are, and what they do,
/// with any frame.
pub fn pieces_mean()
    ensures no_block { (consts : List Place) → IsBlockOf consts no_piece no_code }
    ensures one_block { (consts : List Place) (i : Instr) (basic : Basic) →
        Resolves consts i (Do basic) → IsBlockOf consts (one_piece i) (one_instruction basic) }
    ensures nothing { (consts : List Place) (limit : ℕ) (ok : Frame → Bool) →
        PieceMeans consts limit ok no_piece nothing }
    // Its operands are those on the stack, and its result is left there.
    ensures proceeds { (consts : List Place) (limit : ℕ) (ok : Frame → Bool) (i : Instr)
        (basic : Basic) →
        Resolves consts i (Do basic) → PieceMeans consts limit ok (one_piece i) (proceeding basic) }
    // Each call is such an instruction.
    ensures calls { (consts : List Place) (i : Instr) (o : Operation) →
        IsCall i → Resolves consts i o
        → (sort : Sort) × (method : Content) × (types : MethodTypes)
        × (o ≡ Do (Act (Invoke sort method types))) }
{}

/// What `{ }` and `{ $proceed($$); }` mean in place of an action without a result, these blocks do,
/// with any frame.
pub fn actions_give_way()
    // Without operands there is nothing to take from the stack.
    ensures empty { (limit : ℕ) (action : Action) →
        operands_of action ≡ [] → result_of action ≡ None → FitsAnywhere limit (emptied action) }
    ensures proceeds { (limit : ℕ) (action : Action) →
        result_of action ≡ None → FitsAnywhere limit (proceeded action) }
{}
