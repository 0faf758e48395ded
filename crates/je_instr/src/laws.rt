//! Laws of the bytes, of constants and of what instructions are, over all programs.

ghost use Rattle.std.specs.Prelude.{◌≡◌, ℕ, ◌↔◌, List, [], ◌∷◌, Bool, codes, Some, None, IsSome};
ghost use Rattle.std.specs.List.{AllByRecursion, AllZip};
ghost use Rattle.je_consts.specs.declared.constant.Const.TheVariants as entry;
ghost use Rattle.je_consts.specs.declared.constant.MemberTag.{MemberTag};
ghost use Rattle.je_consts.specs.declared.place.Place.{Place};
ghost use Rattle.je_consts.specs.Adding.{Keeps, NamesMember};
ghost use Rattle.je_consts.specs.Pool.{const_at, class_at, text_at, NamesAndTypes, IsPool};
ghost use Rattle.je_desc.specs.Descriptor.{MethodTypes, SpellsMethod};
ghost use Rattle.je_consts.specs.declared.constant.MemberTag.TheVariants.{Method};
ghost use Rattle.je_machine.specs.Content.{Content, Class, Str, Member, NameAndType, MethodHandle};
ghost use Rattle.je_machine.specs.Content.{MethodType, InvokeDynamic};
ghost use Rattle.je_machine.specs.Action.{Static, Invoke};
ghost use Rattle.je_machine.specs.Operation.{Nop, Act, Operation, Do, Return, Program};
ghost use Rattle.je_instr.specs.declared.instr.Instr.{Instr};
ghost use Rattle.je_instr.specs.declared.instr.Instr.TheVariants as instr;
ghost use Rattle.je_instr.specs.declared.opcodes.TheConstants as op;
ghost use Rattle.je_instr.specs.declared.program.Decoded.{Decoded};
ghost use Rattle.je_instr.specs.declared.program.RawHandler.{RawHandler};
ghost use Rattle.je_instr.specs.Content.{content_at};
ghost use Rattle.je_instr.specs.CodeProgram.{CodeProgram};
ghost use Rattle.je_instr.specs.Allowed.{IsAllowed};
ghost use Rattle.je_instr.specs.Decoding.{Decodes};
ghost use Rattle.je_instr.specs.Callee.{IsCallable};
ghost use Rattle.je_instr.specs.Resolves.{Resolves};

/// Code and an exception table are one program at most, with one list of operations.
pub fn one_program()
    ensures operations { (consts : List Place) (is : List Instr) (a b : List Operation) →
        AllZip (Resolves consts) is a → AllZip (Resolves consts) is b → a ≡ b }
    ensures program { (consts : List Place) (is_static : Bool) (text code : List ℕ)
        (table : List RawHandler) (p q : Program) →
        CodeProgram consts is_static text code table p
        → CodeProgram consts is_static text code table q → p ≡ q }
{}

/// Where code and an exception table are decoded, and the descriptor is one of a method, they are a
/// program, whose instructions are those that were decoded.
pub fn programs_exist()
    ensures some { (consts : List Place) (is_static : Bool) (text code : List ℕ)
        (table : List RawHandler) (types : MethodTypes) (decoded : Decoded) →
        SpellsMethod text types → Decodes consts code table decoded
        → (p : Program) × (c : CodeProgram consts is_static text code table p)
        × (c.decoded ≡ decoded) }
{}

/// What the entries of a constant pool say, with what they name in place (JVMS 4.4).
pub fn constants_mean()
    // Each entry says something.
    ensures each { (consts : List Place) (i : ℕ) → IsPool consts
        → IsSome (const_at consts i) → IsSome (content_at consts i) }
    ensures class { (consts : List Place) (i : ℕ) (name : List ℕ) →
        class_at consts i ≡ Some name → content_at consts i ≡ Some (Class name) }
    ensures string { (consts : List Place) (i t : ℕ) (text : List ℕ) →
        const_at consts i ≡ Some (entry.Str t) → text_at consts t ≡ Some text
        → content_at consts i ≡ Some (Str text) }
    ensures member { (kind : MemberTag) (consts : List Place) (i : ℕ)
        (owner name descriptor : List ℕ) →
        NamesMember kind consts i owner name descriptor
        → content_at consts i ≡ Some (Member kind owner name descriptor) }
    ensures pair { (consts : List Place) (i : ℕ) (name descriptor : List ℕ) →
        NamesAndTypes consts i name descriptor
        → content_at consts i ≡ Some (NameAndType name descriptor) }
    ensures handle { (kind : MemberTag) (consts : List Place) (i k m : ℕ)
        (owner name descriptor : List ℕ) →
        const_at consts i ≡ Some (entry.MethodHandle k m)
        → NamesMember kind consts m owner name descriptor
        → content_at consts i ≡ Some (MethodHandle k kind owner name descriptor) }
    ensures method_type { (consts : List Place) (i d : ℕ) (descriptor : List ℕ) →
        const_at consts i ≡ Some (entry.MethodType d) → text_at consts d ≡ Some descriptor
        → content_at consts i ≡ Some (MethodType descriptor) }
    ensures dynamic { (consts : List Place) (i b m : ℕ) (name descriptor : List ℕ) →
        const_at consts i ≡ Some (entry.InvokeDynamic b m) → NamesAndTypes consts m name descriptor
        → content_at consts i ≡ Some (InvokeDynamic b name descriptor) }
{}

/// What the constants of a pool say, and what the instructions are that name them, stays as it is
/// while the pool grows.
pub fn contents_stay()
    ensures content { (old new : List Place) → Keeps old new → (i : ℕ) (content : Content) →
        content_at old i ≡ Some content → content_at new i ≡ Some content }
    ensures allowed { (old new : List Place) → Keeps old new → (i : Instr) →
        IsAllowed old i → IsAllowed new i }
    ensures resolves { (old new : List Place) → Keeps old new → (i : Instr) (o : Operation) →
        Resolves old i o → Resolves new i o }
    ensures operations { (old new : List Place) → Keeps old new →
        (is : List Instr) (a : List Operation) →
        AllZip (Resolves old) is a → AllZip (Resolves new) is a }
    ensures decodes { (old new : List Place) → Keeps old new →
        (code : List ℕ) (table : List RawHandler) (d : Decoded) →
        Decodes old code table d → Decodes new code table d }
    ensures program { (old new : List Place) → Keeps old new →
        (is_static : Bool) (text code : List ℕ) (table : List RawHandler) (p : Program) →
        CodeProgram old is_static text code table p → CodeProgram new is_static text code table p }
{}

/// An instruction is an operation exactly where its operands are allowed, and then it is one.
pub fn operations_exist()
    ensures each { (consts : List Place) (i : Instr) → IsAllowed consts i
        → (o : Operation) × Resolves consts i o }
    ensures only { (consts : List Place) (i : Instr) (o : Operation) → Resolves consts i o
        → IsAllowed consts i }
    ensures one { (consts : List Place) (i : Instr) (a b : Operation) → Resolves consts i a
        → Resolves consts i b → a ≡ b }
    ensures all { (consts : List Place) (is : List Instr) → AllByRecursion (IsAllowed consts) is
        → (a : List Operation) × AllZip (Resolves consts) is a }
{}

/// What the instructions are that are read so far (JVMS 6.5).
pub fn opcodes_mean()
    ensures nop { (consts : List Place) (o : Operation) →
        Resolves consts (instr.Simple op.NOP) o ↔ (o ≡ Do Nop) }
    ensures leaves { (consts : List Place) (o : Operation) →
        Resolves consts (instr.Simple op.RETURN) o ↔ (o ≡ Return None) }
    ensures calls { (consts : List Place) (index : ℕ) (o : Operation) →
        Resolves consts (instr.Invoke op.INVOKESTATIC index) o
        → (method : Content) × (types : MethodTypes) × (content_at consts index ≡ Some method)
        × (o ≡ Do (Act (Invoke Static method types))) }
    // A method without parameters and result is called without operands.
    ensures callee { (consts : List Place) (index : ℕ) (class name text : List ℕ) (o : Operation) →
        content_at consts index ≡ Some (Member Method class name text)
        → IsCallable class name text
        → Resolves consts (instr.Invoke op.INVOKESTATIC index) o
        ↔ (o ≡ Do (Act (Invoke Static (Member Method class name text)
        (record { params = []; result = None })))) }
{}
