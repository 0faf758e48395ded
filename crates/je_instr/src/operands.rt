//! What instructions with operands are, and which operands are refused.

ghost use Rattle.std.specs.Prelude.{◌≡◌, ◌≢◌, ℕ, ◌+◌, ◌≤◌, ℤ, pos, negsuc, ◌↔◌, List, [], ◌∷◌};
ghost use Rattle.std.specs.Prelude.{length, codes, Some};
ghost use Rattle.je_consts.specs.declared.place.Place.{Place};
ghost use Rattle.je_desc.specs.Descriptor.{MethodTypes, SpellsField, SpellsMethod, units_of_params};
ghost use Rattle.je_desc.specs.FieldType.{FieldType, Object, Array, dimensions};
ghost use Rattle.je_desc.specs.Names.{IsClassName};
ghost use Rattle.je_machine.specs.Action.{GetField, Interface, Special, Sort, Invoke, New};
ghost use Rattle.je_machine.specs.Action.{NewArray};
ghost use Rattle.je_consts.specs.declared.constant.MemberTag.{MemberTag};
ghost use Rattle.je_consts.specs.declared.constant.MemberTag.TheVariants as tags;
ghost use Rattle.je_machine.specs.Content as content;
ghost use Rattle.je_machine.specs.Operation.{Act, Operation, Do, Push, Switch};
ghost use Rattle.je_machine.specs.Value.{Int, Long, Flt, Dbl, Const};
ghost use Rattle.je_instr.specs.declared.instr.Instr.TheVariants as instr;
ghost use Rattle.je_instr.specs.declared.opcodes.TheConstants as op;
ghost use Rattle.je_instr.specs.Allowed.{IsPlainName};
ghost use Rattle.je_instr.specs.Content.{content_at};
ghost use Rattle.je_instr.specs.Resolves.{Resolves};

/// What is loaded from the constant pool (JVMS 6.5, ldc and ldc2_w).
pub fn loads_mean()
    ensures int { (consts : List Place) (index : ℕ) (n : ℤ) (o : Operation) →
        content_at consts index ≡ Some (content.Integer n)
        → Resolves consts (instr.Ldc index) o ↔ (o ≡ Do (Push (Int n))) }
    ensures float { (consts : List Place) (index bits : ℕ) (o : Operation) →
        content_at consts index ≡ Some (content.Float bits)
        → Resolves consts (instr.Ldc index) o ↔ (o ≡ Do (Push (Flt bits))) }
    ensures string { (consts : List Place) (index : ℕ) (text : List ℕ) (o : Operation) →
        content_at consts index ≡ Some (content.Str text)
        → Resolves consts (instr.Ldc index) o ↔ (o ≡ Do (Push (Const (content.Str text)))) }
    ensures class { (consts : List Place) (index : ℕ) (name : List ℕ) (o : Operation) →
        content_at consts index ≡ Some (content.Class name) → IsClassName name
        → Resolves consts (instr.Ldc index) o ↔ (o ≡ Do (Push (Const (content.Class name)))) }
    ensures long { (consts : List Place) (index : ℕ) (n : ℤ) (o : Operation) →
        content_at consts index ≡ Some (content.LongInteger n)
        → Resolves consts (instr.Ldc2 index) o ↔ (o ≡ Do (Push (Long n))) }
    ensures double { (consts : List Place) (index bits : ℕ) (o : Operation) →
        content_at consts index ≡ Some (content.Double bits)
        → Resolves consts (instr.Ldc2 index) o ↔ (o ≡ Do (Push (Dbl bits))) }
    // Each of the two takes its own constants alone.
    ensures narrow { (consts : List Place) (index : ℕ) (n : ℤ) (o : Operation) →
        content_at consts index ≡ Some (content.LongInteger n) → Resolves consts (instr.Ldc index) o
        → ⊥ }
    ensures wide { (consts : List Place) (index : ℕ) (n : ℤ) (o : Operation) →
        content_at consts index ≡ Some (content.Integer n) → Resolves consts (instr.Ldc2 index) o
        → ⊥ }
{}

/// What members and classes become, and which are refused (JVMS 4.9.1 and 6.5).
pub fn members_mean()
    ensures field { (consts : List Place) (index : ℕ) (class name text : List ℕ) (type : FieldType)
        (o : Operation) →
        content_at consts index ≡ Some (content.Member tags.Field class name text)
        → IsClassName class → IsPlainName name → SpellsField text type
        → Resolves consts (instr.Field op.GETFIELD index) o
        ↔ (o ≡ Do (Act (GetField (record { class = class; name = name; type = type })))) }
    // The count is that of all slots of arguments, with the object's.
    ensures interface { (consts : List Place) (index count : ℕ) (class name text : List ℕ)
        (types : MethodTypes) (o : Operation) →
        content_at consts index ≡ Some (content.Member tags.InterfaceMethod class name text)
        → IsClassName class → IsPlainName name → SpellsMethod text types
        → Resolves consts (instr.InvokeInterface index count) o
        ↔ ((count ≡ units_of_params types + 1) × (o ≡ Do (Act (Invoke Interface
        (content.Member tags.InterfaceMethod class name text) types)))) }
    // A constructor is called by invokespecial alone, a class initialiser by no instruction.
    ensures constructor { (consts : List Place) (opcode index : ℕ) (tag : MemberTag)
        (class text : List ℕ) (o : Operation) → opcode ≢ op.INVOKESPECIAL →
        content_at consts index ≡ Some (content.Member tag class (codes "<init>") text)
        → Resolves consts (instr.Invoke opcode index) o → ⊥ }
    ensures initialiser { (consts : List Place) (opcode index : ℕ) (tag : MemberTag)
        (class text : List ℕ) (o : Operation) →
        content_at consts index ≡ Some (content.Member tag class (codes "<clinit>") text)
        → Resolves consts (instr.Invoke opcode index) o → ⊥ }
    // No object is made of an array's class.
    ensures object { (consts : List Place) (index : ℕ) (text : List ℕ) (o : Operation) →
        content_at consts index ≡ Some (content.Class text)
        → Resolves consts (instr.New index) o ↔ (IsClassName text × (o ≡ Do (Act (New text)))) }
    ensures array { (consts : List Place) (index : ℕ) (name : List ℕ) (o : Operation) →
        content_at consts index ≡ Some (content.Class name) → IsClassName name
        → length name + 3 ≤ 65535
        → Resolves consts (instr.ANewArray index) o
        ↔ (o ≡ Do (Act (NewArray (Array (Object name)) 1))) }
    ensures arrays { (consts : List Place) (index count : ℕ) (text : List ℕ) (component : FieldType)
        (o : Operation) → content_at consts index ≡ Some (content.Class text)
        → SpellsField text (Array component)
        → Resolves consts (instr.MultiNew index count) o
        ↔ ((1 ≤ count) × (count ≤ dimensions (Array component))
        × (o ≡ Do (Act (NewArray (Array component) count)))) }
    // The keys of a tableswitch follow each other from the least one on.
    ensures keys { (consts : List Place) (a b c fallback : ℕ) (o : Operation) →
        Resolves consts (instr.TableSwitch (negsuc 0) (a ∷ b ∷ c ∷ []) fallback) o
        ↔ (o ≡ Switch ((negsuc 0, a) ∷ (pos 0, b) ∷ (pos 1, c) ∷ []) fallback) }
    // The greatest key of a tableswitch is an int.
    ensures past { (consts : List Place) (a b fallback : ℕ) (o : Operation) →
        Resolves consts (instr.TableSwitch (pos 2147483647) (a ∷ b ∷ []) fallback) o → ⊥ }
    // The keys of a lookupswitch rise.
    ensures unsorted { (consts : List Place) (a b fallback : ℕ) (o : Operation) →
        Resolves consts (instr.LookupSwitch (record { key = pos 4; target = a }
        ∷ record { key = pos 4; target = b } ∷ []) fallback) o → ⊥ }
{}
