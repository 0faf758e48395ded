//! Laws of fields, over all heaps.

ghost use Rattle.std.specs.Prelude.{◌≡◌, ◌≢◌, ℕ, pos, List, [], ◌∷◌, Some, None, IsTrue, codes};
ghost use Rattle.std.specs.Cmp.{IsTotalOrder};
ghost use Rattle.je_machine.specs.Content.{Str};
ghost use Rattle.je_machine.specs.Value.{Kind, Value, Long, Obj, Const, kind_of, is_of_kind, admit};
ghost use Rattle.je_machine.specs.Heap.{FieldKey, Fields, Instance, Heap, key_cmp, object_of};
ghost use Rattle.je_machine.specs.Heap.{new_instance, read_static, write_static, read_field};
ghost use Rattle.je_machine.specs.Heap.{write_field};
ghost use Rattle.je_machine.specs.Classes.{Classes};
ghost use Rattle.je_machine.specs.Action.{Field, GetField, PutField, GetStatic, PutStatic};
ghost use Rattle.je_machine.specs.Outside.{Outside, Gave, with_heap};
ghost use Rattle.je_machine.specs.Acting.{field_key, act};
ghost use Rattle.je_machine.specs.Sample.{bytes, one_object, long_field};

/// A static field is read as it was written, and other static fields stay.
pub fn static_fields()
    ensures written { (heap : Heap) (kind : Kind) (key : FieldKey) (value : Value) →
        read_static (write_static key value heap) kind key ≡ admit kind value }
    ensures other { (heap : Heap) (kind : Kind) (key other : FieldKey) (value : Value) → other ≢ key
        → read_static (write_static key value heap) kind other ≡ read_static heap kind other }
    ensures objects { (heap : Heap) (key : FieldKey) (value : Value) →
        (write_static key value heap).objects ≡ heap.objects }
{}

/// A field of an object is read as it was written, and its other fields, other objects and static
/// fields stay.
pub fn object_fields()
    ensures written { (heap : Heap) (kind : Kind) (key : FieldKey) (value : Value) (number : ℕ)
        (class : List ℕ) (fields : Fields) →
        object_of heap (Obj number) ≡ Some (Instance class fields)
        → read_field (write_field key value (Obj number) heap) kind key (Obj number)
        ≡ admit kind value }
    ensures other { (heap : Heap) (kind : Kind) (key other : FieldKey) (value : Value) (number : ℕ)
        → other ≢ key
        → read_field (write_field key value (Obj number) heap) kind other (Obj number)
        ≡ read_field heap kind other (Obj number) }
    ensures objects { (heap : Heap) (key : FieldKey) (value : Value) (number another : ℕ) →
        (another ≡ number → ⊥)
        → object_of (write_field key value (Obj number) heap) (Obj another)
        ≡ object_of heap (Obj another) }
    ensures statics { (heap : Heap) (key : FieldKey) (value : Value) (number : ℕ) →
        (write_field key value (Obj number) heap).statics ≡ heap.statics }
    // The order of fields is total.
    ensures order { IsTotalOrder key_cmp }
{}

/// What the instructions on fields do with these (JVMS 6.5, getfield to putstatic). A field is that
/// of the class that holds it.
pub fn fields_are_used()
    ensures get_static { (classes : Classes) (f : Field) (o : Outside) →
        act classes (GetStatic f) [] o
        ≡ Gave (Some (read_static o.heap (kind_of f.type) (field_key classes f))) o }
    ensures put_static { (classes : Classes) (f : Field) (value : Value) (o : Outside) →
        IsTrue (is_of_kind (kind_of f.type) value)
        → act classes (PutStatic f) (value ∷ []) o
        ≡ Gave None (with_heap (write_static (field_key classes f) value o.heap) o) }
    ensures get { (classes : Classes) (f : Field) (number : ℕ) (o : Outside) →
        act classes (GetField f) (Obj number ∷ []) o
        ≡ Gave (Some (read_field o.heap (kind_of f.type) (field_key classes f) (Obj number))) o }
    ensures put { (classes : Classes) (f : Field) (number : ℕ) (value : Value) (o : Outside) →
        IsTrue (is_of_kind (kind_of f.type) value)
        → act classes (PutField f) (Obj number ∷ value ∷ []) o
        ≡ Gave None
        (with_heap (write_field (field_key classes f) value (Obj number) o.heap) o) }
    // What the heap lacks, an array and a constant read as zeros and take no writes.
    ensures get_missing { (classes : Classes) →
        act classes (GetField long_field) (Obj 5 ∷ []) (one_object bytes)
        ≡ Gave (Some (Long (pos 0))) (one_object bytes) }
    ensures get_array { (classes : Classes) →
        act classes (GetField long_field) (Obj 0 ∷ []) (one_object bytes)
        ≡ Gave (Some (Long (pos 0))) (one_object bytes) }
    ensures get_constant { (classes : Classes) →
        act classes (GetField long_field) (Const (Str []) ∷ []) (one_object bytes)
        ≡ Gave (Some (Long (pos 0))) (one_object bytes) }
    ensures put_missing { (classes : Classes) →
        act classes (PutField long_field) (Obj 5 ∷ Long (pos 3) ∷ []) (one_object bytes)
        ≡ Gave None (one_object bytes) }
    ensures put_array { (classes : Classes) →
        act classes (PutField long_field) (Obj 0 ∷ Long (pos 3) ∷ []) (one_object bytes)
        ≡ Gave None (one_object bytes) }
    ensures put_constant { (classes : Classes) →
        act classes (PutField long_field) (Const (Str []) ∷ Long (pos 3) ∷ []) (one_object bytes)
        ≡ Gave None (one_object bytes) }
    // What was never written reads as the zero of its kind.
    ensures get_new { (classes : Classes) →
        act classes (GetField long_field) (Obj 0 ∷ []) (one_object (new_instance (codes "C")))
        ≡ Gave (Some (Long (pos 0))) (one_object (new_instance (codes "C"))) }
{}
