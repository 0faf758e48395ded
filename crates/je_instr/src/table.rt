//! The table of opcodes, by the numbers of JVMS 6.5.

ghost use Rattle.std.specs.Prelude.{◌≡◌, ℕ, pos, List, [], ◌∷◌, map, Some, None, is_some, true};
ghost use Rattle.je_desc.specs.FieldType as types;
ghost use Rattle.je_machine.specs.Value.{IntKind, LongKind, FloatKind, DoubleKind, ReferenceKind};
ghost use Rattle.je_machine.specs.Value.{Null, Long, Flt, Dbl};
ghost use Rattle.je_machine.specs.Calculation.{IntWhole, LongWhole, Binary, Shift, ShiftLeft};
ghost use Rattle.je_machine.specs.Calculation.{ShiftRight, ShiftRightUnsigned, Negate, Extend};
ghost use Rattle.je_machine.specs.Calculation.{Truncate, Keep, BytePart, CharPart, ShortPart};
ghost use Rattle.je_machine.specs.Calculation.{CompareLongs};
ghost use Rattle.je_machine.specs.Condition.{Zero, Ints, Same, IsNull, Equals, IsLess, IsGreater};
ghost use Rattle.je_machine.specs.Condition.{inverse};
ghost use Rattle.je_machine.specs.Action.{Calculate, LoadElement, StoreElement, ArrayLength};
ghost use Rattle.je_machine.specs.Action.{MonitorEnter, MonitorExit, GetStatic, PutStatic};
ghost use Rattle.je_machine.specs.Action.{GetField, PutField, Virtual, Special, Static};
ghost use Rattle.je_machine.specs.Operation.{Nop, Push, Drop, Copy, Swap, Act, Throw, Do, Load};
ghost use Rattle.je_machine.specs.Operation.{Store, Return};
ghost use Rattle.je_instr.specs.Opcodes.{beside, simple_operation, local_operations, conditions};
ghost use Rattle.je_instr.specs.Opcodes.{field_actions, sorts, array_types};
ghost use Rattle.je_instr.specs.Rows.{elements, binaries, float_of, is_simple};

/// Which operations the opcodes without operands stand for, by their numbers (JVMS 6.5).
pub fn simple_opcodes()
    // These opcodes alone.
    ensures which { (n : ℕ) → is_some (simple_operation n) ≡ is_simple n }
    ensures constants { map simple_operation (1 ∷ 9 ∷ 10 ∷ 11 ∷ 12 ∷ 13 ∷ 14 ∷ 15 ∷ [])
        ≡ map (λ v. Some (Do (Push v)))
        (Null ∷ Long (pos 0) ∷ Long (pos 1) ∷ Flt 0 ∷ Flt 1065353216 ∷ Flt 1073741824 ∷ Dbl 0
        ∷ Dbl 4607182418800017408 ∷ []) }
    ensures loads { map simple_operation (46 ∷ 47 ∷ 48 ∷ 49 ∷ 50 ∷ 51 ∷ 52 ∷ 53 ∷ [])
        ≡ map (λ e. Some (Do (Act (LoadElement e)))) elements }
    ensures stores { map simple_operation (79 ∷ 80 ∷ 81 ∷ 82 ∷ 83 ∷ 84 ∷ 85 ∷ 86 ∷ [])
        ≡ map (λ e. Some (Do (Act (StoreElement e)))) elements }
    ensures moves { map simple_operation (0 ∷ 87 ∷ 88 ∷ 89 ∷ 90 ∷ 91 ∷ 92 ∷ 93 ∷ 94 ∷ 95 ∷ [])
        ≡ map (λ b. Some (Do b)) (Nop ∷ Drop 1 ∷ Drop 2 ∷ Copy 1 0 ∷ Copy 1 1 ∷ Copy 1 2 ∷ Copy 2 0
        ∷ Copy 2 1 ∷ Copy 2 2 ∷ Swap ∷ []) }
    ensures ints { map simple_operation (96 ∷ 100 ∷ 104 ∷ 108 ∷ 112 ∷ 126 ∷ 128 ∷ 130 ∷ [])
        ≡ map (λ o. Some (Do (Act (Calculate (Binary IntWhole o))))) binaries }
    ensures longs { map simple_operation (97 ∷ 101 ∷ 105 ∷ 109 ∷ 113 ∷ 127 ∷ 129 ∷ 131 ∷ [])
        ≡ map (λ o. Some (Do (Act (Calculate (Binary LongWhole o))))) binaries }
    ensures shifts { map simple_operation (120 ∷ 122 ∷ 124 ∷ 121 ∷ 123 ∷ 125 ∷ [])
        ≡ map (λ c. Some (Do (Act (Calculate c)))) (Shift IntWhole ShiftLeft
        ∷ Shift IntWhole ShiftRight ∷ Shift IntWhole ShiftRightUnsigned ∷ Shift LongWhole ShiftLeft
        ∷ Shift LongWhole ShiftRight ∷ Shift LongWhole ShiftRightUnsigned ∷ []) }
    ensures whole { map simple_operation (116 ∷ 117 ∷ 133 ∷ 136 ∷ 145 ∷ 146 ∷ 147 ∷ 148 ∷ [])
        ≡ map (λ c. Some (Do (Act (Calculate c)))) (Negate IntWhole ∷ Negate LongWhole ∷ Extend
        ∷ Truncate ∷ Keep BytePart ∷ Keep CharPart ∷ Keep ShortPart ∷ CompareLongs ∷ []) }
    // Two floats or doubles make one more, or an int.
    ensures floats { map simple_operation (98 ∷ 102 ∷ 106 ∷ 110 ∷ 114 ∷ [])
        ≡ map (float_of (FloatKind ∷ FloatKind ∷ []) FloatKind)
        (98 ∷ 102 ∷ 106 ∷ 110 ∷ 114 ∷ []) }
    ensures doubles { map simple_operation (99 ∷ 103 ∷ 107 ∷ 111 ∷ 115 ∷ [])
        ≡ map (float_of (DoubleKind ∷ DoubleKind ∷ []) DoubleKind)
        (99 ∷ 103 ∷ 107 ∷ 111 ∷ 115 ∷ []) }
    ensures compared { map simple_operation (149 ∷ 150 ∷ 151 ∷ 152 ∷ [])
        ≡ float_of (FloatKind ∷ FloatKind ∷ []) IntKind 149
        ∷ float_of (FloatKind ∷ FloatKind ∷ []) IntKind 150
        ∷ float_of (DoubleKind ∷ DoubleKind ∷ []) IntKind 151
        ∷ float_of (DoubleKind ∷ DoubleKind ∷ []) IntKind 152 ∷ [] }
    // One of a kind makes one of another.
    ensures converted { map simple_operation (118 ∷ 119 ∷ 134 ∷ 135 ∷ 137 ∷ 138 ∷ 139 ∷ 140 ∷ 141
        ∷ 142 ∷ 143 ∷ 144 ∷ [])
        ≡ float_of (FloatKind ∷ []) FloatKind 118 ∷ float_of (DoubleKind ∷ []) DoubleKind 119
        ∷ float_of (IntKind ∷ []) FloatKind 134 ∷ float_of (IntKind ∷ []) DoubleKind 135
        ∷ float_of (LongKind ∷ []) FloatKind 137 ∷ float_of (LongKind ∷ []) DoubleKind 138
        ∷ float_of (FloatKind ∷ []) IntKind 139 ∷ float_of (FloatKind ∷ []) LongKind 140
        ∷ float_of (FloatKind ∷ []) DoubleKind 141 ∷ float_of (DoubleKind ∷ []) IntKind 142
        ∷ float_of (DoubleKind ∷ []) LongKind 143 ∷ float_of (DoubleKind ∷ []) FloatKind 144 ∷ [] }
    ensures returns { map simple_operation (172 ∷ 173 ∷ 174 ∷ 175 ∷ 176 ∷ 177 ∷ [])
        ≡ map (λ k. Some (Return k)) (Some IntKind ∷ Some LongKind ∷ Some FloatKind
        ∷ Some DoubleKind ∷ Some ReferenceKind ∷ None ∷ []) }
    ensures others { map simple_operation (190 ∷ 191 ∷ 194 ∷ 195 ∷ [])
        ≡ map (λ b. Some (Do b)) (Act ArrayLength ∷ Throw ∷ Act MonitorEnter
        ∷ Act MonitorExit ∷ []) }
{}

/// Which operations the opcodes with operands stand for, by their numbers (JVMS 6.5).
pub fn operand_opcodes()
    ensures locals { local_operations
        ≡ (21, Load IntKind) ∷ (22, Load LongKind) ∷ (23, Load FloatKind) ∷ (24, Load DoubleKind)
        ∷ (25, Load ReferenceKind) ∷ (54, Store IntKind) ∷ (55, Store LongKind)
        ∷ (56, Store FloatKind) ∷ (57, Store DoubleKind) ∷ (58, Store ReferenceKind) ∷ [] }
    // Two opcodes in a row have conditions of which the one is met where the other is not.
    ensures branches { map (beside conditions) (153 ∷ 155 ∷ 157 ∷ 159 ∷ 161 ∷ 163 ∷ 165 ∷ 198 ∷ [])
        ≡ map Some (Zero Equals ∷ Zero IsLess ∷ Zero IsGreater ∷ Ints Equals ∷ Ints IsLess
        ∷ Ints IsGreater ∷ Same true ∷ IsNull true ∷ []) }
    ensures inverses { map (beside conditions) (154 ∷ 156 ∷ 158 ∷ 160 ∷ 162 ∷ 164 ∷ 166 ∷ 199 ∷ [])
        ≡ map (λ c. Some (inverse c)) (Zero Equals ∷ Zero IsLess ∷ Zero IsGreater ∷ Ints Equals
        ∷ Ints IsLess ∷ Ints IsGreater ∷ Same true ∷ IsNull true ∷ []) }
    ensures fields { field_actions
        ≡ (178, GetStatic) ∷ (179, PutStatic) ∷ (180, GetField) ∷ (181, PutField) ∷ [] }
    ensures calls { sorts ≡ (182, Virtual) ∷ (183, Special) ∷ (184, Static) ∷ [] }
    ensures arrays { map (beside array_types) (4 ∷ 5 ∷ 6 ∷ 7 ∷ 8 ∷ 9 ∷ 10 ∷ 11 ∷ [])
        ≡ map Some (types.Boolean ∷ types.Char ∷ types.Float ∷ types.Double ∷ types.Byte
        ∷ types.Short ∷ types.Int ∷ types.Long ∷ []) }
{}
