//! The opcodes of the instructions, by their mnemonics (JVMS 6.5 and 7).

/// Does nothing.
pub const NOP: u8 = 0;

/// Pushes null.
pub const ACONST_NULL: u8 = 1;

/// Pushes the int -1.
pub const ICONST_M1: u8 = 2;

/// Pushes the int 0.
pub const ICONST_0: u8 = 3;

/// Pushes the int 1.
pub const ICONST_1: u8 = 4;

/// Pushes the int 2.
pub const ICONST_2: u8 = 5;

/// Pushes the int 3.
pub const ICONST_3: u8 = 6;

/// Pushes the int 4.
pub const ICONST_4: u8 = 7;

/// Pushes the int 5.
pub const ICONST_5: u8 = 8;

/// Pushes the long 0.
pub const LCONST_0: u8 = 9;

/// Pushes the long 1.
pub const LCONST_1: u8 = 10;

/// Pushes the float 0.
pub const FCONST_0: u8 = 11;

/// Pushes the float 1.
pub const FCONST_1: u8 = 12;

/// Pushes the float 2.
pub const FCONST_2: u8 = 13;

/// Pushes the double 0.
pub const DCONST_0: u8 = 14;

/// Pushes the double 1.
pub const DCONST_1: u8 = 15;

/// Pushes an int of one byte.
pub const BIPUSH: u8 = 16;

/// Pushes an int of two bytes.
pub const SIPUSH: u8 = 17;

/// Pushes a constant whose index is at most 255.
pub const LDC: u8 = 18;

/// Pushes a constant that takes one place.
pub const LDC_W: u8 = 19;

/// Pushes a constant that takes two places.
pub const LDC2_W: u8 = 20;

/// Pushes an int of a local variable.
pub const ILOAD: u8 = 21;

/// Pushes a long of a local variable.
pub const LLOAD: u8 = 22;

/// Pushes a float of a local variable.
pub const FLOAD: u8 = 23;

/// Pushes a double of a local variable.
pub const DLOAD: u8 = 24;

/// Pushes a reference of a local variable.
pub const ALOAD: u8 = 25;

/// Pushes an int of local variable 0.
pub const ILOAD_0: u8 = 26;

/// Pushes an int of local variable 1.
pub const ILOAD_1: u8 = 27;

/// Pushes an int of local variable 2.
pub const ILOAD_2: u8 = 28;

/// Pushes an int of local variable 3.
pub const ILOAD_3: u8 = 29;

/// Pushes a long of local variable 0.
pub const LLOAD_0: u8 = 30;

/// Pushes a long of local variable 1.
pub const LLOAD_1: u8 = 31;

/// Pushes a long of local variable 2.
pub const LLOAD_2: u8 = 32;

/// Pushes a long of local variable 3.
pub const LLOAD_3: u8 = 33;

/// Pushes a float of local variable 0.
pub const FLOAD_0: u8 = 34;

/// Pushes a float of local variable 1.
pub const FLOAD_1: u8 = 35;

/// Pushes a float of local variable 2.
pub const FLOAD_2: u8 = 36;

/// Pushes a float of local variable 3.
pub const FLOAD_3: u8 = 37;

/// Pushes a double of local variable 0.
pub const DLOAD_0: u8 = 38;

/// Pushes a double of local variable 1.
pub const DLOAD_1: u8 = 39;

/// Pushes a double of local variable 2.
pub const DLOAD_2: u8 = 40;

/// Pushes a double of local variable 3.
pub const DLOAD_3: u8 = 41;

/// Pushes a reference of local variable 0.
pub const ALOAD_0: u8 = 42;

/// Pushes a reference of local variable 1.
pub const ALOAD_1: u8 = 43;

/// Pushes a reference of local variable 2.
pub const ALOAD_2: u8 = 44;

/// Pushes a reference of local variable 3.
pub const ALOAD_3: u8 = 45;

/// Pushes an element of an array of ints.
pub const IALOAD: u8 = 46;

/// Pushes an element of an array of longs.
pub const LALOAD: u8 = 47;

/// Pushes an element of an array of floats.
pub const FALOAD: u8 = 48;

/// Pushes an element of an array of doubles.
pub const DALOAD: u8 = 49;

/// Pushes an element of an array of references.
pub const AALOAD: u8 = 50;

/// Pushes an element of an array of bytes or booleans.
pub const BALOAD: u8 = 51;

/// Pushes an element of an array of chars.
pub const CALOAD: u8 = 52;

/// Pushes an element of an array of shorts.
pub const SALOAD: u8 = 53;

/// Pops an int into a local variable.
pub const ISTORE: u8 = 54;

/// Pops a long into a local variable.
pub const LSTORE: u8 = 55;

/// Pops a float into a local variable.
pub const FSTORE: u8 = 56;

/// Pops a double into a local variable.
pub const DSTORE: u8 = 57;

/// Pops a reference into a local variable.
pub const ASTORE: u8 = 58;

/// Pops an int into local variable 0.
pub const ISTORE_0: u8 = 59;

/// Pops an int into local variable 1.
pub const ISTORE_1: u8 = 60;

/// Pops an int into local variable 2.
pub const ISTORE_2: u8 = 61;

/// Pops an int into local variable 3.
pub const ISTORE_3: u8 = 62;

/// Pops a long into local variable 0.
pub const LSTORE_0: u8 = 63;

/// Pops a long into local variable 1.
pub const LSTORE_1: u8 = 64;

/// Pops a long into local variable 2.
pub const LSTORE_2: u8 = 65;

/// Pops a long into local variable 3.
pub const LSTORE_3: u8 = 66;

/// Pops a float into local variable 0.
pub const FSTORE_0: u8 = 67;

/// Pops a float into local variable 1.
pub const FSTORE_1: u8 = 68;

/// Pops a float into local variable 2.
pub const FSTORE_2: u8 = 69;

/// Pops a float into local variable 3.
pub const FSTORE_3: u8 = 70;

/// Pops a double into local variable 0.
pub const DSTORE_0: u8 = 71;

/// Pops a double into local variable 1.
pub const DSTORE_1: u8 = 72;

/// Pops a double into local variable 2.
pub const DSTORE_2: u8 = 73;

/// Pops a double into local variable 3.
pub const DSTORE_3: u8 = 74;

/// Pops a reference into local variable 0.
pub const ASTORE_0: u8 = 75;

/// Pops a reference into local variable 1.
pub const ASTORE_1: u8 = 76;

/// Pops a reference into local variable 2.
pub const ASTORE_2: u8 = 77;

/// Pops a reference into local variable 3.
pub const ASTORE_3: u8 = 78;

/// Stores an element of an array of ints.
pub const IASTORE: u8 = 79;

/// Stores an element of an array of longs.
pub const LASTORE: u8 = 80;

/// Stores an element of an array of floats.
pub const FASTORE: u8 = 81;

/// Stores an element of an array of doubles.
pub const DASTORE: u8 = 82;

/// Stores an element of an array of references.
pub const AASTORE: u8 = 83;

/// Stores an element of an array of bytes or booleans.
pub const BASTORE: u8 = 84;

/// Stores an element of an array of chars.
pub const CASTORE: u8 = 85;

/// Stores an element of an array of shorts.
pub const SASTORE: u8 = 86;

/// Drops one place.
pub const POP: u8 = 87;

/// Drops two places.
pub const POP2: u8 = 88;

/// Copies the top place.
pub const DUP: u8 = 89;

/// Copies the top place under the next one.
pub const DUP_X1: u8 = 90;

/// Copies the top place under the next two places.
pub const DUP_X2: u8 = 91;

/// Copies the top two places.
pub const DUP2: u8 = 92;

/// Copies the top two places under the next one.
pub const DUP2_X1: u8 = 93;

/// Copies the top two places under the next two places.
pub const DUP2_X2: u8 = 94;

/// Exchanges the top two values.
pub const SWAP: u8 = 95;

/// Adds two ints.
pub const IADD: u8 = 96;

/// Adds two longs.
pub const LADD: u8 = 97;

/// Adds two floats.
pub const FADD: u8 = 98;

/// Adds two doubles.
pub const DADD: u8 = 99;

/// Subtracts one int from another.
pub const ISUB: u8 = 100;

/// Subtracts one long from another.
pub const LSUB: u8 = 101;

/// Subtracts one float from another.
pub const FSUB: u8 = 102;

/// Subtracts one double from another.
pub const DSUB: u8 = 103;

/// Multiplies two ints.
pub const IMUL: u8 = 104;

/// Multiplies two longs.
pub const LMUL: u8 = 105;

/// Multiplies two floats.
pub const FMUL: u8 = 106;

/// Multiplies two doubles.
pub const DMUL: u8 = 107;

/// Divides one int by another.
pub const IDIV: u8 = 108;

/// Divides one long by another.
pub const LDIV: u8 = 109;

/// Divides one float by another.
pub const FDIV: u8 = 110;

/// Divides one double by another.
pub const DDIV: u8 = 111;

/// The remainder of a division of one int by another.
pub const IREM: u8 = 112;

/// The remainder of a division of one long by another.
pub const LREM: u8 = 113;

/// The remainder of a division of one float by another.
pub const FREM: u8 = 114;

/// The remainder of a division of one double by another.
pub const DREM: u8 = 115;

/// Negates an int.
pub const INEG: u8 = 116;

/// Negates a long.
pub const LNEG: u8 = 117;

/// Negates a float.
pub const FNEG: u8 = 118;

/// Negates a double.
pub const DNEG: u8 = 119;

/// Shifts an int to the left.
pub const ISHL: u8 = 120;

/// Shifts a long to the left.
pub const LSHL: u8 = 121;

/// Shifts an int to the right, and keeps its sign.
pub const ISHR: u8 = 122;

/// Shifts a long to the right, and keeps its sign.
pub const LSHR: u8 = 123;

/// Shifts an int to the right, and zeros come in.
pub const IUSHR: u8 = 124;

/// Shifts a long to the right, and zeros come in.
pub const LUSHR: u8 = 125;

/// The bits that are set in both of two ints.
pub const IAND: u8 = 126;

/// The bits that are set in both of two longs.
pub const LAND: u8 = 127;

/// The bits that are set in at least one of two ints.
pub const IOR: u8 = 128;

/// The bits that are set in at least one of two longs.
pub const LOR: u8 = 129;

/// The bits in which two ints differ.
pub const IXOR: u8 = 130;

/// The bits in which two longs differ.
pub const LXOR: u8 = 131;

/// Adds to an int of a local variable.
pub const IINC: u8 = 132;

/// Converts an int to a long.
pub const I2L: u8 = 133;

/// Converts an int to a float.
pub const I2F: u8 = 134;

/// Converts an int to a double.
pub const I2D: u8 = 135;

/// Converts a long to an int.
pub const L2I: u8 = 136;

/// Converts a long to a float.
pub const L2F: u8 = 137;

/// Converts a long to a double.
pub const L2D: u8 = 138;

/// Converts a float to an int.
pub const F2I: u8 = 139;

/// Converts a float to a long.
pub const F2L: u8 = 140;

/// Converts a float to a double.
pub const F2D: u8 = 141;

/// Converts a double to an int.
pub const D2I: u8 = 142;

/// Converts a double to a long.
pub const D2L: u8 = 143;

/// Converts a double to a float.
pub const D2F: u8 = 144;

/// Converts an int to a byte.
pub const I2B: u8 = 145;

/// Converts an int to a char.
pub const I2C: u8 = 146;

/// Converts an int to a short.
pub const I2S: u8 = 147;

/// Compares two longs.
pub const LCMP: u8 = 148;

/// Compares two floats, with -1 where one is NaN.
pub const FCMPL: u8 = 149;

/// Compares two floats, with 1 where one is NaN.
pub const FCMPG: u8 = 150;

/// Compares two doubles, with -1 where one is NaN.
pub const DCMPL: u8 = 151;

/// Compares two doubles, with 1 where one is NaN.
pub const DCMPG: u8 = 152;

/// Jumps where an int is 0.
pub const IFEQ: u8 = 153;

/// Jumps where an int is not 0.
pub const IFNE: u8 = 154;

/// Jumps where an int is below 0.
pub const IFLT: u8 = 155;

/// Jumps where an int is at least 0.
pub const IFGE: u8 = 156;

/// Jumps where an int is above 0.
pub const IFGT: u8 = 157;

/// Jumps where an int is at most 0.
pub const IFLE: u8 = 158;

/// Jumps where two ints are equal.
pub const IF_ICMPEQ: u8 = 159;

/// Jumps where two ints differ.
pub const IF_ICMPNE: u8 = 160;

/// Jumps where the first of two ints is less.
pub const IF_ICMPLT: u8 = 161;

/// Jumps where the first of two ints is not less.
pub const IF_ICMPGE: u8 = 162;

/// Jumps where the first of two ints is greater.
pub const IF_ICMPGT: u8 = 163;

/// Jumps where the first of two ints is not greater.
pub const IF_ICMPLE: u8 = 164;

/// Jumps where two references are the same.
pub const IF_ACMPEQ: u8 = 165;

/// Jumps where two references are not the same.
pub const IF_ACMPNE: u8 = 166;

/// Jumps.
pub const GOTO: u8 = 167;

/// Calls a subroutine of the method.
pub const JSR: u8 = 168;

/// Returns from a subroutine of the method.
pub const RET: u8 = 169;

/// Jumps by an int of a range.
pub const TABLESWITCH: u8 = 170;

/// Jumps by an int that is looked for.
pub const LOOKUPSWITCH: u8 = 171;

/// Returns an int.
pub const IRETURN: u8 = 172;

/// Returns a long.
pub const LRETURN: u8 = 173;

/// Returns a float.
pub const FRETURN: u8 = 174;

/// Returns a double.
pub const DRETURN: u8 = 175;

/// Returns a reference.
pub const ARETURN: u8 = 176;

/// Returns without a result.
pub const RETURN: u8 = 177;

/// Reads a static field.
pub const GETSTATIC: u8 = 178;

/// Writes a static field.
pub const PUTSTATIC: u8 = 179;

/// Reads a field of an object.
pub const GETFIELD: u8 = 180;

/// Writes a field of an object.
pub const PUTFIELD: u8 = 181;

/// Calls a method by the class of an object.
pub const INVOKEVIRTUAL: u8 = 182;

/// Calls a constructor, a private method or one of a class above.
pub const INVOKESPECIAL: u8 = 183;

/// Calls a static method.
pub const INVOKESTATIC: u8 = 184;

/// Calls a method of an interface.
pub const INVOKEINTERFACE: u8 = 185;

/// Calls what a bootstrap method links.
pub const INVOKEDYNAMIC: u8 = 186;

/// Makes an object.
pub const NEW: u8 = 187;

/// Makes an array of numbers or booleans.
pub const NEWARRAY: u8 = 188;

/// Makes an array of references.
pub const ANEWARRAY: u8 = 189;

/// Pushes the length of an array.
pub const ARRAYLENGTH: u8 = 190;

/// Throws a reference.
pub const ATHROW: u8 = 191;

/// Throws where a reference is of another class.
pub const CHECKCAST: u8 = 192;

/// Tests the class of a reference.
pub const INSTANCEOF: u8 = 193;

/// Enters the monitor of an object.
pub const MONITORENTER: u8 = 194;

/// Leaves the monitor of an object.
pub const MONITOREXIT: u8 = 195;

/// Gives the next instruction operands of two bytes.
pub const WIDE: u8 = 196;

/// Makes an array of arrays.
pub const MULTIANEWARRAY: u8 = 197;

/// Jumps where a reference is null.
pub const IFNULL: u8 = 198;

/// Jumps where a reference is not null.
pub const IFNONNULL: u8 = 199;

/// Jumps, by an offset of four bytes.
pub const GOTO_W: u8 = 200;

/// Calls a subroutine, by an offset of four bytes.
pub const JSR_W: u8 = 201;
