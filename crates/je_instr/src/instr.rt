//! Instructions.

ghost use Rattle.std.specs.Prelude.{◌≡◌, IfOk};

use je_base::Memory;
use je_consts::ConstIndex;
use sqlite_items::Items;
use std::alloc::Global;

/// An opcode (JVMS 6.2).
pub type Opcode = u8;

/// The number of a local variable, from 0. A long or double takes two (JVMS 2.6.1).
pub type Slot = u16;

/// The index of an instruction of a method, from 0. It counts instructions, not bytes.
pub type InstrIndex = u32;

/// A case of a lookupswitch: where a key leads.
#[derive(Clone, Copy, Debug, PartialEq, Eq)]
pub struct Case {
    /// The int that is looked for.
    pub key: i32,
    /// The instruction that it leads to.
    pub target: InstrIndex,
}

/// One instruction (JVMS 6.5).
///
/// Targets are indexes of instructions.
#[derive(Debug, Drop)]
pub enum Instr {
    /// An instruction without operands, which moves, computes, returns or throws.
    Simple(Opcode),
    /// Pushes an int of at most two bytes (iconst, bipush, sipush).
    IntPush(i32),
    /// Pushes a constant that takes one place (ldc, ldc_w).
    Ldc(ConstIndex),
    /// Pushes a constant that takes two places (ldc2_w).
    Ldc2(ConstIndex),
    /// Reads or writes the local variable of this slot (iload to aload, istore to astore).
    Local(Opcode, Slot),
    /// Adds to the int in the local variable of this slot (iinc).
    Iinc(Slot, i16),
    /// Jumps where a condition is met (ifeq to if_acmpne, ifnull, ifnonnull).
    Branch(Opcode, InstrIndex),
    /// Jumps (goto, goto_w).
    Goto(InstrIndex),
    /// Jumps by an int: the least key, the targets of it and of those next to it, and the target of
    /// all others (tableswitch).
    TableSwitch(i32, Items<InstrIndex>, InstrIndex),
    /// Jumps by an int: the cases in order of their keys, and the target of all others
    /// (lookupswitch).
    LookupSwitch(Items<Case>, InstrIndex),
    /// Reads or writes a field (getstatic, putstatic, getfield, putfield).
    Field(Opcode, ConstIndex),
    /// Calls a method (invokevirtual, invokespecial, invokestatic).
    Invoke(Opcode, ConstIndex),
    /// Calls a method of an interface, of so many slots of arguments with the object
    /// (invokeinterface).
    InvokeInterface(ConstIndex, u8),
    /// Calls what a bootstrap method links (invokedynamic).
    InvokeDynamic(ConstIndex),
    /// Makes an object of the class that the constant names (new).
    New(ConstIndex),
    /// Makes an array of the type of this code, which is 4 to 11 (newarray).
    NewArray(u8),
    /// Makes an array of the class that the constant names (anewarray).
    ANewArray(ConstIndex),
    /// Throws where a reference is not of the class that the constant names (checkcast).
    CheckCast(ConstIndex),
    /// Tests whether a reference is of the class that the constant names (instanceof).
    InstanceOf(ConstIndex),
    /// Makes an array of the class that the constant names, with sizes for so many dimensions
    /// (multianewarray).
    MultiNew(ConstIndex, u8),
}

impl Instr {
    /// The same instruction once more.
    ///
    /// # Errors
    ///
    /// `Memory`: there was no memory for the targets of a switch.
    pub fn copy(&self, alloc: Global) -> Result<Instr, Memory>
        ensures { IfOk result (λ i. i ≡ self.now) }
    {
        let copy = match self {
            Instr::Simple(opcode) => Instr::Simple(*opcode),
            Instr::IntPush(n) => Instr::IntPush(*n),
            Instr::Ldc(index) => Instr::Ldc(*index),
            Instr::Ldc2(index) => Instr::Ldc2(*index),
            Instr::Local(opcode, slot) => Instr::Local(*opcode, *slot),
            Instr::Iinc(slot, by) => Instr::Iinc(*slot, *by),
            Instr::Branch(opcode, target) => Instr::Branch(*opcode, *target),
            Instr::Goto(target) => Instr::Goto(*target),
            Instr::TableSwitch(low, targets, fallback) => {
                let targets = Items::from_slice(alloc, targets.as_slice())?;
                Instr::TableSwitch(*low, targets, *fallback)
            }
            Instr::LookupSwitch(cases, fallback) => {
                let cases = Items::from_slice(alloc, cases.as_slice())?;
                Instr::LookupSwitch(cases, *fallback)
            }
            Instr::Field(opcode, index) => Instr::Field(*opcode, *index),
            Instr::Invoke(opcode, index) => Instr::Invoke(*opcode, *index),
            Instr::InvokeInterface(index, count) => Instr::InvokeInterface(*index, *count),
            Instr::InvokeDynamic(index) => Instr::InvokeDynamic(*index),
            Instr::New(index) => Instr::New(*index),
            Instr::NewArray(code) => Instr::NewArray(*code),
            Instr::ANewArray(index) => Instr::ANewArray(*index),
            Instr::CheckCast(index) => Instr::CheckCast(*index),
            Instr::InstanceOf(index) => Instr::InstanceOf(*index),
            Instr::MultiNew(index, count) => Instr::MultiNew(*index, *count),
        };
        Ok(copy)
    }
}
