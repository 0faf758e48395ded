//! Instructions with operands that name no constant (JVMS 6.5).

ghost use Rattle.std.specs.Prelude.{◌≡◌, Some, option_map};
ghost use Rattle.je_desc.specs.FieldType as types;
ghost use Rattle.je_instr.specs.Opcodes.{beside, local_operations, conditions, array_types};
ghost use Rattle.je_machine.specs.Action as actions;
ghost use Rattle.je_machine.specs.Operation as machine;
ghost use Rattle.je_value.specs.Condition.{condition_in};
ghost use Rattle.je_value.specs.FieldType.{base_in};
ghost use Rattle.je_value.specs.Kind.{kind_in};

use crate::made::act;
use je_instr::{InstrIndex, Opcode, Slot, opcodes as op};
use je_value::{
    ActionForm, BaseType, Comparison, Condition, ElementType, FieldType, Kind, KindForm, Operation,
    OperationForm,
};

/// Reads the local variable.
fn load(kind: KindForm, slot: Slot) -> Option<Operation>
    ensures { result ≡ Some (machine.Load (kind_in kind) slot) }
{
    Some(Operation::of(OperationForm::Load(Kind::of(kind), slot as usize)))
}

/// Writes the local variable.
fn store(kind: KindForm, slot: Slot) -> Option<Operation>
    ensures { result ≡ Some (machine.Store (kind_in kind) slot) }
{
    Some(Operation::of(OperationForm::Store(Kind::of(kind), slot as usize)))
}

/// iload to aload, and istore to astore.
#[tactic(auto, unfolding(je_instr::specs::Opcodes::local_operations))]
pub(crate) fn local(opcode: Opcode, slot: Slot) -> Option<Operation>
    ensures { result ≡ option_map (λ make. make slot) (beside local_operations opcode) }
{
    match opcode {
        op::ILOAD => load(KindForm::Int, slot),
        op::LLOAD => load(KindForm::Long, slot),
        op::FLOAD => load(KindForm::Float, slot),
        op::DLOAD => load(KindForm::Double, slot),
        op::ALOAD => load(KindForm::Reference, slot),
        op::ISTORE => store(KindForm::Int, slot),
        op::LSTORE => store(KindForm::Long, slot),
        op::FSTORE => store(KindForm::Float, slot),
        op::DSTORE => store(KindForm::Double, slot),
        op::ASTORE => store(KindForm::Reference, slot),
        _ => None,
    }
}

/// iinc.
pub(crate) fn increment(slot: Slot, by: i16) -> Operation
    ensures { result ≡ machine.Increment slot by }
{
    Operation::of(OperationForm::Increment(slot as usize, by as i32))
}

/// goto and goto_w.
pub(crate) fn goto(target: InstrIndex) -> Operation
    ensures { result ≡ machine.Goto target }
{
    Operation::of(OperationForm::Goto(target as usize))
}

/// The condition under which ifeq to if_acmpne, ifnull and ifnonnull jump.
#[tactic(auto, unfolding(je_instr::specs::Opcodes::conditions))]
fn condition(opcode: Opcode) -> Option<Condition>
    ensures { option_map condition_in result ≡ beside conditions opcode }
{
    match opcode {
        op::IFEQ => Some(Condition::Zero(Comparison::Equals)),
        op::IFNE => Some(Condition::Zero(Comparison::Differs)),
        op::IFLT => Some(Condition::Zero(Comparison::IsLess)),
        op::IFGE => Some(Condition::Zero(Comparison::IsNotLess)),
        op::IFGT => Some(Condition::Zero(Comparison::IsGreater)),
        op::IFLE => Some(Condition::Zero(Comparison::IsNotGreater)),
        op::IF_ICMPEQ => Some(Condition::Ints(Comparison::Equals)),
        op::IF_ICMPNE => Some(Condition::Ints(Comparison::Differs)),
        op::IF_ICMPLT => Some(Condition::Ints(Comparison::IsLess)),
        op::IF_ICMPGE => Some(Condition::Ints(Comparison::IsNotLess)),
        op::IF_ICMPGT => Some(Condition::Ints(Comparison::IsGreater)),
        op::IF_ICMPLE => Some(Condition::Ints(Comparison::IsNotGreater)),
        op::IF_ACMPEQ => Some(Condition::Same(true)),
        op::IF_ACMPNE => Some(Condition::Same(false)),
        op::IFNULL => Some(Condition::IsNull(true)),
        op::IFNONNULL => Some(Condition::IsNull(false)),
        _ => None,
    }
}

/// ifeq to if_acmpne, ifnull and ifnonnull.
pub(crate) fn branch(opcode: Opcode, target: InstrIndex) -> Option<Operation>
    ensures { result ≡ option_map (λ condition. machine.Branch condition target)
        (beside conditions opcode) }
{
    match condition(opcode) {
        Some(condition) => {
            Some(Operation::of(OperationForm::Branch(condition, target as usize)))
        }
        None => None,
    }
}

/// The type of the elements that newarray makes (JVMS table 6.5.newarray-A).
#[tactic(auto, unfolding(je_instr::specs::Opcodes::array_types))]
fn base_of(code: u8) -> Option<BaseType>
    ensures { option_map base_in result ≡ beside array_types code }
{
    match code {
        4 => Some(BaseType::Boolean),
        5 => Some(BaseType::Char),
        6 => Some(BaseType::Float),
        7 => Some(BaseType::Double),
        8 => Some(BaseType::Byte),
        9 => Some(BaseType::Short),
        10 => Some(BaseType::Int),
        11 => Some(BaseType::Long),
        _ => None,
    }
}

/// newarray.
pub(crate) fn new_array(code: u8) -> Option<Operation>
    ensures { result ≡ option_map (λ base. machine.Do (machine.Act
        (actions.NewArray (types.Array (types.Base base)) 1))) (beside array_types code) }
{
    match base_of(code) {
        Some(base) => {
            let of = FieldType::of(1, ElementType::Base(base));
            Some(act(ActionForm::NewArray(of, 1)))
        }
        None => None,
    }
}
