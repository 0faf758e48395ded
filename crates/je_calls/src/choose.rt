//! What becomes of each instruction.

ghost use Rattle.std.specs.Prelude.{◌≡◌, ◌↔◌, option_map, count_by, length, true, IsTrue};
ghost use Rattle.std.specs.Prelude.{IfOk, IfErr, OnOk};
ghost use Rattle.std.specs.List.{find};
ghost use Rattle.je_machine.specs.Operation.{Act, Do};
ghost use Rattle.je_calls.specs.declared.stop.CallStop.TheVariants as stops;
ghost use Rattle.je_calls.specs.Chosen.{named_method, called_method, fits, chosen_fragment};
ghost use Rattle.je_calls.specs.Chosen.{choice_if, is_given, IsPlain, IsReplaceable};
ghost use Rattle.je_calls.specs.Choices.{choices_by, AreReplaceable};

use crate::rule::{Choice, Fragment, Rule};
use crate::stop::CallStop;
use je_base::{Memory, Run};
use je_shape::Shape;
use je_value::{
    Action, ActionForm, Basic, BasicForm, Content, ContentForm, Operation, OperationForm,
};
use std::alloc::Global;

/// The class and the name of the method that a constant names.
fn named_method(content: &Content) -> Option<(&Run, &Run)>
    ensures { option_map (λ p. (p.0.now, p.1.now)) result ≡ named_method content.now }
{
    match content.form() {
        ContentForm::Member(_, class, name, _) => Some((class, name)),
        _ => None,
    }
}

/// Those of the method that an action calls.
fn called_by(action: &Action) -> Option<(&Run, &Run)>
    ensures { option_map (λ p. (p.0.now, p.1.now)) result ≡ called_method (Do (Act action.now)) }
{
    match action.form() {
        ActionForm::Invoke(_, method, _) => named_method(method),
        _ => None,
    }
}

/// The same of what works on the stack and the outside.
fn called_in(basic: &Basic) -> Option<(&Run, &Run)>
    ensures { option_map (λ p. (p.0.now, p.1.now)) result ≡ called_method (Do basic.now) }
{
    match basic.form() {
        BasicForm::Act(action) => called_by(action),
        _ => None,
    }
}

/// The class and the name of the method that an instruction calls.
fn called_method(operation: &Operation) -> Option<(&Run, &Run)>
    ensures { option_map (λ p. (p.0.now, p.1.now)) result ≡ called_method operation.now }
{
    match operation.form() {
        OperationForm::Do(basic) => called_in(basic),
        _ => None,
    }
}

/// Whether the rule is for calls of this method of this class.
fn fits(rule: &Rule, class: &Run, name: &Run) -> bool
    ensures { result ≡ fits (class.now, name.now) rule.now }
{
    rule.class_name.bytes() == class.as_slice() && rule.member.bytes() == name.as_slice()
}

/// The fragment of the first rule for calls of this method.
fn fragment_for(rules: &[Rule], class: &Run, name: &Run) -> Option<Fragment>
    ensures { result
        ≡ option_map (λ rule. rule.fragment) (find (fits (class.now, name.now)) rules.now) }
{
    let rule = rules.iter().find(|rule| fits(rule, class, name))?;
    Some(rule.fragment)
}

/// The fragment of the first rule that fits the instruction.
fn chosen_fragment(rules: &[Rule], operation: &Operation) -> Option<Fragment>
    ensures { result ≡ chosen_fragment rules.now operation.now }
{
    match called_method(operation) {
        Some((class, name)) => fragment_for(rules, class, name),
        None => None,
    }
}

/// Whether the action takes nothing from the stack and leaves nothing there.
fn is_plain_action(alloc: Global, action: &Action) -> Result<bool, Memory>
    ensures { IfOk result (λ plain. IsTrue plain ↔ IsPlain (Do (Act action.now))) }
{
    let operands = action.operands_of(alloc)?;
    Ok(operands.is_empty() && action.result_of().is_none())
}

/// Whether it is such an action.
fn is_plain_basic(alloc: Global, basic: &Basic) -> Result<bool, Memory>
    ensures { IfOk result (λ plain. IsTrue plain ↔ IsPlain (Do basic.now)) }
{
    match basic.form() {
        BasicForm::Act(action) => is_plain_action(alloc, action),
        _ => Ok(false),
    }
}

/// Whether the instruction is an action that takes nothing from the stack and leaves nothing there.
fn is_plain(alloc: Global, operation: &Operation) -> Result<bool, Memory>
    ensures { IfOk result (λ plain. IsTrue plain ↔ IsPlain operation.now) }
{
    match operation.form() {
        OperationForm::Do(basic) => is_plain_basic(alloc, basic),
        _ => Ok(false),
    }
}

/// What becomes of an instruction that is reached.
///
/// `NotYet`: a rule fits it, and it takes something from the stack or leaves something there.
fn choose_reached(alloc: Global, operation: &Operation, rules: &[Rule]) -> Result<Choice, CallStop>
    ensures chosen { IfOk result (λ choice. choice ≡ choice_if true rules.now operation.now) }
    ensures form { OnOk result (IsReplaceable rules.now operation.now) }
    ensures not_yet { IfErr result (λ e.
        e ≡ stops.NotYet → IsReplaceable rules.now operation.now → ⊥) }
{
    match chosen_fragment(rules, operation) {
        Some(fragment) => {
            if !is_plain(alloc, operation)? {
                return Err(CallStop::NotYet);
            }
            Ok(Choice::Gives(fragment))
        }
        None => Ok(Choice::Stays),
    }
}

/// What becomes of an instruction.
fn choose_one(
    alloc: Global,
    operation: &Operation,
    reached: bool,
    rules: &[Rule],
) -> Result<Choice, CallStop>
    ensures chosen { IfOk result (λ choice. choice ≡ choice_if reached rules.now operation.now) }
    ensures form { OnOk result (IsTrue reached → IsReplaceable rules.now operation.now) }
    ensures not_yet { IfErr result (λ e.
        e ≡ stops.NotYet → (IsTrue reached → IsReplaceable rules.now operation.now) → ⊥) }
{
    if reached {
        choose_reached(alloc, operation, rules)
    } else {
        Ok(Choice::Drops)
    }
}

/// What becomes of each instruction, by whether there is a shape for it.
///
/// `NotYet`: a rule fits one that is reached, and it takes something from the stack or leaves
/// something there.
pub fn choices_of(
    alloc: Global,
    operations: &[Operation],
    list: &[Option<Shape>],
    rules: &[Rule],
) -> Result<Vec<Choice>, CallStop>
    requires { length list.now ≡ length operations.now }
    ensures chosen { IfOk result (λ choices.
        choices.items ≡ choices_by rules.now list.now operations.now) }
    ensures form { OnOk result (AreReplaceable rules.now list.now operations.now) }
    ensures not_yet { IfErr result (λ e.
        e ≡ stops.NotYet → AreReplaceable rules.now list.now operations.now → ⊥) }
{
    let mut choices = Vec::new(alloc);
    let mut shapes = list;
    let mut rest = operations;
    while let Some((operation, behind)) = rest.split_first() {
        let Some((shape, left)) = shapes.split_first() else {
            unreachable!();
        };
        let choice = choose_one(alloc, operation, shape.is_some(), rules)?;
        choices.push(choice)?;
        shapes = left;
        rest = behind;
    }
    Ok(choices)
}

/// How many fragments are chosen.
pub fn count_given(choices: &[Choice]) -> usize
    ensures { result ≡ count_by is_given choices.now }
{
    choices
        .iter()
        .filter(|choice| matches!(choice, Choice::Gives(_)))
        .count()
}
