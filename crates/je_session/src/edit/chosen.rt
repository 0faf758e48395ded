//! Which of a method's instructions give way to a fragment.

ghost use Rattle.std.specs.Prelude.{◌≡◌, [], List, None, codes, count_by, is_some, IfOk, IfErr};
ghost use Rattle.std.specs.Prelude.{OnOk, OnErr};
ghost use Rattle.std.specs.List.{AllByRecursion};
ghost use Rattle.je_consts.specs.declared.constant.MemberTag.TheVariants.{Method};
ghost use Rattle.je_machine.specs.Content.{Member};
ghost use Rattle.je_machine.specs.Operation.{Operation};
ghost use Rattle.je_instr.specs.Resolves.{Resolves};
ghost use Rattle.je_session.specs.declared.edit.stop.EditStop.TheVariants as stops;
ghost use Rattle.je_session.specs.Chosen.{fits};
ghost use Rattle.je_session.specs.Kept.{IsSoFar};
ghost use Rattle.je_session.specs.Splice.{static_call, chosen_fragment, AreChosen};

use crate::edit::stop::EditStop;
use crate::plan::{Fragment, Rule};
use je_base::Text;
use je_consts::Consts;
use je_instr::{Instr, called_method, opcodes, opcodes_mean};
use sqlite_items::Items;
use std::alloc::Global;

/// Whether the rule is for calls of this method of this class.
fn fits(rule: &Rule, class_name: &Text, member: &Text) -> bool
    ensures { result ≡ fits (static_call class_name.now member.now) rule.now }
{
    rule.class_name == *class_name && rule.member == *member
}

/// The fragment of the first rule for calls of this method.
fn fragment_for(rules: &[Rule], class_name: &Text, member: &Text) -> Option<Fragment>
    ensures { result ≡ chosen_fragment rules.now (static_call class_name.now member.now) }
{
    let rule = rules.iter().find(|rule| fits(rule, class_name, member))?;
    Some(rule.fragment)
}

/// The fragment that the rules choose for an instruction.
///
/// `NotYet`: it is none that is edited so far, or calls what may not be called.
fn choose_one(consts: &Consts, instr: &Instr, rules: &[Rule]) -> Result<Option<Fragment>, EditStop>
    ensures chosen { IfOk result (λ choice. (operation : Operation)
        × Resolves consts.now instr.now operation
        × (choice ≡ chosen_fragment rules.now operation)) }
    ensures so_far { OnOk result (IsSoFar consts.now instr.now) }
    ensures not_yet { OnErr result (IsSoFar consts.now instr.now → ⊥) }
{
    // The law of the layer below that the proof stands on.
    opcodes_mean();

    match instr {
        Instr::Simple(opcodes::NOP) => Ok(None),
        Instr::Simple(opcodes::RETURN) => Ok(None),
        Instr::Invoke(opcodes::INVOKESTATIC, index) => match called_method(consts, *index) {
            Some((class_name, member)) => Ok(fragment_for(rules, class_name, member)),
            None => Err(EditStop::NotYet),
        },
        _ => Err(EditStop::NotYet),
    }
}

/// The fragment that the rules choose for each instruction.
///
/// # Errors
///
/// `NotYet`: one is none that is edited so far, or calls what may not be called.
pub fn choose(
    alloc: Global,
    consts: &Consts,
    instrs: &[Instr],
    rules: &[Rule],
) -> Result<Items<Option<Fragment>>, EditStop>
    ensures chosen { IfOk result (AreChosen consts.now rules.now instrs.now) }
    ensures not_yet { IfErr result (λ e. e ≡ stops.NotYet
        → AllByRecursion (IsSoFar consts.now) instrs.now → ⊥) }
{
    let mut chosen = Vec::new(alloc);
    for instr in instrs {
        chosen.push(choose_one(consts, instr, rules)?)?;
    }
    Ok(Items::from_vec(chosen))
}

/// How many fragments are chosen.
pub fn count_chosen(chosen: &[Option<Fragment>]) -> usize
    ensures { result ≡ count_by is_some chosen.now }
{
    chosen.iter().filter(|choice| choice.is_some()).count()
}
