//! Reading of scripts.

ghost use Rattle.std.specs.Prelude.{◌≡◌, List, IfOk, MatchResult};
ghost use Rattle.je_session.specs.declared.plan.Script.{Script};
ghost use Rattle.je_session.specs.Script.{ScriptForm};
ghost use Rattle.je_session.specs.Reading.{Gives, is_reserved, is_ident, after_word, after_mark};
ghost use Rattle.je_session.specs.Reading.{ident_at, empty_at, proceed_at, body_at, fragment_at};
ghost use Rattle.je_session.specs.Reading.{rule_at, plan_at, end_at, script_at};

use crate::plan::{Fragment, MethodPlan, Rule, Script};
use crate::script::token::Token;
use crate::script::tokens::{ScriptStop, tokens};
use je_base::Text;
use sqlite_items::Items;
use std::alloc::Global;

/// The reserved words of Java SE 8 (JLS 3.9), with `true`, `false` and `null`.
pub const RESERVED: [&[u8]; 53] = [
    b"abstract",
    b"assert",
    b"boolean",
    b"break",
    b"byte",
    b"case",
    b"catch",
    b"char",
    b"class",
    b"const",
    b"continue",
    b"default",
    b"do",
    b"double",
    b"else",
    b"enum",
    b"extends",
    b"final",
    b"finally",
    b"float",
    b"for",
    b"goto",
    b"if",
    b"implements",
    b"import",
    b"instanceof",
    b"int",
    b"interface",
    b"long",
    b"native",
    b"new",
    b"package",
    b"private",
    b"protected",
    b"public",
    b"return",
    b"short",
    b"static",
    b"strictfp",
    b"super",
    b"switch",
    b"synchronized",
    b"this",
    b"throw",
    b"throws",
    b"transient",
    b"try",
    b"void",
    b"volatile",
    b"while",
    b"true",
    b"false",
    b"null",
];

/// The script that a text is.
///
/// # Errors
///
/// `NotYet`: it is none, or one of a form that is not read so far. `Memory`: there was not enough
/// memory.
pub fn parse_script(alloc: Global, text: &[u8]) -> Result<Script, ScriptStop>
    ensures found { IfOk result (ScriptForm text.now) }
    // A script is read as what it is, unless memory runs out.
    ensures only { (script : Script) → ScriptForm text.now script
        → MatchResult result (λ s. s ≡ script) (λ e. e ≡ ScriptStop.Memory) }
{
    let tokens = tokens(alloc, text)?;
    script(alloc, &tokens)
}

/// `class CLASS { PLAN }`, and nothing after it.
#[tactic(auto, unfolding(crate::specs::Reading::script_at))]
fn script(alloc: Global, tokens: &[Token]) -> Result<Script, ScriptStop>
    ensures { Gives (λ s. s) result (script_at tokens.now) }
{
    let rest = after_word(tokens, b"class")?;
    let (class_name, rest) = ident(rest)?;
    let rest = after_mark(rest, b'{')?;
    let (plan, rest) = method_plan(alloc, rest)?;
    let rest = after_mark(rest, b'}')?;
    end(rest)?;
    Ok(Script { class_name, plan })
}

/// `method void METHOD() { RULE }`
#[tactic(auto, unfolding(crate::specs::Reading::plan_at))]
fn method_plan(alloc: Global, tokens: &[Token]) -> Result<(MethodPlan, &[Token]), ScriptStop>
    ensures { Gives (λ x. (x.0, x.1.now)) result (plan_at tokens.now) }
{
    let rest = after_word(tokens, b"method")?;
    let rest = after_word(rest, b"void")?;
    let (name, rest) = ident(rest)?;
    let rest = after_mark(rest, b'(')?;
    let rest = after_mark(rest, b')')?;
    let rest = after_mark(rest, b'{')?;
    let (first, rest) = rule(rest)?;
    let rest = after_mark(rest, b'}')?;
    let mut rules = Items::new(alloc);
    rules.push(first)?;
    Ok((MethodPlan { name, rules }, rest))
}

/// `call CLASS.METHOD FRAGMENT`
#[tactic(auto, unfolding(crate::specs::Reading::rule_at))]
fn rule(tokens: &[Token]) -> Result<(Rule, &[Token]), ScriptStop>
    ensures { Gives (λ x. (x.0, x.1.now)) result (rule_at tokens.now) }
{
    let rest = after_word(tokens, b"call")?;
    let (class_name, rest) = ident(rest)?;
    let rest = after_mark(rest, b'.')?;
    let (member, rest) = ident(rest)?;
    let (fragment, rest) = fragment(rest)?;
    let rule = Rule {
        class_name,
        member,
        fragment,
    };
    Ok((rule, rest))
}

/// `{ }` or `{ $proceed($$); }`
#[tactic(auto, unfolding(crate::specs::Reading::fragment_at))]
fn fragment(tokens: &[Token]) -> Result<(Fragment, &[Token]), ScriptStop>
    ensures { Gives (λ x. (x.0, x.1.now)) result (fragment_at tokens.now) }
{
    let rest = after_mark(tokens, b'{')?;
    body(rest)
}

/// What follows the `{` of a fragment.
fn body(tokens: &[Token]) -> Result<(Fragment, &[Token]), ScriptStop>
    ensures { Gives (λ x. (x.0, x.1.now)) result (body_at tokens.now) }
{
    match tokens.first() {
        Some(Token::Word(_)) => proceed(tokens),
        _ => empty(tokens),
    }
}

/// `}`
#[tactic(auto, unfolding(crate::specs::Reading::empty_at))]
fn empty(tokens: &[Token]) -> Result<(Fragment, &[Token]), ScriptStop>
    ensures { Gives (λ x. (x.0, x.1.now)) result (empty_at tokens.now) }
{
    let rest = after_mark(tokens, b'}')?;
    Ok((Fragment::Empty, rest))
}

/// `$proceed($$); }`
#[tactic(auto, unfolding(crate::specs::Reading::proceed_at))]
fn proceed(tokens: &[Token]) -> Result<(Fragment, &[Token]), ScriptStop>
    ensures { Gives (λ x. (x.0, x.1.now)) result (proceed_at tokens.now) }
{
    let rest = after_word(tokens, b"$proceed")?;
    let rest = after_mark(rest, b'(')?;
    let rest = after_word(rest, b"$$")?;
    let rest = after_mark(rest, b')')?;
    let rest = after_mark(rest, b';')?;
    let rest = after_mark(rest, b'}')?;
    Ok((Fragment::Proceed, rest))
}

/// A name, and what follows it.
fn ident(tokens: &[Token]) -> Result<(Text, &[Token]), ScriptStop>
    ensures { Gives (λ x. (x.0, x.1.now)) result (ident_at tokens.now) }
{
    let Some((first, rest)) = tokens.split_first() else {
        return Err(ScriptStop::NotYet);
    };
    match first {
        Token::Word(name) if is_ident(name.bytes()) => Ok((name.copy()?, rest)),
        _ => Err(ScriptStop::NotYet),
    }
}

/// What follows a word.
fn after_word<'a>(tokens: &'a [Token], word: &[u8]) -> Result<&'a [Token], ScriptStop>
    ensures { Gives (λ rest. rest.now) result (after_word word.now tokens.now) }
{
    let Some((first, rest)) = tokens.split_first() else {
        return Err(ScriptStop::NotYet);
    };
    match first {
        Token::Word(found) if found.bytes() == word => Ok(rest),
        _ => Err(ScriptStop::NotYet),
    }
}

/// What follows a mark.
fn after_mark(tokens: &[Token], mark: u8) -> Result<&[Token], ScriptStop>
    ensures { Gives (λ rest. rest.now) result (after_mark mark tokens.now) }
{
    let Some((first, rest)) = tokens.split_first() else {
        return Err(ScriptStop::NotYet);
    };
    match first {
        Token::Mark(found) if *found == mark => Ok(rest),
        _ => Err(ScriptStop::NotYet),
    }
}

/// That no tokens are left.
fn end(tokens: &[Token]) -> Result<(), ScriptStop>
    ensures { Gives (λ nothing. nothing) result (end_at tokens.now) }
{
    if tokens.is_empty() {
        Ok(())
    } else {
        Err(ScriptStop::NotYet)
    }
}

/// Whether a word is a name.
fn is_ident(word: &[u8]) -> bool
    ensures { result ≡ is_ident word.now }
{
    match word.first() {
        Some(b'A'..=b'Z' | b'a'..=b'z' | b'_') => !is_reserved(word),
        _ => false,
    }
}

fn is_reserved(word: &[u8]) -> bool
    ensures { result ≡ is_reserved word.now }
{
    RESERVED.contains(&word)
}
