//! How many nodes a fragment has.
//!
//! All numbers stop at the greatest of 32 bits, so that a text of any length has one.

ghost use Rattle.std.specs.Prelude.{◌≡◌, ◌+◌, ℕ, [], ◌∷◌, map};
ghost use Rattle.je_tree.specs.Nodes.{counted, name_nodes, base_nodes, type_nodes, cast_nodes};
ghost use Rattle.je_tree.specs.Nodes.{expr_nodes, exprs_nodes, args_nodes};
ghost use Rattle.je_tree.specs.Tree.{exprs_of, args_of};
ghost use Rattle.je_tree.specs.Trees.{expr_of, arg_of};

use crate::names::{Base, Name};
use crate::operators::CastTo;
use crate::trees::{Arg, Expr};

/// As many as these and those.
pub(crate) fn both(these: u32, those: u32) -> u32
    ensures sum { result ≡ counted (these + those) }
    ensures whole { (m n : ℕ) → these ≡ counted m → those ≡ counted n → result ≡ counted (m + n) }
{
    these.saturating_add(those)
}

/// The parts of a node, and the node.
pub(crate) fn node(parts: u32) -> u32
    ensures { (n : ℕ) → parts ≡ counted n → result ≡ counted (n + 1) }
{
    parts.saturating_add(1)
}

/// The identifiers of a name.
pub(crate) fn name_count(name: &Name) -> u32
    ensures { result ≡ counted (name_nodes name.now) }
{
    match u32::try_from(name.parts.len()) {
        Ok(count) => count,
        Err(_) => u32::MAX,
    }
}

/// The nodes of a type.
pub(crate) fn base_count(base: &Base) -> u32
    ensures { result ≡ counted (base_nodes base.now) }
{
    match base {
        Base::Prim(_) => 0,
        Base::Class(name) => name_count(name),
    }
}

/// The nodes of the type of a cast.
fn cast_count(to: &CastTo) -> u32
    ensures { result ≡ counted (cast_nodes to.now) }
{
    match to {
        CastTo::Type(type_name) => base_count(&type_name.base),
        CastTo::Result => 0,
        CastTo::Wrapper => 0,
    }
}

/// The nodes of an expression.
#[cycle(count)]
pub(crate) fn expr_count(e: &Expr) -> u32
    ensures { result ≡ counted (expr_nodes (expr_of e.now)) }
{
    match e {
        Expr::Literal(_, _) => 1,
        Expr::This(_) => 1,
        Expr::Dollar(_, _) => 1,
        Expr::Paren(_, _, inner) => expr_count(inner.get()),
        Expr::Proceed(_, args) => node(args_count(args.as_slice())),
        Expr::Call(_, args) => node(args_count(args.as_slice())),
        Expr::Name(name) => node(name_count(name)),
        Expr::ClassField(name, _) => node(name_count(name)),
        Expr::ClassCall(name, _, args) => {
            node(both(name_count(name), args_count(args.as_slice())))
        }
        Expr::NameCall(name, _, args) => {
            node(both(name_count(name), args_count(args.as_slice())))
        }
        Expr::SuperCall(_, _, args) => node(args_count(args.as_slice())),
        Expr::New(_, name, args) => { node(both(name_count(name), args_count(args.as_slice()))) }
        Expr::NewArray(_, base, sizes, _) => {
            node(both(base_count(base), exprs_count(sizes.as_slice())))
        }
        Expr::NewItems(_, base, items) => {
            node(both(base_count(base), exprs_count(items.as_slice())))
        }
        Expr::Field(left, _) => node(expr_count(left.get())),
        Expr::Method(left, _, args) => {
            node(both(expr_count(left.get()), args_count(args.as_slice())))
        }
        Expr::Index(left, at) => node(both(expr_count(left.get()), expr_count(at.get()))),
        Expr::Step(left, _) => node(expr_count(left.get())),
        Expr::Unary(_, _, operand) => node(expr_count(operand.get())),
        Expr::Cast(_, to, operand) => node(both(cast_count(to), expr_count(operand.get()))),
        Expr::Binary(left, _, right) => node(both(expr_count(left.get()), expr_count(right.get()))),
        Expr::InstanceOf(left, type_name) => {
            node(both(expr_count(left.get()), base_count(&type_name.base)))
        }
        Expr::Choose(condition, first, second) => {
            let branches = both(expr_count(condition.get()), expr_count(first.get()));
            node(both(branches, expr_count(second.get())))
        }
        Expr::Assign(left, _, right) => node(both(expr_count(left.get()), expr_count(right.get()))),
    }
}

/// The nodes of expressions in a row.
#[cycle(count)]
pub(crate) fn exprs_count(exprs: &[Expr]) -> u32
    ensures { result ≡ counted (exprs_nodes (exprs_of (map expr_of exprs.now))) }
{
    let mut count = 0u32;
    for e in exprs {
        count = both(count, expr_count(e));
    }
    count
}

/// The nodes of arguments.
#[cycle(count)]
fn args_count(args: &[Arg]) -> u32
    ensures { result ≡ counted (args_nodes (args_of (map arg_of args.now))) }
{
    let mut count = 0u32;
    for arg in args {
        count = both(count, arg_count(arg));
    }
    count
}

/// The nodes of an argument.
#[cycle(count)]
fn arg_count(arg: &Arg) -> u32
    ensures { result ≡ counted (args_nodes (args_of (arg_of arg.now ∷ []))) }
{
    match arg {
        Arg::Value(e) => expr_count(e),
        Arg::Parameters(_) => 1,
    }
}
