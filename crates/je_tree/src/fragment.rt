//! How many nodes the statements of a fragment have, and so the fragment.

ghost use Rattle.std.specs.Prelude.{◌≡◌, [], ◌∷◌, map};
ghost use Rattle.std.specs.Option.{option_map};
ghost use Rattle.je_tree.specs.Nodes.{counted, optional_nodes, init_nodes, variables_nodes};
ghost use Rattle.je_tree.specs.Nodes.{local_nodes, for_init_nodes, stmt_nodes, block_nodes};
ghost use Rattle.je_tree.specs.Nodes.{stmts_nodes, catches_nodes};
ghost use Rattle.je_tree.specs.Tree.{stmts_of, catches_of};
ghost use Rattle.je_tree.specs.Trees.{expr_of, init_of, variable_of, local_of, for_init_of};
ghost use Rattle.je_tree.specs.Trees.{stmt_of, block_of, catch_of, fragment_of};

use crate::count::{base_count, both, expr_count, exprs_count, name_count, node};
use crate::trees::{Block, Catch, Expr, ForInit, Fragment, Init, Local, Stmt, Variable};

/// How many nodes a fragment has. One of 2^32 nodes or more has 2^32 - 1 by this call.
///
/// A node is each statement, each block that is none, each catch, declared variable, initialiser in
/// braces, `$$` and expression, and each identifier of a name. Parentheses and types are no nodes.
pub fn nodes(f: &Fragment) -> u32
    ensures number { result ≡ counted (block_nodes (fragment_of f.now)) }
{
    block_count(&f.block)
}

/// The nodes of an expression that may be left out.
fn optional_count(e: &Option<Expr>) -> u32
    ensures { result ≡ counted (optional_nodes (option_map expr_of e.now)) }
{
    match e {
        None => 0,
        Some(e) => expr_count(e),
    }
}

/// The nodes of what a variable begins with.
fn init_count(init: &Option<Init>) -> u32
    ensures { result ≡ counted (init_nodes (init_of init.now)) }
{
    match init {
        None => 0,
        Some(Init::Value(e)) => expr_count(e),
        Some(Init::Items(_, items)) => node(exprs_count(items.as_slice())),
    }
}

/// The nodes of declared variables.
fn variables_count(variables: &[Variable]) -> u32
    ensures { result ≡ counted (variables_nodes (map variable_of variables.now)) }
{
    let mut count = 0u32;
    for variable in variables {
        count = both(count, node(init_count(&variable.init)));
    }
    count
}

/// The nodes of a declaration.
fn local_count(local: &Local) -> u32
    ensures { result ≡ counted (local_nodes (local_of local.now)) }
{
    both(
        base_count(&local.type_name.base),
        variables_count(local.variables.as_slice()),
    )
}

/// The nodes of the first part of the head of a `for`.
fn for_init_count(init: &ForInit) -> u32
    ensures { result ≡ counted (for_init_nodes (for_init_of init.now)) }
{
    match init {
        ForInit::Local(local) => local_count(local),
        ForInit::Exprs(exprs) => exprs_count(exprs.as_slice()),
    }
}

/// The nodes of a statement.
#[cycle(statements)]
fn stmt_count(stmt: &Stmt) -> u32
    ensures { result ≡ counted (stmt_nodes (stmt_of stmt.now)) }
{
    match stmt {
        Stmt::Block(block) => block_count(block),
        Stmt::Empty(_) => 1,
        Stmt::Local(local) => node(local_count(local)),
        Stmt::Expr(e) => node(expr_count(e)),
        Stmt::If(_, condition, then, None) => {
            node(both(expr_count(condition), stmt_count(then.get())))
        }
        Stmt::If(_, condition, then, Some(other)) => {
            let first = both(expr_count(condition), stmt_count(then.get()));
            node(both(first, stmt_count(other.get())))
        }
        Stmt::While(_, condition, body) => {
            node(both(expr_count(condition), stmt_count(body.get())))
        }
        Stmt::Do(_, body, condition) => {
            node(both(stmt_count(body.get()), expr_count(condition)))
        }
        Stmt::For(_, init, condition, steps, body) => {
            let head = both(for_init_count(init), optional_count(condition));
            let head = both(head, exprs_count(steps.as_slice()));
            node(both(head, stmt_count(body.get())))
        }
        Stmt::Return(_, value) => node(optional_count(value)),
        Stmt::Throw(_, e) => node(expr_count(e)),
        Stmt::Break(_) => 1,
        Stmt::Continue(_) => 1,
        Stmt::Try(_, block, catches) => {
            node(both(block_count(block), catches_count(catches.as_slice())))
        }
    }
}

/// The nodes of a block.
#[cycle(statements)]
fn block_count(block: &Block) -> u32
    ensures { result ≡ counted (block_nodes (block_of block.now)) }
{
    node(stmts_count(block.stmts.as_slice()))
}

/// The nodes of statements in a row.
#[cycle(statements)]
fn stmts_count(stmts: &[Stmt]) -> u32
    ensures { result ≡ counted (stmts_nodes (stmts_of (map stmt_of stmts.now))) }
{
    let mut count = 0u32;
    for stmt in stmts {
        count = both(count, stmt_count(stmt));
    }
    count
}

/// The nodes of catches in a row.
#[cycle(statements)]
fn catches_count(catches: &[Catch]) -> u32
    ensures { result ≡ counted (catches_nodes (catches_of (map catch_of catches.now))) }
{
    let mut count = 0u32;
    for catch in catches {
        count = both(count, catch_count(catch));
    }
    count
}

/// The nodes of a catch.
#[cycle(statements)]
fn catch_count(catch: &Catch) -> u32
    ensures { result ≡ counted (catches_nodes (catches_of (catch_of catch.now ∷ []))) }
{
    node(both(name_count(&catch.class_name), block_count(&catch.block)))
}
