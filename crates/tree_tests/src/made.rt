use je_base::{Pos, Text};
use je_tree::{Block, Expr, Fragment, Ident, Literal, Name, Stmt, nodes};
use sqlite_items::Items;
use std::test::Fail;

pub fn pos() -> Pos {
    Pos { line: 1, column: 1 }
}

pub fn ident(rt: &HostRuntime, text: &str) -> Result<Ident, Fail> {
    let text = Text::of(rt.alloc(), text)?;
    Ok(Ident { text, pos: pos() })
}

/// A name of one identifier.
pub fn name(rt: &HostRuntime, text: &str) -> Result<Name, Fail> {
    let mut parts = Items::new(rt.alloc());
    parts.push(ident(rt, text)?)?;
    Ok(Name { parts })
}

/// A name of two identifiers.
pub fn dotted(rt: &HostRuntime, first: &str, second: &str) -> Result<Name, Fail> {
    let Name { mut parts } = name(rt, first)?;
    parts.push(ident(rt, second)?)?;
    Ok(Name { parts })
}

/// `1`
pub fn one() -> Expr {
    Expr::Literal(pos(), Literal::Whole(1, false, true))
}

/// A block of one statement.
pub fn block_of(rt: &HostRuntime, stmt: Stmt) -> Result<Block, Fail> {
    let mut stmts = Items::new(rt.alloc());
    stmts.push(stmt)?;
    Ok(Block { pos: pos(), stmts })
}

/// How many nodes a fragment of one statement has.
pub fn nodes_of(rt: &HostRuntime, stmt: Stmt) -> Result<u32, Fail> {
    let block = block_of(rt, stmt)?;
    Ok(nodes(&Fragment { block }))
}
