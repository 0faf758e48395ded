//! The trees of fragments.
//!
//! A node has the position of its first token, or begins with a part that has it.

use crate::names::{Base, Ident, Literal, Name, TypeName};
use crate::operators::{AssignOp, BinaryOp, CastTo, StepOp, UnaryOp};
use je_base::{Pos, Text};
use sqlite_items::{Boxed, Items};

/// An expression (JLS 15).
#[cycle(tree)]
#[derive(Drop)]
pub enum Expr {
    Literal(Pos, Literal),
    This(Pos),
    /// A dollar name with a value.
    Dollar(Pos, Text),
    /// Parentheses round an expression, and how many more in them.
    Paren(Pos, usize, Boxed<Expr>),
    /// `$proceed(..)`
    Proceed(Pos, Items<Arg>),
    /// `m(..)`
    Call(Ident, Items<Arg>),
    Name(Name),
    /// `C#f`
    ClassField(Name, Ident),
    /// `C#m(..)`
    ClassCall(Name, Ident, Items<Arg>),
    /// `a.b.m(..)`
    NameCall(Name, Ident, Items<Arg>),
    /// `super.m(..)`
    SuperCall(Pos, Ident, Items<Arg>),
    /// `new C(..)`
    New(Pos, Name, Items<Arg>),
    /// `new T[..][]`: sizes, one at least, and how many `[]` follow.
    NewArray(Pos, Base, Items<Expr>, u8),
    /// `new T[] { .. }`
    NewItems(Pos, Base, Items<Expr>),
    /// `e.f`
    Field(Boxed<Expr>, Ident),
    /// `e.m(..)`
    Method(Boxed<Expr>, Ident, Items<Arg>),
    /// `e[i]`
    Index(Boxed<Expr>, Boxed<Expr>),
    /// `e++`, `e--`
    Step(Boxed<Expr>, StepOp),
    Unary(Pos, UnaryOp, Boxed<Expr>),
    Cast(Pos, CastTo, Boxed<Expr>),
    Binary(Boxed<Expr>, BinaryOp, Boxed<Expr>),
    InstanceOf(Boxed<Expr>, TypeName),
    /// `c ? a : b`
    Choose(Boxed<Expr>, Boxed<Expr>, Boxed<Expr>),
    Assign(Boxed<Expr>, AssignOp, Boxed<Expr>),
}

/// An argument of a call.
#[cycle(tree)]
#[derive(Drop)]
pub enum Arg {
    Value(Expr),
    /// `$$`, all parameters.
    Parameters(Pos),
}

/// A statement (JLS 14).
#[cycle(statements)]
#[derive(Drop)]
pub enum Stmt {
    Block(Block),
    Empty(Pos),
    Local(Local),
    Expr(Expr),
    /// Its condition, its branch, and the one behind `else`.
    If(Pos, Expr, Boxed<Stmt>, Option<Boxed<Stmt>>),
    While(Pos, Expr, Boxed<Stmt>),
    Do(Pos, Boxed<Stmt>, Expr),
    For(Pos, ForInit, Option<Expr>, Items<Expr>, Boxed<Stmt>),
    Return(Pos, Option<Expr>),
    Throw(Pos, Expr),
    Break(Pos),
    Continue(Pos),
    /// Its block, and one catch at least.
    Try(Pos, Block, Items<Catch>),
}

/// A block (JLS 14.2).
#[cycle(statements)]
#[derive(Drop)]
pub struct Block {
    pub pos: Pos,
    pub stmts: Items<Stmt>,
}

/// A catch clause (JLS 14.20).
#[cycle(statements)]
#[derive(Drop)]
pub struct Catch {
    pub pos: Pos,
    pub class_name: Name,
    pub variable: Ident,
    pub block: Block,
}

/// The first part of the head of a `for` (JLS 14.14.1).
#[derive(Drop)]
pub enum ForInit {
    Local(Local),
    /// Maybe none.
    Exprs(Items<Expr>),
}

/// Declared variables of one type, one at least (JLS 14.4).
#[derive(Drop)]
pub struct Local {
    pub type_name: TypeName,
    pub variables: Items<Variable>,
}

/// A declared variable.
#[derive(Drop)]
pub struct Variable {
    pub ident: Ident,
    pub init: Option<Init>,
}

/// What a variable begins with.
#[derive(Drop)]
pub enum Init {
    Value(Expr),
    /// `{ .. }`, of an array of one dimension.
    Items(Pos, Items<Expr>),
}

/// A fragment: its block.
#[derive(Drop)]
pub struct Fragment {
    pub block: Block,
}
