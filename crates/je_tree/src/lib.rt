//! The syntax of fragments: their trees.
//!
//! Stands on je_base, je_desc and je_tokens. Offers above: the types of trees and plans, and how
//! many nodes a fragment has; and in specs/ the trees of fragments, which tokens a tree has, how
//! many nodes and how deep, what a first fault is, and what is lawful.
#![tactic(auto)]

mod count;
mod fragment;
mod laws;
mod names;
mod operators;
mod plans;
mod trees;

pub use fragment::nodes;
pub use laws::{
    differences_go_from_the_left, first_faults, lawful_forms, lawful_plans, limits, one_first_fault,
};
pub use names::{Base, Ident, Literal, Name, Prim, TypeName};
pub use operators::{AssignOp, BinaryOp, CastTo, StepOp, UnaryOp};
pub use plans::{CatchPlan, Context, Import, MethodPlan, Place, Rule};
pub use trees::{Arg, Block, Catch, Expr, ForInit, Fragment, Init, Local, Stmt, Variable};
