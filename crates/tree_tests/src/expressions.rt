use crate::made::{dotted, ident, name, nodes_of, one, pos};
use je_base::Text;
use je_tree::{Arg, Base, BinaryOp, CastTo, Expr, Literal, Stmt, TypeName, UnaryOp};
use sqlite_items::{Boxed, Items};
use std::test::Fail;

// { ((a.b)); }
#[test]
fn parentheses_are_no_nodes(rt: HostRuntime) -> Result<(), Fail> {
    let inner = Boxed::new(rt.alloc(), Expr::Name(dotted(&rt, "a", "b")?))?;
    assert_eq!(rt; nodes_of(&rt, Stmt::Expr(Expr::Paren(pos(), 1, inner)))?, 5);
    Ok(())
}

// { f($$, 1); }
#[test]
fn all_parameters_are_a_node(rt: HostRuntime) -> Result<(), Fail> {
    let mut args = Items::new(rt.alloc());
    args.push(Arg::Parameters(pos()))?;
    args.push(Arg::Value(one()))?;
    assert_eq!(rt;
        nodes_of(&rt, Stmt::Expr(Expr::Call(ident(&rt, "f")?, args)))?,
        5
    );
    Ok(())
}

// { a.f(); }
#[test]
fn a_method_is_none_of_the_name(rt: HostRuntime) -> Result<(), Fail> {
    let call = Expr::NameCall(name(&rt, "a")?, ident(&rt, "f")?, Items::new(rt.alloc()));
    assert_eq!(rt; nodes_of(&rt, Stmt::Expr(call))?, 4);
    Ok(())
}

// { (a.b[]) null; }
#[test]
fn a_cast_has_the_name_of_its_type(rt: HostRuntime) -> Result<(), Fail> {
    let to = CastTo::Type(TypeName {
        base: Base::Class(dotted(&rt, "a", "b")?),
        dimensions: 1,
    });
    let null = Boxed::new(rt.alloc(), Expr::Literal(pos(), Literal::Null))?;
    assert_eq!(rt; nodes_of(&rt, Stmt::Expr(Expr::Cast(pos(), to, null)))?, 6);
    Ok(())
}

// { -1 + 1; }
#[test]
fn operators_are_nodes(rt: HostRuntime) -> Result<(), Fail> {
    let operand = Boxed::new(rt.alloc(), one())?;
    let left = Boxed::new(rt.alloc(), Expr::Unary(pos(), UnaryOp::Minus, operand))?;
    let right = Boxed::new(rt.alloc(), one())?;
    assert_eq!(rt;
        nodes_of(&rt, Stmt::Expr(Expr::Binary(left, BinaryOp::Add, right)))?,
        6
    );
    Ok(())
}

// { $1; }
#[test]
fn a_dollar_name_is_a_node(rt: HostRuntime) -> Result<(), Fail> {
    let first = Expr::Dollar(pos(), Text::of(rt.alloc(), "$1")?);
    assert_eq!(rt; nodes_of(&rt, Stmt::Expr(first))?, 3);
    Ok(())
}
