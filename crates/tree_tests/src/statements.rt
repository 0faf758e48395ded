use crate::made::{block_of, dotted, ident, nodes_of, one, pos};
use je_tree::{
    Base, Block, Catch, Expr, ForInit, Fragment, Init, Literal, Local, Prim, Stmt, TypeName,
    Variable, nodes,
};
use sqlite_items::{Boxed, Items};
use std::test::Fail;

// {}
#[test]
fn an_empty_block_is_one_node(rt: HostRuntime) -> Result<(), Fail> {
    let block = Block {
        pos: pos(),
        stmts: Items::new(rt.alloc()),
    };
    assert_eq!(rt; nodes(&Fragment { block }), 1);
    Ok(())
}

// { {;} }
#[test]
fn a_block_that_is_a_statement_is_one_node(rt: HostRuntime) -> Result<(), Fail> {
    let inner = block_of(&rt, Stmt::Empty(pos()))?;
    assert_eq!(rt; nodes_of(&rt, Stmt::Block(inner))?, 3);
    Ok(())
}

/// `int[] x = { 1 }, y`
fn declared(rt: &HostRuntime) -> Result<Local, Fail> {
    let mut items = Items::new(rt.alloc());
    items.push(one())?;
    let init = Some(Init::Items(pos(), items));
    let mut variables = Items::new(rt.alloc());
    variables.push(Variable {
        ident: ident(rt, "x")?,
        init,
    })?;
    variables.push(Variable {
        ident: ident(rt, "y")?,
        init: None,
    })?;
    Ok(Local {
        type_name: TypeName {
            base: Base::Prim(Prim::Int),
            dimensions: 1,
        },
        variables,
    })
}

#[test]
fn variables_are_nodes(rt: HostRuntime) -> Result<(), Fail> {
    assert_eq!(rt; nodes_of(&rt, Stmt::Local(declared(&rt)?))?, 6);
    Ok(())
}

// { for (int[] x = { 1 }, y; ; ) break; }
#[test]
fn the_head_of_a_loop_is_no_node(rt: HostRuntime) -> Result<(), Fail> {
    let first = ForInit::Local(declared(&rt)?);
    let body = Boxed::new(rt.alloc(), Stmt::Break(pos()))?;
    let steps = Items::new(rt.alloc());
    assert_eq!(rt;
        nodes_of(&rt, Stmt::For(pos(), first, None, steps, body))?,
        7
    );
    Ok(())
}

// { if (true) ; else ; }
#[test]
fn both_branches_are_nodes(rt: HostRuntime) -> Result<(), Fail> {
    let then = Boxed::new(rt.alloc(), Stmt::Empty(pos()))?;
    let other = Boxed::new(rt.alloc(), Stmt::Empty(pos()))?;
    let condition = Expr::Literal(pos(), Literal::True);
    assert_eq!(rt;
        nodes_of(&rt, Stmt::If(pos(), condition, then, Some(other)))?,
        5
    );
    Ok(())
}

/// `catch (a.b e) { return; }`
fn caught(rt: &HostRuntime) -> Result<Catch, Fail> {
    let class_name = dotted(rt, "a", "b")?;
    let variable = ident(rt, "e")?;
    let block = block_of(rt, Stmt::Return(pos(), None))?;
    Ok(Catch {
        pos: pos(),
        class_name,
        variable,
        block,
    })
}

// { try {;} catch (a.b e) { return; } }
#[test]
fn catches_are_nodes(rt: HostRuntime) -> Result<(), Fail> {
    let mut catches = Items::new(rt.alloc());
    catches.push(caught(&rt)?)?;
    let block = block_of(&rt, Stmt::Empty(pos()))?;
    assert_eq!(rt; nodes_of(&rt, Stmt::Try(pos(), block, catches))?, 9);
    Ok(())
}
