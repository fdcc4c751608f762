//! Names, lists and trees.

use silq_tree::{
    Block, Expr, ExprId, ExprIds, Fun, FunIds, Mark, NameId, NameIds, Names, ParamNodes, PlaceNode,
    Spot, Stmt, StmtIds, Tree, TypeNodes,
};
use static_num::Statics;
use std::test::Fail;

const AT: Spot = Spot { line: 1, col: 1 };

#[test]
fn equal_texts_have_equal_numbers(rt: HostRuntime) -> Result<(), Fail> {
    let mut names = Names::new(rt.alloc());
    let x = names.intern("x")?;
    assert!(rt; names.len() < 100);
    let y = names.intern("ψ")?;
    assert!(rt; names.len() < 100);
    let again = names.intern("x")?;
    assert!(rt; (x.number, y.number, again.number, names.len()) == (0, 1, 0, 2));
    assert!(rt; names.text(y) == "ψ");
    Ok(())
}

#[test]
fn lists_grow(rt: HostRuntime) -> Result<(), Fail> {
    let mut ids = ExprIds::new(rt.alloc());
    let (four, seven) = (ExprId { number: 4 }, ExprId { number: 7 });
    ids.push(four)?;
    ids.push(seven)?;
    assert!(rt; ids.len() == 2 && ids.as_slice() == [four, seven].as_slice());
    assert!(rt; ids.get(1) == Some(&seven) && ids.get(2).is_none());
    Ok(())
}

#[test]
fn the_last_pair_is_taken_away(rt: HostRuntime) -> Result<(), Fail> {
    let name = NameId { number: 3 };
    let mut statics = Statics::new(rt.alloc());
    statics.push((name, 3))?;
    statics.push((name, 4))?;
    statics.push((name, 5))?;
    assert!(rt; statics.len() == 3);
    statics.pop();
    assert!(rt; statics.get(1) == Some(&(name, 4)) && statics.get(2).is_none());
    assert!(rt; statics.as_slice() == [(name, 3), (name, 4)].as_slice());
    Ok(())
}

#[test]
fn a_function_is_read_back(rt: HostRuntime) -> Result<(), Fail> {
    let alloc = rt.alloc();
    let name = NameId { number: 0 };
    let mut tree = Tree::new(alloc);
    let place = PlaceNode {
        name,
        first: None,
        second: None,
    };
    let value = tree.add_expr(Expr::Place { place, at: AT })?;
    let stmt = tree.add_stmt(Stmt::Return {
        value: Some(value),
        at: AT,
    })?;
    let mut items = StmtIds::new(alloc);
    items.push(stmt)?;
    let fun = tree.add_fun(Fun {
        name,
        statics: NameIds::new(alloc),
        params: ParamNodes::new(alloc),
        mark: Mark::Lifted,
        results: TypeNodes::new(alloc),
        body: Block { items, end: AT },
        at: AT,
    })?;
    let mut funs = FunIds::new(alloc);
    funs.push(fun)?;
    let is_fun = tree.fun(fun).mark == Mark::Lifted;
    let is_stmt = matches!(tree.stmt(stmt), Stmt::Return { value: Some(e), .. } if *e == value);
    let is_expr = matches!(tree.expr(value), Expr::Place { place, .. } if place.name == name);
    assert!(rt; is_fun && is_stmt && is_expr && funs.get(0) == Some(&fun));
    assert!(rt; (tree.exprs(), tree.stmts(), tree.funs()) == (1, 1, 1));
    Ok(())
}
