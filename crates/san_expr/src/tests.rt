//! Values and traps that were worked out by hand.

use crate::{
    Boxed, Expr, Items, Marking, Op, Stmt, Trap, eval, places_below, run_stmts, stmts_below,
};
use san_base::NoMemory;
use std::alloc::Global;
use std::test::Fail;

const MOST: i64 = i64::MAX;

const LEAST: i64 = i64::MIN;

/// The cells of every row: a place, and an array of three.
const CELLS: [u32; 4] = [5, 0, 7, 9];

/// An expression, operands first.
#[derive(Clone, Copy, Debug)]
enum Word {
    N(i64),
    Place(u32),
    /// An element of the array, by the index before it.
    Element,
    Neg,
    Not,
    Of(Op),
}

use Word::{Element, N, Neg, Not, Of, Place};

/// The expression that words spell, or none where they spell no single one.
fn tree(alloc: Global, words: &[Word]) -> Result<Option<Expr>, NoMemory> {
    let mut stack = Vec::new(alloc);
    for word in words {
        match join(alloc, *word, &mut stack)? {
            Some(e) => stack.push(e)?,
            None => return Ok(None),
        }
    }
    Ok(stack.pop())
}

fn join(alloc: Global, word: Word, stack: &mut Vec<Expr>) -> Result<Option<Expr>, NoMemory> {
    match word {
        Word::N(n) => Ok(Some(Expr::Number(n))),
        Word::Place(place) => Ok(Some(Expr::Place(place))),
        Word::Element => match stack.pop() {
            Some(index) => Ok(Some(Expr::Cell(1, 3, Boxed::new(alloc, index)?))),
            None => Ok(None),
        },
        Word::Neg => match stack.pop() {
            Some(e) => Ok(Some(Expr::Neg(Boxed::new(alloc, e)?))),
            None => Ok(None),
        },
        Word::Not => match stack.pop() {
            Some(e) => Ok(Some(Expr::Not(Boxed::new(alloc, e)?))),
            None => Ok(None),
        },
        Word::Of(op) => {
            let right = stack.pop();
            let left = stack.pop();
            match (left, right) {
                (Some(x), Some(y)) => Ok(Some(Expr::Binary(
                    op,
                    Boxed::new(alloc, x)?,
                    Boxed::new(alloc, y)?,
                ))),
                _ => Ok(None),
            }
        }
    }
}

fn cells(alloc: Global) -> Result<Marking, NoMemory> {
    Ok(Marking::new(Vec::from_slice(alloc, &CELLS)?))
}

/// The value of an expression at these cells, or none where it has other cells.
fn value(alloc: Global, words: &[Word]) -> Result<Option<Result<i64, Trap>>, NoMemory> {
    let mut view = cells(alloc)?;
    match tree(alloc, words)? {
        Some(e) => {
            if view.as_slice().len() == 4 && places_below(&e, 4) {
                Ok(Some(eval(&e, &mut view)))
            } else {
                Ok(None)
            }
        }
        None => Ok(None),
    }
}

#[test]
fn expression_values(rt: HostRuntime) -> Result<(), Fail> {
    let alloc = rt.alloc();
    let table: [(&[Word], Result<i64, Trap>); 59] = [
        (&[N(7), Neg, N(2), Of(Op::Div)], Ok(-3)),
        (&[N(7), Neg, N(2), Of(Op::Rem)], Ok(-1)),
        (&[N(0), N(1), N(0), Of(Op::Div), Of(Op::And)], Ok(0)),
        (&[N(1), N(1), N(0), Of(Op::Div), Of(Op::Or)], Ok(1)),
        (&[N(5), Not], Ok(0)),
        (&[N(MOST), N(1), Of(Op::Add)], Err(Trap::Arith)),
        (&[N(2), N(3), N(4), Of(Op::Mul), Of(Op::Add)], Ok(14)),
        (&[N(10), N(3), Of(Op::Sub), N(2), Of(Op::Sub)], Ok(5)),
        (&[N(0), N(-5), Of(Op::Or)], Ok(1)),
        (&[N(0), N(0), Of(Op::Or)], Ok(0)),
        (
            &[N(0), N(1), N(0), Of(Op::Rem), Of(Op::Or)],
            Err(Trap::Arith),
        ),
        (&[N(2), N(-3), Of(Op::And)], Ok(1)),
        (&[N(2), N(0), Of(Op::And)], Ok(0)),
        (
            &[N(1), N(0), Of(Op::Div), N(0), Of(Op::And)],
            Err(Trap::Arith),
        ),
        (&[N(LEAST), N(LEAST), Of(Op::Eq)], Ok(1)),
        (&[N(LEAST), N(MOST), Of(Op::Eq)], Ok(0)),
        (&[N(LEAST), N(MOST), Of(Op::Ne)], Ok(1)),
        (&[N(-1), N(-1), Of(Op::Ne)], Ok(0)),
        (&[N(LEAST), N(MOST), Of(Op::Lt)], Ok(1)),
        (&[N(3), N(3), Of(Op::Lt)], Ok(0)),
        (&[N(3), N(3), Of(Op::Le)], Ok(1)),
        (&[N(3), N(-4), Of(Op::Le)], Ok(0)),
        (&[N(MOST), N(LEAST), Of(Op::Gt)], Ok(1)),
        (&[N(3), N(3), Of(Op::Gt)], Ok(0)),
        (&[N(3), N(3), Of(Op::Ge)], Ok(1)),
        (&[N(-4), N(3), Of(Op::Ge)], Ok(0)),
        (&[N(9223372036854775806), N(1), Of(Op::Add)], Ok(MOST)),
        (&[N(LEAST), N(-1), Of(Op::Add)], Err(Trap::Arith)),
        (&[N(-9223372036854775807), N(1), Of(Op::Sub)], Ok(LEAST)),
        (&[N(LEAST), N(1), Of(Op::Sub)], Err(Trap::Arith)),
        (&[N(-1), N(LEAST), Of(Op::Sub)], Ok(MOST)),
        (&[N(0), N(LEAST), Of(Op::Sub)], Err(Trap::Arith)),
        (
            &[N(3037000499), N(3037000499), Of(Op::Mul)],
            Ok(9223372030926249001),
        ),
        (
            &[N(3037000500), N(3037000500), Of(Op::Mul)],
            Err(Trap::Arith),
        ),
        (&[N(LEAST), N(-1), Of(Op::Mul)], Err(Trap::Arith)),
        (&[N(7), N(-2), Of(Op::Div)], Ok(-3)),
        (&[N(-7), N(-2), Of(Op::Div)], Ok(3)),
        (&[N(LEAST), N(1), Of(Op::Div)], Ok(LEAST)),
        (&[N(LEAST), N(-1), Of(Op::Div)], Err(Trap::Arith)),
        (&[N(7), N(0), Of(Op::Div)], Err(Trap::Arith)),
        (&[N(7), N(-2), Of(Op::Rem)], Ok(1)),
        (&[N(-7), N(-2), Of(Op::Rem)], Ok(-1)),
        (&[N(LEAST), N(-1), Of(Op::Rem)], Err(Trap::Arith)),
        (&[N(7), N(0), Of(Op::Rem)], Err(Trap::Arith)),
        (&[N(MOST), Neg], Ok(-9223372036854775807)),
        (&[N(LEAST), Neg], Err(Trap::Arith)),
        (&[N(0), Not], Ok(1)),
        (&[N(1), N(0), Of(Op::Div), Not], Err(Trap::Arith)),
        (&[Place(0)], Ok(5)),
        (&[Place(3)], Ok(9)),
        (&[N(0), Element], Ok(0)),
        (&[N(2), Element], Ok(9)),
        (&[N(3), Element], Err(Trap::Index)),
        (&[N(-1), Element], Err(Trap::Index)),
        (&[N(LEAST), Element], Err(Trap::Index)),
        (&[N(1), N(0), Of(Op::Div), Element], Err(Trap::Arith)),
        (&[N(0), Element, Element], Ok(0)),
        (
            &[N(3), Element, N(1), N(0), Of(Op::Div), Of(Op::Add)],
            Err(Trap::Index),
        ),
        (
            &[N(1), N(0), Of(Op::Div), N(3), Element, Of(Op::Add)],
            Err(Trap::Arith),
        ),
    ];
    for (words, want) in table {
        assert_eq!(rt; value(alloc, words)?, Some(want), "at {words:?}");
    }
    Ok(())
}

/// What statements did.
type Ran = Option<(Result<(), Trap>, [u32; 4])>;

/// The answer of statements and the cells that they leave, or none where they have other cells.
fn ran(alloc: Global, body: &[Stmt]) -> Result<Ran, NoMemory> {
    let mut view = cells(alloc)?;
    if view.as_slice().len() != 4 || !stmts_below(body, 4) {
        return Ok(None);
    }
    let answer = run_stmts(body, &mut view);
    match view.as_slice() {
        [a, b, c, d] => Ok(Some((answer, [*a, *b, *c, *d]))),
        _ => Ok(None),
    }
}

/// The first cell becomes 3, then an element of the array a value, then the first cell 4.
fn assigned(alloc: Global, index: &[Word], value: &[Word]) -> Result<Ran, NoMemory> {
    let (Some(i), Some(x)) = (tree(alloc, index)?, tree(alloc, value)?) else {
        return Ok(None);
    };
    let mut body = Items::new(alloc);
    body.push(Stmt::Set(0, Expr::Number(3)))?;
    body.push(Stmt::SetCell(1, 3, i, x))?;
    body.push(Stmt::Set(0, Expr::Number(4)))?;
    ran(alloc, body.as_slice())
}

#[test]
fn assignments(rt: HostRuntime) -> Result<(), Fail> {
    let alloc = rt.alloc();
    let trapped = [3, 0, 7, 9];
    let table: [(&[Word], &[Word], Result<(), Trap>, [u32; 4]); 11] = [
        (&[N(0)], &[N(0)], Ok(()), [4, 0, 7, 9]),
        (&[N(2)], &[N(2147483647)], Ok(()), [4, 0, 7, 2147483647]),
        (&[N(1)], &[Place(0)], Ok(()), [4, 0, 3, 9]),
        (&[N(0)], &[N(2147483648)], Err(Trap::Marking), trapped),
        (&[N(0)], &[N(-1)], Err(Trap::Marking), trapped),
        (&[N(0)], &[N(MOST)], Err(Trap::Marking), trapped),
        (
            &[N(3)],
            &[N(1), N(0), Of(Op::Div)],
            Err(Trap::Index),
            trapped,
        ),
        (&[N(-1)], &[N(-1)], Err(Trap::Index), trapped),
        (
            &[N(1), N(0), Of(Op::Div)],
            &[N(-1)],
            Err(Trap::Arith),
            trapped,
        ),
        (
            &[N(0)],
            &[N(1), N(0), Of(Op::Div)],
            Err(Trap::Arith),
            trapped,
        ),
        (&[N(0)], &[N(3), Element], Err(Trap::Index), trapped),
    ];
    for (index, value, want, left) in table {
        assert_eq!(rt;
            assigned(alloc, index, value)?,
            Some((want, left)),
            "at {index:?} {value:?}"
        );
    }
    Ok(())
}

/// A value decides whether the first cell becomes 1 or 2.
fn decided(alloc: Global, by: &[Word]) -> Result<Ran, NoMemory> {
    let Some(e) = tree(alloc, by)? else {
        return Ok(None);
    };
    let mut then_body = Items::new(alloc);
    then_body.push(Stmt::Set(0, Expr::Number(1)))?;
    let mut else_body = Items::new(alloc);
    else_body.push(Stmt::Set(0, Expr::Number(2)))?;
    let mut body = Items::new(alloc);
    body.push(Stmt::If(e, then_body, else_body))?;
    ran(alloc, body.as_slice())
}

#[test]
fn decisions(rt: HostRuntime) -> Result<(), Fail> {
    let alloc = rt.alloc();
    let table: [(&[Word], Result<(), Trap>, [u32; 4]); 4] = [
        (&[N(-1)], Ok(()), [1, 0, 7, 9]),
        (&[Place(3)], Ok(()), [1, 0, 7, 9]),
        (&[Place(1)], Ok(()), [2, 0, 7, 9]),
        (&[N(3), Element], Err(Trap::Index), CELLS),
    ];
    for (by, want, left) in table {
        assert_eq!(rt; decided(alloc, by)?, Some((want, left)), "at {by:?}");
    }
    Ok(())
}
