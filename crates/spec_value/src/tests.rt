//! Rows of operators: width, two numbers, and what an outside reading of SMT-LIB gives for them.

use super::*;
use spec_ast::{BinKind, UnKind};
use spec_tree::ResizeKind;
use std::alloc::{AllocError, Global};

#[test]
fn numbers_are_shifted_divided_and_ordered(rt: HostRuntime) {
    assert_eq!(rt; binary(BinKind::Mul, 8, 200, 3), 88);
    assert_eq!(rt; binary(BinKind::Add, 64, 18446744073709551615, 2), 1);
    assert_eq!(rt; binary(BinKind::Sub, 8, 1, 2), 255);
    assert_eq!(rt; binary(BinKind::Shl, 8, 129, 1), 2);
    assert_eq!(rt; binary(BinKind::Shl, 8, 129, 8), 0);
    assert_eq!(rt; binary(BinKind::Ashr, 8, 129, 1), 192);
    assert_eq!(rt; binary(BinKind::Ashr, 8, 129, 9), 255);
    assert_eq!(rt; binary(BinKind::Lshr, 8, 129, 1), 64);
    assert_eq!(rt; binary(BinKind::BitAnd, 8, 12, 10), 8);
    assert_eq!(rt; binary(BinKind::BitXor, 8, 12, 10), 6);
    assert_eq!(rt; binary(BinKind::BitOr, 8, 12, 10), 14);
    assert_eq!(rt; binary(BinKind::Udiv, 8, 200, 7), 28);
    assert_eq!(rt; binary(BinKind::Udiv, 8, 200, 0), 255);
    assert_eq!(rt; binary(BinKind::Urem, 8, 200, 7), 4);
    assert_eq!(rt; binary(BinKind::Urem, 8, 200, 0), 200);
}

#[test]
fn numbers_are_compared(rt: HostRuntime) {
    assert_eq!(rt; binary(BinKind::Eq, 8, 5, 5), 1);
    assert_eq!(rt; binary(BinKind::Ne, 8, 5, 5), 0);
    assert_eq!(rt; binary(BinKind::Slt, 8, 128, 127), 1);
    assert_eq!(rt; binary(BinKind::Sle, 8, 127, 128), 0);
    assert_eq!(rt; binary(BinKind::Sgt, 8, 127, 128), 1);
    assert_eq!(rt; binary(BinKind::Sge, 8, 128, 128), 1);
    assert_eq!(rt; binary(BinKind::Ult, 8, 128, 127), 0);
    assert_eq!(rt; binary(BinKind::Ule, 8, 127, 128), 1);
    assert_eq!(rt; binary(BinKind::Ugt, 8, 128, 127), 1);
    assert_eq!(rt; binary(BinKind::Uge, 8, 127, 128), 0);
    assert_eq!(rt; binary(BinKind::Implies, 1, 1, 0), 0);
    assert_eq!(rt; binary(BinKind::Implies, 1, 0, 0), 1);
}

#[test]
fn numbers_are_negated_and_resized(rt: HostRuntime) {
    assert_eq!(rt; unary(UnKind::Minus, 8, 200), 56);
    assert_eq!(rt; unary(UnKind::Complement, 8, 5), 250);
    assert_eq!(rt; unary(UnKind::Not, 1, 1), 0);
    assert_eq!(rt; resize(ResizeKind::ZeroExt(8), 8, 200), 200);
    assert_eq!(rt; resize(ResizeKind::SignExt(8), 8, 200), 65480);
    assert_eq!(rt; resize(ResizeKind::Extract(11, 4), 16, 43981), 188);
    assert!(rt; is_true(truth(true)));
}

#[test]
fn tuples_are_counted_and_found(rt: HostRuntime) -> Result<(), AllocError> {
    let alloc = rt.alloc();
    let sizes = [2, 3, 5];
    assert_eq!(rt; count(&sizes), 30);
    let mut tuple = Vec::new(alloc);
    push_tuple(&sizes, 30, 23, &mut tuple)?;
    assert!(rt; tuple.as_slice() == [1, 1, 3].as_slice());
    assert_eq!(rt; place(&[], &[]), Some(0));
    Ok(())
}

fn state(alloc: Global) -> Result<AbstractState, AllocError> {
    let mut fields = Vec::new(alloc);
    fields.push(EntryList::of(vec![in alloc; 7]?))?;
    fields.push(EntryList::of(vec![in alloc; 4, 5, 6]?))?;
    Ok(AbstractState::of(fields))
}

#[test]
fn entries_are_read_and_set(rt: HostRuntime) -> Result<(), AllocError> {
    let mut state = state(rt.alloc())?;
    state.set(1, Some(2), 9);
    state.set(1, None, 8);
    state.set(0, Some(1), 8);
    assert_eq!(rt; state.as_slice().len(), 2);
    assert_eq!(rt; state.entry(0, Some(0)), 7);
    assert_eq!(rt; state.entry(1, Some(2)), 9);
    assert_eq!(rt; state.entry(1, None), 0);
    Ok(())
}
