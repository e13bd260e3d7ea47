//! Calls that are interrupted, and calls that fail.
use super::*;
use crate::fakes::{Scripted, Turn};
use std::test::Fail;

const INTERRUPTED: Turn = Turn::Fails(ErrorKind::Interrupted);

const BROKEN: Turn = Turn::Fails(ErrorKind::Other);

#[test]
fn what_is_interrupted_is_tried_again(rt: HostRuntime) -> Result<(), Fail> {
    let mut buf = [0; 4];
    let mut stream = Scripted::new(&[INTERRUPTED, INTERRUPTED, Turn::Moves(2), Turn::Moves(0)]);
    assert_eq!(rt; read_some(&mut stream, &mut buf), Ok(2));
    assert_eq!(rt; buf.as_slice(), [1u8, 2, 0, 0].as_slice());
    assert_eq!(rt; stream.calls, 3);
    assert_eq!(rt; read_some(&mut stream, &mut buf), Ok(0));
    let mut stream = Scripted::new(&[INTERRUPTED, INTERRUPTED, Turn::Moves(1)]);
    assert_eq!(rt; write_some(&mut stream, b"ab"), Ok(1));
    assert_eq!(rt; stream.calls, 3);
    Ok(())
}

#[test]
fn what_is_always_interrupted_is_a_fault(rt: HostRuntime) -> Result<(), Fail> {
    let mut stream = Scripted::new(&[]);
    assert_eq!(rt; read_some(&mut stream, &mut [0]), Err(Failed));
    assert_eq!(rt; stream.calls, 100);
    let mut stream = Scripted::new(&[]);
    assert_eq!(rt; write_some(&mut stream, b"ab"), Err(Failed));
    assert_eq!(rt; stream.calls, 100);
    Ok(())
}

#[test]
fn what_fails_is_not_tried_again(rt: HostRuntime) -> Result<(), Fail> {
    let mut stream = Scripted::new(&[Turn::Moves(1), BROKEN, Turn::Moves(1)]);
    let mut buf = [0; 4];
    assert_eq!(rt; read_some(&mut stream, &mut buf), Ok(1));
    assert_eq!(rt; read_some(&mut stream, &mut buf), Err(Failed));
    assert_eq!(rt; stream.calls, 2);
    let mut stream = Scripted::new(&[Turn::Moves(1), BROKEN, Turn::Moves(0)]);
    assert_eq!(rt; write_some(&mut stream, b"ab"), Ok(1));
    assert_eq!(rt; write_some(&mut stream, b"b"), Err(Failed));
    assert_eq!(rt; write_some(&mut stream, b"b"), Err(Failed));
    assert_eq!(rt; stream.calls, 3);
    Ok(())
}
