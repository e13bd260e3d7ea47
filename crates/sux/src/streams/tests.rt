//! Streams that give, take and fail.
use super::*;
use crate::fakes::{Scripted, Turn};
use std::io::ErrorKind;
use std::test::Fail;

const BROKEN: Turn = Turn::Fails(ErrorKind::Other);

#[test]
fn bytes_pass_through(rt: HostRuntime) -> Result<(), Fail> {
    let mut input = InputStream::new(b"ab".as_slice());
    let mut buf = [0; 8];
    assert_eq!(rt; input.read(&mut buf), Ok(2));
    assert_eq!(rt; &buf[..2], b"ab".as_slice());
    assert_eq!(rt; input.read(&mut buf), Ok(0));
    assert_eq!(rt; input.faults, 0);
    let mut out = OutputStream::new(Vec::new(rt.alloc()));
    assert_eq!(rt; out.write(b"ab"), Ok(2));
    assert_eq!(rt; out.stream.as_slice(), b"ab".as_slice());
    assert_eq!(rt; out.faults, 0);
    Ok(())
}

#[test]
fn a_read_that_fails_is_no_end(rt: HostRuntime) -> Result<(), Fail> {
    let mut input = InputStream::new(Scripted::new(&[Turn::Moves(2), BROKEN, Turn::Moves(1)]));
    let mut buf = [0; 8];
    assert_eq!(rt; input.read(&mut buf), Ok(2));
    assert_eq!(rt; input.read(&mut buf), Err(Failed));
    assert_eq!(rt; input.faults, 1);
    assert_eq!(rt; input.read(&mut buf), Ok(1));
    assert_eq!(rt; buf[0], 3);
    assert_eq!(rt; input.faults, 1);
    Ok(())
}

#[test]
fn a_write_tells_what_was_taken(rt: HostRuntime) -> Result<(), Fail> {
    let mut out = OutputStream::new(Scripted::new(&[Turn::Moves(1), BROKEN, Turn::Moves(0)]));
    assert_eq!(rt; out.write(b"abc"), Ok(1));
    assert_eq!(rt; out.faults, 0);
    assert_eq!(rt; out.write(b"bc"), Err(Failed));
    assert_eq!(rt; out.faults, 1);
    assert_eq!(rt; out.write(b"bc"), Err(Failed));
    assert_eq!(rt; out.faults, 2);
    Ok(())
}

#[test]
fn streams_are_tried_again(rt: HostRuntime) -> Result<(), Fail> {
    let turns = &[Turn::Fails(ErrorKind::Interrupted), Turn::Moves(1)];
    let mut input = InputStream::new(Scripted::new(turns));
    assert_eq!(rt; input.read(&mut [0]), Ok(1));
    assert_eq!(rt; input.read(&mut [0]), Err(Failed));
    assert_eq!(rt; input.faults, 1);
    let mut out = OutputStream::new(Scripted::new(turns));
    assert_eq!(rt; out.write(b"ab"), Ok(1));
    assert_eq!(rt; out.write(b"b"), Err(Failed));
    assert_eq!(rt; out.faults, 1);
    Ok(())
}
