//! A buffer of text.
use crate::buffer::TextBuffer;
use std::test::Fail;
use sx_memory::sink::MemSink;

#[test]
fn replies_are_written_in_decimal(rt: HostRuntime) -> Result<(), Fail> {
    let mut buffer = TextBuffer::new(rt.alloc())?;
    buffer.push(b"a ");
    let mut sink = MemSink::new(rt.alloc(), 100, 7, Vec::new(rt.alloc()))?;
    match buffer.write_to(&mut sink) {
        Ok(()) => {}
        Err(_) => assert!(rt; false, "not written"),
    }
    assert_eq!(rt; buffer.as_slice(), b"".as_slice());
    assert_eq!(rt; sink.bytes(), b"a ".as_slice());
    let mut replies = TextBuffer::new(rt.alloc())?;
    replies.push_reply(-1);
    assert_eq!(rt; replies.as_slice(), b"-1".as_slice());
    Ok(())
}
