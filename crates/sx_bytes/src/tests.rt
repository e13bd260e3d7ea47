//! Words of bytes, and words in a file.

use crate::{put_words, words_of};
use std::test::Fail;
use sx_edge::shelf::Shelf;
use sx_memory::shelf::MemShelf;

#[test]
fn words_of_nine_bytes(rt: HostRuntime) -> Result<(), Fail> {
    let words = words_of(rt.alloc(), &[1, 2, 0, 0, 0, 0, 0, 128, 255])?;
    assert_eq!(rt; words.as_slice(), [0x8000_0000_0000_0201, 255].as_slice());
    Ok(())
}

#[test]
fn words_in_a_file(rt: HostRuntime) -> Result<(), Fail> {
    let mut words = vec![in rt.alloc(); 1u64; 1025]?;
    words[1024] = 0x0807_0605_0403_0201;
    let mut files = MemShelf::new(rt.alloc(), Vec::new(rt.alloc()));
    files.room("D", 8200)?;
    files.create("D")?;
    put_words(&mut files, &words)?;
    files.close()?;
    let bytes = files.bytes("D").ok_or("none")?;
    assert_eq!(rt; bytes.len(), 8200);
    assert_eq!(rt;
        &bytes[8184..],
        [1, 0, 0, 0, 0, 0, 0, 0, 1, 2, 3, 4, 5, 6, 7, 8].as_slice()
    );
    assert_eq!(rt; files.calls(), 4);
    Ok(())
}
