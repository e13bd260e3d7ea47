//! Words of a command line that a test gives.
use super::*;
use std::test::Fail;

/// The words of a command line, with the program's name.
#[derive(Drop)]
struct Given<'a> {
    words: &'a [&'a [u8]],
}

impl Env for Given<'_> {
    fn arg(&self, i: usize, buf: &mut [u8]) -> Result<usize, FillError> {
        if i >= self.words.len() {
            return Err(FillError::NotPresent);
        }
        let word = self.words[i];
        if word.len() > buf.len() {
            return Err(FillError::TooLong);
        }
        buf[..word.len()].copy_from_slice(word);
        Ok(word.len())
    }

    fn var(&self, _: &str, _: &mut [u8]) -> Result<usize, FillError> {
        Err(FillError::NotPresent)
    }

    fn var_at(&self, _: usize, _: &mut [u8]) -> Result<usize, FillError> {
        Err(FillError::NotPresent)
    }
}

#[test]
fn words_keep_their_places(rt: HostRuntime) -> Result<(), Fail> {
    let long = [b'x'; 600];
    let list = [
        b"sux".as_slice(),
        b"query",
        b"\xff",
        b"\xc3\xa9",
        &long,
        b"",
    ];
    let words = command_words(&Given { words: &list }, rt.alloc())?;
    assert_eq!(rt; words.len(), 5);
    assert_eq!(rt; words.get(0), "query");
    assert_eq!(rt; words.get(1), "-");
    assert_eq!(rt; words.get(2), "é");
    assert_eq!(rt; words.get(3).as_bytes(), long.as_slice());
    assert_eq!(rt; words.get(4), "");
    Ok(())
}

#[test]
fn there_may_be_no_words(rt: HostRuntime) -> Result<(), Fail> {
    assert_eq!(rt; command_words(&Given { words: &[] }, rt.alloc())?.len(), 0);
    let name = [b"\xff".as_slice()];
    assert_eq!(rt;
        command_words(&Given { words: &name }, rt.alloc())?.len(),
        0
    );
    Ok(())
}
