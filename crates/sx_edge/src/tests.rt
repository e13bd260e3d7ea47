//! The words of a command line.
use crate::words::WordList;
use std::test::Fail;

#[test]
fn words_in_order(rt: HostRuntime) -> Result<(), Fail> {
    let mut words = WordList::new(rt.alloc());
    words.push("build")?;
    words.push("é")?;
    assert_eq!(&rt; words.len(), 2);
    assert_eq!(&rt; words.get(0), "build");
    assert_eq!(&rt; words.get(1), "é");
    Ok(())
}
