//! Files of the system, and files that follow a script.
ghost use Rattle.std.specs.Prelude.{◌≡◌, ◌<◌, length};
ghost use Rattle.sx_edge.specs.Shelf.{idle};
ghost use Rattle.sux.specs.RealFiles.{use_of};

use super::*;
use crate::fakes::{ScriptedFiles, Turn};
use std::test::Fail;
use std::{env, fs};

const BROKEN: Turn = Turn::Fails(ErrorKind::Other);

/// Writes a file and reads it, from a shelf that has none in use.
fn goes_around(
    files: &mut RealShelf<HostRuntime>,
    name: &str,
    buf: &mut [u8],
) -> Result<usize, Failed>
    requires idle { use_of files.old.used ≡ idle }
    requires room { 0 < length buf.old }
{
    files.create(name)?;
    let _ = files.write(b"ab")?;
    files.close()?;
    if !files.open_file(name)? {
        return Err(Failed);
    }
    files.read(buf)
}

#[test]
fn a_file_is_written_and_read(rt: HostRuntime) -> Result<(), Fail> {
    let path = env::temp_dir(&rt)?.join(rt.alloc(), "sux_a_file_is_written_and_read")?;
    let mut files = RealShelf::new(rt);
    let mut buf = [0; 8];
    assert_eq!(rt; goes_around(&mut files, path.as_str(), &mut buf), Ok(2));
    assert_eq!(rt; &buf[..2], b"ab".as_slice());
    fs::remove_file(&rt, path.as_str())?;
    let mut files = RealShelf::new(rt);
    assert_eq!(rt; files.open_file(path.as_str()), Ok(false));
    assert_eq!(rt; files.faults, 0);
    Ok(())
}

#[test]
fn a_folder_is_no_file(rt: HostRuntime) -> Result<(), Fail> {
    let folder = env::temp_dir(&rt)?;
    let mut files = RealShelf::new(rt);
    assert_eq!(rt; files.create(folder.as_str()), Err(Failed));
    assert_eq!(rt; files.faults, 1);
    let mut files = RealShelf::new(rt);
    if files.open_file(folder.as_str())? {
        assert_eq!(rt; files.read(&mut [0]), Err(Failed));
    }
    assert_eq!(rt; files.faults, 1);
    Ok(())
}

#[test]
fn no_file_is_made_without_its_folder(rt: HostRuntime) -> Result<(), Fail> {
    let path = env::temp_dir(&rt)?.join(rt.alloc(), "sux_no_such_folder/D")?;
    let mut files = RealShelf::new(rt);
    assert_eq!(rt; files.create(path.as_str()), Err(Failed));
    assert_eq!(rt; files.faults, 1);
    assert_eq!(rt; files.open_file(path.as_str()), Ok(false));
    assert_eq!(rt; files.faults, 1);
    Ok(())
}

#[test]
fn only_a_missing_file_is_none(rt: HostRuntime) -> Result<(), Fail> {
    let mut files = RealShelf::new(ScriptedFiles {
        refuses: Some(ErrorKind::PermissionDenied),
        turns: &[],
    });
    assert_eq!(rt; files.open_file("D"), Err(Failed));
    assert_eq!(rt; files.faults, 1);
    let mut files = RealShelf::new(ScriptedFiles {
        refuses: Some(ErrorKind::NotFound),
        turns: &[],
    });
    assert_eq!(rt; files.open_file("D"), Ok(false));
    assert_eq!(rt; files.faults, 0);
    assert_eq!(rt; files.create("D"), Err(Failed));
    assert_eq!(rt; files.faults, 1);
    Ok(())
}

#[test]
fn a_file_that_fails_is_no_end(rt: HostRuntime) -> Result<(), Fail> {
    let mut files = RealShelf::new(ScriptedFiles {
        refuses: None,
        turns: &[Turn::Moves(2), BROKEN, Turn::Moves(0)],
    });
    let mut buf = [0; 8];
    assert!(rt; files.open_file("D")?);
    assert_eq!(rt; files.read(&mut buf), Ok(2));
    assert_eq!(rt; files.read(&mut buf), Err(Failed));
    assert_eq!(rt; files.faults, 1);
    assert_eq!(rt; files.read(&mut buf), Ok(0));
    assert_eq!(rt; files.faults, 1);
    Ok(())
}

#[test]
fn a_file_tells_what_it_took(rt: HostRuntime) -> Result<(), Fail> {
    let mut files = RealShelf::new(ScriptedFiles {
        refuses: None,
        turns: &[Turn::Moves(1), BROKEN, Turn::Moves(0)],
    });
    files.create("D")?;
    assert_eq!(rt; files.write(b"abc"), Ok(1));
    assert_eq!(rt; files.faults, 0);
    assert_eq!(rt; files.write(b"bc"), Err(Failed));
    assert_eq!(rt; files.faults, 1);
    assert_eq!(rt; files.write(b"bc"), Err(Failed));
    assert_eq!(rt; files.faults, 2);
    Ok(())
}

#[test]
fn files_are_tried_again(rt: HostRuntime) -> Result<(), Fail> {
    let mut files = RealShelf::new(ScriptedFiles {
        refuses: None,
        turns: &[Turn::Fails(ErrorKind::Interrupted), Turn::Moves(1)],
    });
    assert!(rt; files.open_file("D")?);
    assert_eq!(rt; files.read(&mut [0]), Ok(1));
    assert_eq!(rt; files.read(&mut [0]), Err(Failed));
    files.close()?;
    files.create("D")?;
    assert_eq!(rt; files.write(b"ab"), Ok(1));
    assert_eq!(rt; files.write(b"b"), Err(Failed));
    assert_eq!(rt; files.faults, 2);
    Ok(())
}
