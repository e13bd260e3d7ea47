//! A dump that is read from its file.
ghost use Rattle.std.specs.Prelude.{◌≡◌, ◌≢◌, ◌≤◌, ◌⊎◌, List, ℕ, Option, Err, IfOk, OnOk, MatchResult};
ghost use Rattle.sx_edge.specs.Shelf.{idle};
ghost use Rattle.sx_spec.specs.declared.Status.TheVariants.{BadDump, Memory};
ghost use Rattle.sx_spec.specs.Causes.{Rose, StaysUnless, is_fault};
ghost use Rattle.sx_spec.specs.Command.{Text};
ghost use Rattle.sx_spec.specs.Messages.{check_text, memory_text};
ghost use Rattle.sx_spec.specs.World.{Files, KeepsFiles};
ghost use Rattle.sx_dump.specs.Opening.{dump_in};
ghost use Rattle.sx_cli.specs.Objects.{TellsOrWants, IsQuietOn};
ghost use Rattle.sx_cli.specs.FileWords.{file_failed};
ghost use Rattle.sx_cli.specs.Opening.{ends_in_fault, IsFound, IsFile, IsOpened, StopsAtFile, StopsAtCheck};
ghost use Rattle.sx_cli.specs.Telling.{Tells};

use crate::dump_file::DumpFile;
use crate::file_words::{ReadFault, read_words};
use crate::telling::{Place, fail, tell, tell_memory};
use std::alloc::Global;
use sx_dump::{Dump, OpenFault, open_dump};
use sx_edge::shelf::Shelf;
use sx_edge::sink::Sink;
use sx_fields::bank::{Words, WordsBuf};
use sx_spec::Status;
use sx_text::messages::{check_message, no_dump_message};

/// Reads the file of the name; none where no file has it. No file is left in use.
fn read_dump<F: Shelf>(
    alloc: Global,
    files: &mut F,
    name: &str,
) -> Result<Option<DumpFile>, ReadFault>
    requires { F.in_use files.old ≡ idle }
    ensures found { IfOk result (IsFound name.now (F.files files.old)) }
    ensures files { KeepsFiles (F.files files.old) (F.files files.new) }
    ensures failed { result ≡ Err ReadFault.Failed
        → Rose (F.faults files.old) (F.faults files.new) }
    ensures counts { StaysUnless (file_failed result) (F.faults files.old) (F.faults files.new) }
    ensures closed { F.in_use files.new ≡ idle }
{
    let is_there = files.open_file(name)?;
    if !is_there {
        return Ok(None);
    }
    let read = read_words(alloc, files);
    files.close()?;
    let file = read?;
    Ok(Some(file))
}

/// Reads the file of the name, or tells why it can't be read.
pub fn find_dump<F: Shelf, E: Sink>(
    alloc: Global,
    files: &mut F,
    name: &str,
    err: &mut E,
) -> Result<DumpFile, Status>
    requires { F.in_use files.old ≡ idle }
    ensures found { MatchResult result
        (λ f. IsFile name.now (F.files files.old) f.words.items f.bytes)
        (StopsAtFile name.now (F.files files.old) (F.faults files.old) (F.faults files.new) (E.written err.old) (E.written err.new) (E.faults err.old) (E.faults err.new)) }
    ensures quiet { OnOk result (IsQuietOn E.Sink err.old err.new) }
    ensures files { KeepsFiles (F.files files.old) (F.files files.new) }
    ensures closed { F.in_use files.new ≡ idle }
    ensures counts { StaysUnless (ends_in_fault result) (F.faults files.old) (F.faults files.new) }
    ensures counts_err { StaysUnless (ends_in_fault result) (E.faults err.old) (E.faults err.new) }
{
    match read_dump(alloc, files, name) {
        Ok(Some(file)) => Ok(file),
        Ok(None) => Err(tell(err, &no_dump_message(), Status::BadDump)),
        Err(ReadFault::Failed) => Err(fail(err, Place::Dump)),
        Err(ReadFault::Memory) => Err(tell_memory(err)),
    }
}

/// Tells which check a file fails.
fn refuse_check<E: Sink>(alloc: Global, err: &mut E, check: u8) -> Status
    ensures told { TellsOrWants E.Sink (check_text check) BadDump err.old err.new result }
    ensures counts { StaysUnless (is_fault result) (E.faults err.old) (E.faults err.new) }
{
    match check_message(alloc, check) {
        Ok(text) => tell(err, &text, Status::BadDump),
        Err(_) => tell_memory(err),
    }
}

/// The dump of a file, or what is told where it is none.
pub fn check_dump<'a, E: Sink>(
    alloc: Global,
    file: &'a DumpFile,
    err: &mut E,
) -> Result<Dump<Words<'a>, WordsBuf>, Status>
    ensures opened { (name : Text) (files : Option Files)
        → IsFile name files file.now.words.items file.now.bytes
        → MatchResult result (λ d. IsOpened name files (dump_in d.bank.words.now))
        (StopsAtCheck name files (E.written err.old) (E.written err.new) (E.faults err.old) (E.faults err.new)) }
    ensures quiet { OnOk result (IsQuietOn E.Sink err.old err.new) }
    ensures counts_err { StaysUnless (ends_in_fault result) (E.faults err.old) (E.faults err.new) }
{
    match open_dump(alloc, &file.words, file.bytes, Words::new(&file.words)) {
        Ok(dump) => Ok(dump),
        Err(OpenFault::Malformed { check }) => Err(refuse_check(alloc, err, check)),
        Err(OpenFault::Memory) => Err(tell_memory(err)),
    }
}
