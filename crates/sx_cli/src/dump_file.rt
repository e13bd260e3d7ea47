//! The words of a dump's file.
ghost use Rattle.std.specs.Int.{div_ceil};
ghost use Rattle.std.specs.Prelude.{◌≡◌, length};

/// What a file holds.
#[derive(Debug, Drop)]
pub struct DumpFile {
    /// Its bytes as words, the last filled up with zero bytes.
    pub words: Vec<u64>,
    /// How many bytes it has; one more than a dump may have stands for any larger number.
    pub bytes: u64,
    ghost sized: { length words.items ≡ div_ceil bytes 8 },
}
