//! How a shelf in memory is in use.

/// No file is in use, or the one at a place among the entries.
#[derive(Clone, Copy)]
pub(crate) enum InUse {
    Idle,
    Reading { file: usize, at: usize },
    Writing { file: usize },
}
