//! Where a reader of an Elias-Fano list stands.

/// A number of a list, and the place of its one in the upper words.
#[derive(Clone, Copy)]
pub struct Cursor {
    /// Where its one stands.
    pub place: u64,
    /// The number.
    pub number: u64,
}
