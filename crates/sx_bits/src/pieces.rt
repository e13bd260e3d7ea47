//! Strings named by a key and two of its places.

/// A string: the 32 bits of the tag, highest first, where there is one, and then the bits `from` up
/// to before `to` of key number `key`.
#[derive(Clone, Copy, PartialEq, Eq, Debug)]
pub struct Piece {
    pub tag: Option<u32>,
    pub key: u32,
    pub from: u32,
    pub to: u32,
}
