//! Inner nodes of a trie.

/// An inner node: the length of its extent, which is the longest common prefix of the delimiters
/// under it. These are the leaves `first` up to before `after`; those under its left child end
/// before `middle`.
#[derive(Clone, Copy, PartialEq, Eq, Debug)]
pub struct Node {
    pub extent: u32,
    pub first: u32,
    pub middle: u32,
    pub after: u32,
}

/// An inner node, and the length of its name: the parent's extent and one bit more, or 0 at the root.
#[derive(Clone, Copy)]
pub(crate) struct Entry {
    pub(crate) node: Node,
    pub(crate) name: u32,
}
