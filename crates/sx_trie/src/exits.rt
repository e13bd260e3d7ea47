//! Where strings leave a trie.

/// A node of a trie: an inner node, by its number in preorder, or a leaf.
#[derive(Clone, Copy, PartialEq, Eq, Debug)]
pub enum Place {
    Inner(u32),
    Leaf(u32),
}

/// Where the walk of a string ends. `right` tells that the string is above every delimiter there.
#[derive(Clone, Copy, PartialEq, Eq, Debug)]
pub struct Exit {
    pub place: Place,
    pub right: bool,
}
