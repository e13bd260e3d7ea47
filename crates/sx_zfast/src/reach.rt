//! Up to which length the prefixes of a string lead to nodes of a trie: beyond its longest extent
//! none does, so that none is signed there.

ghost use Rattle.std.specs.Prelude.{◌≡◌, map};
ghost use Rattle.sx_zfast.specs.Largest.{largest};

use sx_trie::Trie;

/// A trie, and the length of its longest extent, or 0.
#[derive(Clone, Copy)]
pub(crate) struct Reach<'a> {
    pub(crate) trie: &'a Trie,
    pub(crate) longest: u32,
    ghost longest_extent: { longest ≡ largest (map (λ w. w.extent) trie.now.nodes) },
}

impl<'a> Reach<'a> {
    /// That of a trie, of which each node is read.
    pub(crate) fn of(trie: &'a Trie) -> Reach<'a>
        ensures { result.trie.now ≡ trie.now }
    {
        let mut longest: u32 = 0;
        for node in 0..trie.nodes() {
            longest = longest.max(trie.node(node).extent);
        }
        Reach { trie, longest }
    }
}
