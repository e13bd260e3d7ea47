//! The distributor as it answers from a bank of words.

ghost use Rattle.std.specs.Prelude.{◌≡◌, ◌+◌, ◌-◌, ◌*◌, ◌<◌, ◌≤◌, ◌^◌, IfSome, length, map, option_map, slice_index, take};
ghost use Rattle.sx_spec_strings.specs.Numbers.{binary_digits};
ghost use Rattle.sx_spec.specs.Signature.{signature};
ghost use Rattle.sx_spec_kinds.specs.Trie.{node_at};
ghost use Rattle.sx_spec_kinds.specs.Search.{reached as reached_of};
ghost use Rattle.sx_spec_kinds.specs.Zfast.{probed_node, probed_search_of, zfast_block};
ghost use Rattle.sx_bits.specs.Views.{bits_of};
ghost use Rattle.sx_static.specs.Reading.{answers_by};
ghost use Rattle.sx_steps.specs.Blanks.{IsBlankOf};
ghost use Rattle.sx_trie.specs.Tries.{node_of};
ghost use Rattle.sx_zfast.specs.Largest.{largest};
ghost use Rattle.sx_zfast.specs.Maps.{map_read, numbers_read};

use crate::corrected::Corrections;
use crate::probing::probed;
use crate::signing::Signing;
use std::alloc::AllocError;
use std::marker::Brand;
use std::sync::ledger::{Blank, Ledger};
use sx_bits::BitView;
use sx_fields::bank::WordBank;
use sx_fields::fields::Fields;
use sx_fields::packed::Packed;
use sx_handles::block_from;
use sx_signed::SignedView;
use sx_spec::Signature;
use sx_static::FuncView;
use sx_steps::Steps;
use sx_trie::{Node, fattest};

/// A distributor into blocks by fat binary search among the handles of a trie of delimiters.
#[derive(Copy)]
pub struct ZfastView<B: WordBank + Copy> {
    /// How many delimiters there are.
    pub delimiters: u64,
    /// The lengths of the inner nodes' extents.
    pub extents: Packed<B>,
    /// The first leaf under each inner node.
    pub firsts: Packed<B>,
    /// The first leaf under its right child.
    pub middles: Packed<B>,
    /// The leaf after its last one.
    pub afters: Packed<B>,
    /// Gives a handle, by its signature, the number of its node less one.
    pub map: SignedView<B>,
    /// Gives a key its code.
    pub codes: FuncView<B>,
    /// The blocks of the keys that are misled.
    pub corrections: Corrections<B>,
    /// The length of the longest extent, beyond which no prefix leads to a node, or 0.
    longest: u32,
    ghost few: { delimiters < 2 ^ 32 },
    ghost all_extents: { length (numbers_read extents) ≡ delimiters - 1 },
    ghost all_firsts: { length (numbers_read firsts) ≡ delimiters - 1 },
    ghost all_middles: { length (numbers_read middles) ≡ delimiters - 1 },
    ghost all_afters: { length (numbers_read afters) ≡ delimiters - 1 },
    ghost marks: { length (numbers_read map.kept) ≡ delimiters - 2 },
    ghost narrow_extents: { extents.width ≤ 32 },
    ghost narrow_firsts: { firsts.width ≤ 32 },
    ghost narrow_middles: { middles.width ≤ 32 },
    ghost narrow_afters: { afters.width ≤ 32 },
    ghost longest_extent: { longest ≡ largest (numbers_read extents) },
}

impl<B: WordBank + Copy> Clone for ZfastView<B> {
    ghost is_clone = { λ x y. y ≡ x };

    fn clone(&self) -> Result<Self, AllocError> {
        Ok(*self)
    }
}

/// An inner node to which a search came, and the length of its extent.
#[derive(Clone, Copy)]
struct Stop {
    node: usize,
    extent: u32,
}

/// Number `i` of a list of numbers of at most 32 bits. At most two words are read.
#[inline(always)]
fn read_narrow<B: WordBank + Copy, L: Ledger>(
    list: &Packed<B>,
    i: usize,
    steps: &mut Steps<L>,
) -> u32
    requires narrow { list.now.width ≤ 32 }
    requires within { i < length (numbers_read list.now) }
    ensures value { result ≡ slice_index (numbers_read list.now) i }
    ensures counted { steps.old ≤ steps.new }
    ensures cost { steps.new ≤ steps.old + 2 }
{
    list.read(i, steps) as u32
}

/// What `largest_in` finds, with a count of its own.
fn largest_counted<B: WordBank + Copy, L: Ledger>(list: &Packed<B>, blank: Blank) -> u32
    requires blank { IsBlankOf L.Ledger blank }
    requires narrow { list.now.width ≤ 32 }
    ensures { result ≡ largest (numbers_read list.now) }
{
    let mut steps = Steps::<L>::new(blank);
    let mut most: u32 = 0;
    for i in 0..list.len() {
        most = most.max(read_narrow(list, i, &mut steps));
    }
    most
}

/// The largest number of a list of numbers of at most 32 bits, all of which are read; 0 where there
/// are none.
pub fn largest_in<B: WordBank + Copy>(list: &Packed<B>) -> u32
    requires { list.now.width ≤ 32 }
    ensures { result ≡ largest (numbers_read list.now) }
{
    largest_counted::<B, Brand>(list, Blank::new(1))
}

impl<B: WordBank + Copy> ZfastView<B> {
    ghost use Rattle.sx_zfast.specs.Views.{corrected_by, nodes_read};

    /// The distributor by fewer than 2 to the power 32 delimiters, by the lists of the inner nodes,
    /// one less than delimiters and of at most 32 bits each, the map of the handles, another one
    /// less, the function of the codes, the corrections, and the largest of the extents, which
    /// `largest_in` finds.
    pub fn new(
        delimiters: u64,
        extents: Packed<B>,
        firsts: Packed<B>,
        middles: Packed<B>,
        afters: Packed<B>,
        map: SignedView<B>,
        codes: FuncView<B>,
        corrections: Corrections<B>,
        longest: u32,
    ) -> ZfastView<B>
        requires few { delimiters < 2 ^ 32 }
        requires extents { length (numbers_read extents) ≡ delimiters - 1 }
        requires firsts { length (numbers_read firsts) ≡ delimiters - 1 }
        requires middles { length (numbers_read middles) ≡ delimiters - 1 }
        requires afters { length (numbers_read afters) ≡ delimiters - 1 }
        requires marks { length (numbers_read map.kept) ≡ delimiters - 2 }
        requires narrow_extents { extents.width ≤ 32 }
        requires narrow_firsts { firsts.width ≤ 32 }
        requires narrow_middles { middles.width ≤ 32 }
        requires narrow_afters { afters.width ≤ 32 }
        requires longest { longest ≡ largest (numbers_read extents) }
        ensures delimiters { result.delimiters ≡ delimiters }
        ensures extents { result.extents ≡ extents }
        ensures firsts { result.firsts ≡ firsts }
        ensures middles { result.middles ≡ middles }
        ensures afters { result.afters ≡ afters }
        ensures map { result.map ≡ map }
        ensures codes { result.codes ≡ codes }
        ensures corrections { result.corrections ≡ corrections }
    {
        ZfastView {
            delimiters,
            extents,
            firsts,
            middles,
            afters,
            map,
            codes,
            corrections,
            longest,
        }
    }

    /// The block of a string under a seed, with so many bits of a signature, at most 192, where this
    /// is the string's own: of a key the number of delimiters below it, and of any other string a
    /// number or none. At most 12 words are read for each binary digit of the string's length, 3 for
    /// each of the number of corrections, and 24.
    pub fn block<L: Ledger>(
        &self,
        view: &BitView<'_>,
        sig: &Signature,
        seed: u64,
        sig_bits: u32,
        steps: &mut Steps<L>,
    ) -> Option<u64>
        requires few { sig_bits ≤ 192 }
        requires signed { sig.now ≡ signature seed sig_bits (bits_of view.now) }
        ensures value { result ≡ zfast_block self.now.delimiters (nodes_read self.now)
            (map_read self.now.map seed sig_bits) (answers_by self.now.codes seed sig_bits)
            (corrected_by self.now.corrections seed sig_bits) (bits_of view.now) }
        ensures counted { steps.old ≤ steps.new }
        ensures cost { steps.new ≤ steps.old + (12 * binary_digits (length (bits_of view.now))
            + 3 * binary_digits self.now.corrections.count + 24) }
    {
        if let Some(block) = self.corrections.lookup(sig, steps) {
            return Some(block);
        }
        if self.delimiters == 0 {
            return Some(0);
        }
        let code = self.codes.answer(sig, steps);
        if self.delimiters == 1 {
            return Some(code % 2);
        }
        let stop = self.search(view, Signing { seed, sig_bits }, steps);
        let block = block_from(&self.node(&stop, steps), code, view)?;
        Some(u64::from(block))
    }

    /// The inner node at which the search of a string ends. At most 12 words are read for each
    /// binary digit of its length, and two. There are two delimiters or more.
    fn search<L: Ledger>(&self, view: &BitView<'_>, signing: Signing, steps: &mut Steps<L>) -> Stop
        requires some { 1 < self.now.delimiters }
        ensures value { result.node ≡ (probed_search_of
            (map_read self.now.map signing.seed signing.sig_bits) (numbers_read self.now.extents)
            (bits_of view.now)).node }
        ensures inside { result.node < self.now.delimiters - 1 }
        ensures extent { result.extent ≡ slice_index (numbers_read self.now.extents) result.node }
        ensures counted { steps.old ≤ steps.new }
        ensures cost { steps.new
            ≤ steps.old + (12 * binary_digits (length (bits_of view.now)) + 2) }
    {
        let mut at = Stop {
            node: 0,
            extent: read_narrow(&self.extents, 0, steps),
        };
        let mut limit = view.len();
        while at.extent < limit {
            let len = fattest(at.extent, limit);
            match self.reached(view, len, signing, steps) {
                Some(next) => at = next,
                None => limit = len - 1,
            }
        }
        at
    }

    /// Where the first `len` bits of a string lead: to the node that the map answers, where its
    /// extent has at least so many bits. At most 12 words are read. Beyond the longest extent none is,
    /// and nothing is signed.
    #[inline(always)]
    fn reached<L: Ledger>(
        &self,
        view: &BitView<'_>,
        len: u32,
        signing: Signing,
        steps: &mut Steps<L>,
    ) -> Option<Stop>
        requires within { len ≤ length (bits_of view.now) }
        ensures value { option_map (λ s. s.node) result
            ≡ reached_of (numbers_read self.now.extents) len (probed_node
            (map_read self.now.map signing.seed signing.sig_bits) (take len (bits_of view.now))) }
        ensures inside { IfSome result (λ s. s.node < self.now.delimiters - 1) }
        ensures extent { IfSome result
            (λ s. s.extent ≡ slice_index (numbers_read self.now.extents) s.node) }
        ensures long { IfSome result (λ s. len ≤ s.extent) }
        ensures counted { steps.old ≤ steps.new }
        ensures cost { steps.new ≤ steps.old + 12 }
    {
        if len > self.longest {
            return None;
        }
        let node = probed(&self.map, view, len, signing, steps)? as usize;
        let extent = read_narrow(&self.extents, node, steps);
        if len <= extent {
            Some(Stop { node, extent })
        } else {
            None
        }
    }

    /// The inner node at which a search ended. At most six words are read.
    #[inline(always)]
    fn node<L: Ledger>(&self, at: &Stop, steps: &mut Steps<L>) -> Node
        requires inside { at.now.node < self.now.delimiters - 1 }
        requires extent { at.now.extent ≡ slice_index (numbers_read self.now.extents) at.now.node }
        ensures value { node_of result ≡ node_at (nodes_read self.now) at.now.node }
        ensures counted { steps.old ≤ steps.new }
        ensures cost { steps.new ≤ steps.old + 6 }
    {
        Node {
            extent: at.extent,
            first: read_narrow(&self.firsts, at.node, steps),
            middle: read_narrow(&self.middles, at.node, steps),
            after: read_narrow(&self.afters, at.node, steps),
        }
    }
}
