//! What a map has answered for prefixes of a key, which also serves the key after it as far as that
//! begins alike: keys in order share long prefixes, and each prefix that needn't be signed again is a
//! digest less.

ghost use Rattle.std.specs.Prelude.{◌≡◌, ◌<◌, ◌≤◌, IfSome, length, take};
ghost use Rattle.sx_spec_strings.specs.Bits.{Bits};
ghost use Rattle.sx_spec_kinds.specs.Zfast.{HandleMap, probed_node};
ghost use Rattle.sx_zfast.specs.Memo.{AreKnown, IsKept};

/// The node that is answered for the first `len` bits of a key; a length of 0 has none.
#[derive(Clone, Copy)]
pub(crate) struct Known {
    pub(crate) len: u32,
    pub(crate) answer: Option<u64>,
}

/// How many lengths are known at once. A search asks each length with another number of factors 2, and
/// these are the slots.
const SLOTS: usize = 32;

/// Answers for prefixes of one key.
#[derive(Drop)]
pub(crate) struct Memo {
    pub(crate) slots: [Known; 32],
}

/// The slot of a length.
#[inline(always)]
fn slot(len: u32) -> usize
    ensures { result < 32 }
{
    len.trailing_zeros() as usize % SLOTS
}

/// What is known, where that is of no more than so many bits.
#[inline(always)]
fn kept(known: Known, shared: u32) -> Known
    ensures { IsKept shared known result }
{
    if known.len <= shared {
        return known;
    }
    Known {
        len: 0,
        answer: None,
    }
}

impl Memo {
    /// Nothing is known.
    pub(crate) fn new() -> Memo
        ensures { (m : HandleMap) → (x : Bits) → AreKnown m x result.slots }
    {
        Memo {
            slots: [Known {
                len: 0,
                answer: None,
            }; 32],
        }
    }

    /// What was answered for the first `len` bits, which are some, if that is known.
    #[inline(always)]
    pub(crate) fn answer(&self, len: u32) -> Option<Option<u64>>
        requires { 0 < len }
        ensures { (m : HandleMap) → (x : Bits) → AreKnown m x self.now.slots
            → IfSome result (λ a. a ≡ probed_node m (take len x)) }
    {
        let known = self.slots[slot(len)];
        if known.len == len {
            Some(known.answer)
        } else {
            None
        }
    }

    /// Keeps what is answered for the first `len` bits.
    #[inline(always)]
    pub(crate) fn learn(&mut self, len: u32, answer: Option<u64>)
        ensures { (m : HandleMap) → (x : Bits) → AreKnown m x self.old.slots → len ≤ length x
            → answer ≡ probed_node m (take len x) → AreKnown m x self.new.slots }
    {
        self.slots[slot(len)] = Known { len, answer };
    }

    /// Goes on to another key that begins with the same bits, so many of them.
    pub(crate) fn go_on(&mut self, shared: u32)
        ensures { (m : HandleMap) → (x : Bits) → (y : Bits) → AreKnown m x self.old.slots
            → shared ≤ length y → take shared x ≡ take shared y → AreKnown m y self.new.slots }
    {
        for i in 0..SLOTS {
            self.slots[i] = kept(self.slots[i], shared);
        }
    }
}
