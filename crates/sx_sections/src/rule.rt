//! What a section has to be, and the slots in which sections stand.

ghost use Rattle.std.specs.Prelude.{◌≡◌, ◌<◌, ◌^◌, List};
ghost use Rattle.sx_spec.specs.Layout.{Section, last_section, section_count, section_width};
ghost use Rattle.sx_sections.specs.Rules.{IsBoundedAfter, IsBoundedRule, at_most, exactly, rule_after, rule_as, slot_of};

use crate::name::SectionName;

/// How many entries a section has, and how wide they are.
#[derive(Clone, Copy, PartialEq, Eq, Debug)]
pub struct Bounds {
    /// The least number of entries.
    pub least: u64,
    /// The greatest number of entries.
    pub most: u64,
    /// The least width.
    pub low: u32,
    /// The greatest width.
    pub high: u32,
}

/// What a section has to be.
#[derive(Clone, Copy, PartialEq, Eq, Debug)]
pub enum SectionRule {
    /// A function within bounds.
    Function(Bounds),
    /// A packed list within bounds.
    List(Bounds),
    /// An Elias-Fano list of exactly so many numbers.
    Sums(u64),
    /// At most so many signatures.
    Corrections(u64),
}

/// What the section of a slot has to be, which may depend on the section before it.
#[derive(Clone, Copy, PartialEq, Eq, Debug)]
pub enum SlotRule {
    /// The same after any section.
    Always(SectionRule),
    /// A list with fewer entries than there are numbers of the width of the section before it.
    Coded,
    /// A list with as many entries as the section before it.
    Matching,
}

/// A section's name and rule.
#[derive(Clone, Copy, PartialEq, Eq, Debug)]
pub struct Slot {
    pub name: SectionName,
    pub rule: SlotRule,
}

impl SlotRule {
    /// The rule after a section of this width and so many entries.
    pub fn after(self, width: u32, count: u64) -> SectionRule
        requires bounded { IsBoundedAfter width self }
        requires few { count < 2 ^ 32 }
        ensures rule { (before : List Section) → section_width (last_section before) ≡ width
            → section_count (last_section before) ≡ count
            → rule_as result ≡ rule_after self before }
        ensures bounded { IsBoundedRule result }
    {
        match self {
            SlotRule::Always(rule) => rule,
            SlotRule::Coded => SectionRule::List(Bounds {
                least: 0,
                most: (1 << width) - 1,
                low: 0,
                high: 32,
            }),
            SlotRule::Matching => SectionRule::List(Bounds {
                least: count,
                most: count,
                low: 0,
                high: 32,
            }),
        }
    }
}

impl Bounds {
    /// Exactly so many entries, of a width from `low` to `high`.
    pub fn exactly(count: u64, low: u32, high: u32) -> Self
        ensures { result ≡ exactly count low high }
    {
        Bounds {
            least: count,
            most: count,
            low,
            high,
        }
    }

    /// At most so many entries, of a width of 32 at most.
    pub fn at_most(most: u64) -> Self
        ensures { result ≡ at_most most }
    {
        Bounds {
            least: 0,
            most,
            low: 0,
            high: 32,
        }
    }
}

impl Slot {
    /// A slot with a rule that depends on no other section.
    pub fn new(name: SectionName, rule: SectionRule) -> Self
        ensures { result ≡ slot_of name rule }
    {
        Slot {
            name,
            rule: SlotRule::Always(rule),
        }
    }
}
