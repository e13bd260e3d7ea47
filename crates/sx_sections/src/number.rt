//! The checks of a dump, and their numbers.

ghost use Rattle.std.specs.Prelude.{◌≡◌, ◌≤◌};
ghost use Rattle.sx_sections.specs.Checks.{check_number};

/// A check that the words of a dump have to pass.
#[derive(Clone, Copy, PartialEq, Eq, Debug)]
pub enum Check {
    /// The number of bytes.
    Size,
    /// The first word.
    Magic,
    /// The number of words.
    Words,
    Kind,
    Method,
    /// The number of keys.
    Keys,
    SigBits,
    LogBucket,
    Signed,
    HandleBits,
    /// There are as many words as a section asks for.
    Room,
    /// The number of a section's entries.
    Count,
    /// The width of a section's entries.
    Width,
    /// The chunk table of a function.
    Table,
    /// The bits after the last entry.
    Padding,
    /// The numbers of an Elias-Fano list.
    Sums,
    /// The order of the corrections.
    Order,
    /// No words follow the last section.
    Rest,
}

impl Check {
    /// The number by which it is told.
    pub fn number(self) -> u8
        ensures { result ≡ check_number self }
    {
        match self {
            Check::Size => 1,
            Check::Magic => 2,
            Check::Words => 3,
            Check::Kind => 4,
            Check::Method => 5,
            Check::Keys => 6,
            Check::SigBits => 7,
            Check::LogBucket => 8,
            Check::Signed => 9,
            Check::HandleBits => 10,
            Check::Room => 11,
            Check::Count => 12,
            Check::Width => 13,
            Check::Table => 14,
            Check::Padding => 15,
            Check::Sums => 16,
            Check::Order => 17,
            Check::Rest => 18,
        }
    }

    /// The check of a number from 1 to 18.
    pub fn of_number(number: u8) -> Check
        requires least { 1 ≤ number }
        requires most { number ≤ 18 }
        ensures { check_number result ≡ number }
    {
        match number {
            1 => Check::Size,
            2 => Check::Magic,
            3 => Check::Words,
            4 => Check::Kind,
            5 => Check::Method,
            6 => Check::Keys,
            7 => Check::SigBits,
            8 => Check::LogBucket,
            9 => Check::Signed,
            10 => Check::HandleBits,
            11 => Check::Room,
            12 => Check::Count,
            13 => Check::Width,
            14 => Check::Table,
            15 => Check::Padding,
            16 => Check::Sums,
            17 => Check::Order,
            _ => Check::Rest,
        }
    }
}
