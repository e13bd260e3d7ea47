//! The names of sections.

ghost use Rattle.std.specs.Prelude.{◌≡◌};
ghost use Rattle.sx_sections.specs.Names.{name_text};

/// What a section of a dump is called.
#[derive(Clone, Copy, PartialEq, Eq, Debug)]
pub enum SectionName {
    Values,
    Lengths,
    Prefixes,
    Offsets,
    Codes,
    Table,
    Escaped,
    Left,
    Skip,
    Turns,
    Extents,
    Firsts,
    Middles,
    Afters,
    Handles,
    Marks,
    Corrections,
    Blocks,
    Signatures,
}

impl SectionName {
    /// The word that is shown for it.
    pub fn text(self) -> &'static str
        ensures { result.now ≡ name_text self }
    {
        match self {
            SectionName::Values => "values",
            SectionName::Lengths => "lengths",
            SectionName::Prefixes => "prefixes",
            SectionName::Offsets => "offsets",
            SectionName::Codes => "codes",
            SectionName::Table => "table",
            SectionName::Escaped => "escaped",
            SectionName::Left => "left",
            SectionName::Skip => "skip",
            SectionName::Turns => "turns",
            SectionName::Extents => "extents",
            SectionName::Firsts => "firsts",
            SectionName::Middles => "middles",
            SectionName::Afters => "afters",
            SectionName::Handles => "handles",
            SectionName::Marks => "marks",
            SectionName::Corrections => "corrections",
            SectionName::Blocks => "blocks",
            SectionName::Signatures => "signatures",
        }
    }
}
