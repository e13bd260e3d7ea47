//! List sections: a word with the number of items, a word with their width, and the items as packed fields.
ghost use Rattle.std.specs.Prelude.{◌≡◌, ◌+◌, ◌*◌, ◌<◌, ◌≤◌, ◌^◌, IfOk, drop, length};
ghost use Rattle.sx_spec.specs.Fields.{fields, is_zero_after, words_for};
ghost use Rattle.sx_spec.specs.Layout.{list_of, list_section, section_of};
ghost use Rattle.sx_fields.specs.Sections.{list_found};

/// The check that there are as many words as a section asks for.
pub const LENGTH_CHECK: u8 = 11;

/// The check of the number of items.
pub const COUNT_CHECK: u8 = 12;

/// The check of the width.
pub const WIDTH_CHECK: u8 = 13;

/// The check that the bits after the last item are zero.
pub const PADDING_CHECK: u8 = 15;

/// Where a list section lies.
#[derive(Clone, Copy, Debug)]
pub struct Section {
    /// The bits of each item.
    pub width: u32,
    /// How many items there are.
    pub count: u64,
    /// The first word of the items.
    pub body: usize,
    /// The first word after the section.
    pub after: usize,
}

/// Whether the bits after the first `bits` are zero. There are as many words as `bits` need.
pub fn is_zero_after(bits: u64, words: &[u64]) -> bool
    requires { length words.now ≡ words_for bits }
    ensures { result ≡ is_zero_after bits words.now }
{
    bits % 64 == 0 || words[(bits / 64) as usize] >> (bits % 64) == 0
}

/// The list section that begins at word `at`, with `least` to `most` items of `low_width` to `high_width` bits.
///
/// # Errors
/// The number of the first check that fails, in this order: the two words before the items are there (11), their number is in
/// its range (12), their width is in its range (13), the words of the items are there (11), the bits after the last item are
/// zero (15).
pub fn list_check(
    words: &[u64],
    at: usize,
    least: u64,
    most: u64,
    low_width: u32,
    high_width: u32,
) -> Result<Section, u8>
    requires inside { at ≤ length words.now }
    requires few { most < 2 ^ 32 }
    requires narrow { high_width ≤ 64 }
    ensures found { result ≡ list_found least most low_width high_width words.now at }
    ensures section { IfOk result (λ s.
        section_of (list_of least most low_width high_width) (drop at words.now)
        ≡ list_section s.width (fields s.width s.count (drop s.body words.now))) }
    ensures narrow { IfOk result (λ s. s.width ≤ 64) }
    ensures few { IfOk result (λ s. s.count < 2 ^ 32) }
    ensures body { IfOk result (λ s. s.body + words_for (s.count * s.width) ≡ s.after) }
    ensures after { IfOk result (λ s. s.after ≤ length words.now) }
{
    let rest = &words[at..];
    if rest.len() < 2 {
        return Err(LENGTH_CHECK);
    }
    let count = rest[0];
    let width = rest[1];
    if count < least || count > most {
        return Err(COUNT_CHECK);
    }
    if width < u64::from(low_width) || width > u64::from(high_width) {
        return Err(WIDTH_CHECK);
    }
    let bits = count * width;
    let size = bits.div_ceil(64) as usize;
    let items = &rest[2..];
    if items.len() < size {
        return Err(LENGTH_CHECK);
    }
    if !is_zero_after(bits, &items[..size]) {
        return Err(PADDING_CHECK);
    }
    Ok(Section {
        width: width as u32,
        count,
        body: at + 2,
        after: at + 2 + size,
    })
}
