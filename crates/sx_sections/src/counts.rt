//! How many blocks, delimiters, inner nodes and handles the keys of a dump come to.

ghost use Rattle.std.specs.Prelude.{◌≡◌, ◌≤◌, ◌+◌};
ghost use Rattle.sx_spec.specs.Kinds as counts;
ghost use Rattle.sx_sections.specs.Headers.{IsBounded, header_as};

use crate::header::Header;

/// How many blocks of 2 to the power `log_bucket` keys there are.
pub fn bucket_count(header: &Header) -> u64
    requires { IsBounded (header_as header.now) }
    ensures value { result ≡ counts.bucket_count header.now.plan header.now.keys }
    ensures few { result ≤ header.now.keys }
{
    let size = 1u64 << header.plan.log_bucket;
    (u64::from(header.keys) + size - 1) / size
}

/// How many delimiters: one between two blocks.
pub fn delimiter_count(header: &Header) -> u64
    requires { IsBounded (header_as header.now) }
    ensures value { result ≡ counts.delimiter_count header.now.plan header.now.keys }
    ensures few { result ≤ header.now.keys }
{
    bucket_count(header).saturating_sub(1)
}

/// How many inner nodes the trie of the delimiters has.
pub fn inner_count(header: &Header) -> u64
    requires { IsBounded (header_as header.now) }
    ensures value { result ≡ counts.inner_count header.now.plan header.now.keys }
    ensures few { result + 1 ≤ header.now.keys + 1 }
{
    delimiter_count(header).saturating_sub(1)
}

/// How many of these have a handle: all but the root.
pub fn handle_count(header: &Header) -> u64
    requires { IsBounded (header_as header.now) }
    ensures value { result ≡ counts.handle_count header.now.plan header.now.keys }
    ensures few { result ≤ header.now.keys }
{
    delimiter_count(header).saturating_sub(2)
}
