//! The header of a dump: its words, and what they say.

ghost use Rattle.std.specs.Prelude.{◌≡◌, ◌∷◌};
ghost use Rattle.sx_spec.specs.Layout.{header_of, header_words, magic};
ghost use Rattle.sx_sections.specs.Headers.{IsBounded, IsHeader, header_as};

use crate::codes::{kind_code, kind_of, method_code, method_of};
use sx_spec::{Kind, Method, Plan};

/// The first word of a dump: the bytes `SUXDUMP1`.
pub const MAGIC: u64 = 0x3150_4D55_4458_5553;

/// How many words the front of a dump has: the first word, the number of words, and the header.
pub const FRONT: usize = 10;

/// What was asked for, the number of keys, and the seed.
#[derive(Clone, Copy, PartialEq, Eq, Debug)]
pub struct Header {
    pub plan: Plan,
    pub keys: u32,
    pub seed: u64,
}

/// The header of words that passed its checks.
pub fn read_header(words: &[u64]) -> Header
    requires { IsHeader words.now }
    ensures header { header_as result ≡ header_of words.now }
    ensures bounded { IsBounded (header_as result) }
{
    let kind = kind_of(words[2]).unwrap_or(Kind::Func);
    let method = method_of(words[3]).unwrap_or(Method::Mwhc);
    Header {
        plan: Plan {
            kind,
            method,
            log_bucket: words[7] as u32,
            sig_bits: words[6] as u32,
            handle_bits: words[9] as u32,
            signed: words[8] as u32,
        },
        keys: words[4] as u32,
        seed: words[5],
    }
}

/// The front of a dump with this header and so many words in all.
pub fn front_words(header: &Header, words: u64) -> [u64; 10]
    ensures { result ≡ magic ∷ words ∷ header_words (header_as header.now) }
{
    let plan = &header.plan;
    [
        MAGIC,
        words,
        kind_code(plan.kind),
        method_code(plan.method),
        u64::from(header.keys),
        header.seed,
        u64::from(plan.sig_bits),
        u64::from(plan.log_bucket),
        u64::from(plan.signed),
        u64::from(plan.handle_bits),
    ]
}
