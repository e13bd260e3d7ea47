//! Signatures: 192 bits of a digest, of which the first are kept.

ghost use Rattle.std.specs.Prelude.{◌≡◌, ◌-◌, ◌*◌, ◌/◌, ◌^◌, ◌<◌, ◌≤◌, ◌++◌, length, take};
ghost use Rattle.sha2.specs.Hashers.{Holds256};
ghost use Rattle.sx_spec_strings.specs.Bits.{bytes_bits, packed_bytes, tagged};
ghost use Rattle.sx_spec.specs.Signature.{kept_bits, signature, signature_from};
ghost use Rattle.sx_bits.specs.Views.{bits_of};
ghost use Rattle.sx_sig.specs.Heading.{heading};

use byteorder::{BigEndian, ByteOrder};
use sha2::{Digest, Sha256};
use sx_bits::BitView;
use sx_spec::Signature;

/// How many bits are hashed at a time.
const PIECE: u32 = 512;

/// How many bytes the longest heading and the first piece have together.
const FRONT: usize = 84;

/// Writes what stands before the bits of a string of so many bits, and answers how many bytes it has.
fn put_heading(front: &mut [u8; FRONT], seed: u64, bits: u32, tag: Option<u32>) -> usize
    requires { bits ≤ 65536 }
    ensures put { take result front.new ≡ heading seed bits tag }
    ensures bound { result ≤ 20 }
{
    front[..8].copy_from_slice(&seed.to_le_bytes());
    match tag {
        None => {
            front[8..16].copy_from_slice(&u64::from(bits).to_le_bytes());
            16
        }
        Some(tag) => {
            front[8..16].copy_from_slice(&(32 + u64::from(bits)).to_le_bytes());
            front[16..20].copy_from_slice(&tag.to_be_bytes());
            20
        }
    }
}

/// A hasher that holds what stands before the bits of a string and the first piece of these. Most
/// strings end there, so that both are handed over in one call.
fn begin(seed: u64, view: &BitView<'_>, tag: Option<u32>) -> Sha256
    ensures { Holds256 result (heading seed (length (bits_of view.now)) tag
        ++ packed_bytes (take 512 (bits_of view.now))) }
{
    let mut front = [0u8; FRONT];
    let start = put_heading(&mut front, seed, view.len(), tag);
    let mut piece = [0u8; 64];
    let used = view.fill(0, &mut piece);
    front[start..start + 64].copy_from_slice(&piece);
    let mut hasher = Sha256::new();
    hasher.update(&front[..start + used]);
    hasher
}

/// The word with its first `kept` bits, and zero bits in place of the others.
fn top_kept(word: u64, kept: u32) -> u64
    requires { kept ≤ 64 }
    ensures { result ≡ word / 2 ^ (64 - kept) * 2 ^ (64 - kept) }
{
    if kept == 0 {
        return 0;
    }
    word >> (64 - kept) << (64 - kept)
}

/// The first `kept` bits of a digest of 32 bytes.
fn first_bits(digest: &[u8], kept: u32) -> Signature
    requires whole { length digest.now ≡ 32 }
    requires few { kept ≤ 192 }
    ensures { result ≡ signature_from (kept_bits kept (bytes_bits (take 24 digest.now))) }
{
    Signature {
        w0: top_kept(BigEndian::read_u64(digest), kept.min(64)),
        w1: top_kept(
            BigEndian::read_u64(&digest[8..]),
            kept.saturating_sub(64).min(64),
        ),
        w2: top_kept(BigEndian::read_u64(&digest[16..]), kept.saturating_sub(128)),
    }
}

/// The signature of a string under a seed: the first `sig_bits` bits of its digest, and zero bits
/// up to 192. A tag stands before the string, as 32 bits. `sig_bits` is at most 192.
pub fn sign(seed: u64, view: &BitView<'_>, tag: Option<u32>, sig_bits: u32) -> Signature
    requires { sig_bits ≤ 192 }
    ensures { result ≡ signature seed sig_bits (tagged tag (bits_of view.now)) }
{
    let length = view.len();
    let mut hasher = begin(seed, view, tag);
    let mut buf = [0u8; 64];
    'pieces: for i in 1..length.div_ceil(PIECE) {
        let used = view.fill(PIECE * i, &mut buf);
        hasher.update(&buf[..used]);
    }
    first_bits(&hasher.finalize(), sig_bits)
}
