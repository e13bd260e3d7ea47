//! Parts, numbers and sections of a few keys.

ghost use Rattle.std.specs.Prelude.{◌≡◌, ◌≤◌, ◌<◌, All, length};

use crate::layout::{SectionBuf, packed_list};
use crate::numbers::{
    least_width, length_numbers, members_to, narrow_width, numbers_at, numbers_to, offset_numbers,
    offset_width, widened,
};
use crate::parts::{Stop, build_least, build_part, failed};
use crate::signatures::{sign_keys, sign_pieces, signatures_at};
use crate::signed::{with_key_signatures, with_signatures};
use crate::{Assembled, PartCause, finished, header_of};
use std::alloc::{AllocError, Global};
use std::process::Abort;
use std::test::Fail;
use sx_bits::{KeyList, Limits, Piece};
use sx_fields::fields::Fields;
use sx_sig::{Kind, Method, Plan, Signature};

/// A plan of a static function with whole signatures.
fn plan_of(signed: u32) -> Plan
    ensures bits { result.sig_bits ≡ 192 }
    ensures signed { result.signed ≡ signed }
{
    Plan {
        kind: Kind::Func,
        method: Method::Mwhc,
        log_bucket: 0,
        sig_bits: 192,
        handle_bits: 0,
        signed,
    }
}

/// The keys a, b and c.
fn three_keys(alloc: Global) -> Result<KeyList, Fail>
    ensures { Rattle.std.specs.Prelude.IfOk result (λ keys. length keys.lines ≡ 3) }
{
    let mut keys = KeyList::new(alloc, Limits::standard());
    keys.push(b"a")?;
    keys.push(b"b")?;
    keys.push(b"c")?;
    Ok(keys)
}

#[test]
fn numbers_of_keys(rt: HostRuntime) -> Result<(), Fail> {
    let alloc = rt.alloc();
    assert_eq!(rt; numbers_to(alloc, 3)?.as_slice(), [0, 1, 2].as_slice());
    assert_eq!(rt; members_to(alloc, 2)?.as_slice(), [0, 1].as_slice());
    assert_eq!(rt;
        offset_numbers(alloc, 5, 1)?.as_slice(),
        [0, 1, 0, 1, 0].as_slice()
    );
    assert_eq!(rt; offset_width(5, 1), 1);
    assert_eq!(rt; offset_width(1, 3), 0);
    assert_eq!(rt;
        length_numbers(alloc, &[6, 6, 5], 1)?.as_slice(),
        [12, 13, 10].as_slice()
    );
    assert_eq!(rt; least_width(&[3, 255, 7]), 8);
    assert_eq!(rt; narrow_width(&[]), 0);
    assert_eq!(rt; widened(alloc, &[7, 9])?.as_slice(), [7, 9].as_slice());
    assert_eq!(rt;
        numbers_at(alloc, &[5, 6, 7], &[2, 0])?.as_slice(),
        [7, 5].as_slice()
    );
    Ok(())
}
