//! The calls as C makes them, over dumps of which the numbers were computed elsewhere.

use crate::asking::{sux_keys, sux_kind, sux_replies, sux_reply, sux_words};
use crate::building::sux_build;
use crate::found::SuxFound;
use crate::handle::SuxDump;
use crate::header::SuxHeader;
use crate::opening::sux_open;
use crate::place::SuxPlace;
use crate::plan::SuxPlan;
use crate::rooms::SuxRooms;
use crate::told::{SuxFailures, SuxTold};
use std::alloc::Global;
use std::test::Fail;

/// The dump of kind `lcp` of the keys a, b, c and d, in blocks of two.
const LETTERS: [u64; 20] = [
    0x3150_4D55_4458_5553,
    20,
    1,
    0,
    4,
    0,
    192,
    1,
    0,
    0,
    4,
    4,
    0,
    9,
    0xC_DA10_0000,
    1,
    2,
    0,
    6,
    16,
];

/// The words of `LETTERS` without the last.
const CUT: [u64; 19] = [
    0x3150_4D55_4458_5553,
    20,
    1,
    0,
    4,
    0,
    192,
    1,
    0,
    0,
    4,
    4,
    0,
    9,
    0xC_DA10_0000,
    1,
    2,
    0,
    6,
];

/// The dump of kind `hollow` of the keys a, b and c.
const HOLLOW: [u64; 17] = [
    0x3150_4D55_4458_5553,
    17,
    3,
    0,
    3,
    0,
    192,
    0,
    0,
    0,
    3,
    3,
    21,
    3,
    7,
    0,
    49,
];

/// A handle that isn't open.
fn closed() -> SuxDump<'static> {
    SuxDump {
        words: &[],
        rooms: SuxRooms::none(),
        found: SuxFound {
            header: SuxHeader {
                seed: 0,
                keys: 0,
                sig_bits: 0,
                log_bucket: 0,
                signed_bits: 0,
                handle_bits: 0,
                kind: 0,
                method: 0,
            },
            count: 0,
            places: [SuxPlace {
                what: 0,
                width: 0,
                count: 0,
                below: 0,
                body: 0,
                after: 0,
            }; 11],
            longest: 0,
        },
        opened: false,
    }
}

/// What an opening comes to: how it is told, the check that failed, 0 where none did, and the words
/// of room that are wanted, 0 where there are enough.
fn opening<'a>(
    alloc: Global,
    words: &'a [u64],
    bytes: u64,
    room: &'a mut [u64],
    dump: &mut SuxDump<'a>,
) -> (u8, u8, u64) {
    let mut check = 0;
    let mut wanted = 0;
    let status = sux_open(alloc, words, bytes, room, dump, &mut check, &mut wanted);
    (status, check, wanted)
}

/// What a line comes to: how it is told, and its number, 9 where there is none.
fn asked(dump: &SuxDump<'_>, line: &[u8]) -> (u8, u64) {
    let mut value = 9;
    let status = sux_reply(dump, line, &mut value);
    (status, value)
}

/// The kind, the keys and the words of a handle.
fn told(dump: &SuxDump<'_>) -> (u8, u64, u64) {
    (sux_kind(dump), sux_keys(dump), sux_words(dump))
}

/// The open dump of the letters.
fn letters(alloc: Global) -> SuxDump<'static> {
    let mut dump = closed();
    let _ = opening(alloc, &LETTERS, 160, &mut [], &mut dump);
    dump
}

#[test]
fn a_closed_handle_answers_nothing(rt: HostRuntime) -> Result<(), Fail> {
    let dump = closed();
    assert_eq!(rt; asked(&dump, b"a"), (4, 9));
    assert_eq!(rt; told(&dump), (255, 0, 0));
    Ok(())
}

#[test]
fn an_open_dump_is_asked(rt: HostRuntime) -> Result<(), Fail> {
    let dump = letters(rt.alloc());
    assert_eq!(rt; told(&dump), (1, 4, 20));
    assert_eq!(rt; asked(&dump, b"c"), (0, 2));
    let mut long = [0; 8192];
    long.fill(65);
    assert_eq!(rt; asked(&dump, &long), (1, 9));
    Ok(())
}

#[test]
fn lines_are_answered_in_their_order(rt: HostRuntime) -> Result<(), Fail> {
    let dump = letters(rt.alloc());
    let lines: [&[u8]; 3] = [b"b", b"", b"d"];
    let mut values = [9, 9, 9];
    let mut statuses = [9, 9, 9];
    assert_eq!(rt;
        sux_replies(&dump, &lines, &mut values[..2], &mut statuses),
        2
    );
    assert_eq!(rt; sux_replies(&dump, &lines, &mut values, &mut statuses), 0);
    assert_eq!(rt; statuses, [0, 0, 0]);
    assert_eq!(rt; (values[0], values[2]), (1, 3));
    Ok(())
}

#[test]
fn words_that_are_no_dump_close_the_handle(rt: HostRuntime) -> Result<(), Fail> {
    let mut dump = letters(rt.alloc());
    assert_eq!(rt;
        opening(rt.alloc(), &LETTERS, 168, &mut [], &mut dump),
        (2, 0, 0)
    );
    assert_eq!(rt; asked(&dump, b"a"), (4, 9));
    assert_eq!(rt;
        opening(rt.alloc(), &LETTERS, 159, &mut [], &mut dump),
        (4, 1, 0)
    );
    assert_eq!(rt;
        opening(rt.alloc(), &CUT, 152, &mut [], &mut dump),
        (4, 3, 0)
    );
    Ok(())
}

#[test]
fn a_hollow_trie_is_asked_in_room_that_is_given(rt: HostRuntime) -> Result<(), Fail> {
    let mut room = [9; 5];
    let mut dump = letters(rt.alloc());
    assert_eq!(rt;
        opening(rt.alloc(), &HOLLOW, 136, &mut [], &mut dump),
        (9, 0, 4)
    );
    assert_eq!(rt; asked(&dump, b"a"), (4, 9));
    assert_eq!(rt;
        opening(rt.alloc(), &HOLLOW, 136, &mut room, &mut dump),
        (0, 0, 0)
    );
    assert_eq!(rt; told(&dump), (3, 3, 17));
    assert_eq!(rt; (asked(&dump, b"a"), asked(&dump, b"c")), ((0, 0), (0, 2)));
    Ok(())
}

/// What is asked for the dump of the letters.
const ASKED: SuxPlan = SuxPlan {
    log_bucket: 1,
    sig_bits: 192,
    handle_bits: 0,
    signed_bits: 0,
    kind: 1,
    method: 0,
};

/// Of no build.
fn untold() -> SuxTold {
    SuxTold {
        words: 0,
        seed: 9,
        number: 9,
        rule: 9,
        failures: SuxFailures::none(),
    }
}

/// What a build of these keys into this room by the seeds 0 and 1 comes to.
fn building(
    alloc: Global,
    keys: &[&[u8]],
    plan: &SuxPlan,
    out: &mut [u64],
    told: &mut SuxTold,
) -> u8 {
    sux_build(alloc, keys, &[], plan, &[0, 1], out, told)
}

#[test]
fn a_dump_is_built(rt: HostRuntime) -> Result<(), Fail> {
    let keys: [&[u8]; 4] = [b"a", b"b", b"c", b"d"];
    let mut out = [9; 20];
    let mut told = untold();
    assert_eq!(rt;
        building(rt.alloc(), &keys, &ASKED, &mut out[..19], &mut told),
        9
    );
    assert_eq!(rt; (told.words, out[0], out[18]), (20, 9, 9));
    assert_eq!(rt; building(rt.alloc(), &keys, &ASKED, &mut out, &mut told), 0);
    assert_eq!(rt; (told.words, told.seed, told.failures.count), (20, 0, 0));
    assert_eq!(rt; out, LETTERS);
    Ok(())
}

#[test]
fn the_first_bad_key_is_told(rt: HostRuntime) -> Result<(), Fail> {
    let keys: [&[u8]; 3] = [b"b", b"a", b"a"];
    let mut out = [9; 1];
    let mut told = untold();
    assert_eq!(rt; building(rt.alloc(), &keys, &ASKED, &mut out, &mut told), 6);
    assert_eq!(rt; (told.number, told.rule, out[0]), (1, 4, 9));
    Ok(())
}

#[test]
fn seeds_that_fail_are_told(rt: HostRuntime) -> Result<(), Fail> {
    let keys: [&[u8]; 2] = [b"a", b"b"];
    let mut plan = ASKED;
    plan.sig_bits = 0;
    let mut told = untold();
    assert_eq!(rt; building(rt.alloc(), &keys, &plan, &mut [], &mut told), 8);
    let last = told.failures.list[1];
    assert_eq!(rt; (told.failures.count, last.part, last.cause), (2, 0, 1));
    assert_eq!(rt; (last.first, last.second), (0, 1));
    Ok(())
}

#[test]
fn what_is_asked_is_checked(rt: HostRuntime) -> Result<(), Fail> {
    let mut told = untold();
    let mut plan = ASKED;
    let status = sux_build(rt.alloc(), &[], &[1], &plan, &[0], &mut [], &mut told);
    assert_eq!(rt; status, 2);
    assert_eq!(rt;
        sux_build(rt.alloc(), &[], &[], &plan, &[], &mut [], &mut told),
        2
    );
    plan.handle_bits = 32;
    assert_eq!(rt; building(rt.alloc(), &[], &plan, &mut [], &mut told), 7);
    plan.handle_bits = 0;
    plan.kind = 6;
    assert_eq!(rt; building(rt.alloc(), &[], &plan, &mut [], &mut told), 7);
    Ok(())
}
