//! Worked rows of fields and list sections.
ghost use Rattle.std.specs.Prelude.{◌≡◌, ◌<◌, length, slice_index};
ghost use Rattle.sx_steps.specs.Blanks.{IsBlankOf};

use crate::bank::{WordBank, Words, WordsBuf};
use crate::fields::{Fields, FieldsMut};
use crate::packed::Packed;
use crate::packed_buf::PackedBuf;
use crate::section::list_check;
use std::marker::Brand;
use std::sync::ledger::{Blank, Ledger};
use std::test::Fail;
use sx_steps::Steps;

fn read<F: Fields, L: Ledger>(list: &F, i: usize, blank: Blank) -> u64
    requires blank { IsBlankOf L.Ledger blank }
    requires within { i < length (F.items list.now) }
    ensures { result ≡ slice_index (F.items list.now) i }
{
    let mut steps = Steps::<L>::new(blank);
    list.get(i, &mut steps)
}

fn number<F: Fields>(list: &F, i: usize) -> u64
    requires { i < length (F.items list.now) }
    ensures { result ≡ slice_index (F.items list.now) i }
{
    read::<F, Brand>(list, i, Blank::new(1))
}

fn read_word<B: WordBank, L: Ledger>(bank: &B, i: usize, blank: Blank) -> u64
    requires blank { IsBlankOf L.Ledger blank }
    requires within { i < length (B.words_of bank.now) }
{
    let mut steps = Steps::<L>::new(blank);
    bank.word(i, &mut steps)
}

fn word<B: WordBank>(bank: &B, i: usize) -> u64
    requires { i < length (B.words_of bank.now) }
{
    read_word::<B, Brand>(bank, i, Blank::new(1))
}

#[test]
fn fields_across_words(rt: HostRuntime) -> Result<(), Fail> {
    let mut list = PackedBuf::zeroed(rt.alloc(), 3, 63)?;
    list.set(0, 5);
    list.set(1, 7);
    list.set(2, 9);
    assert_eq!(rt;
        list.words(),
        [0x8000_0000_0000_0005, 0x4000_0000_0000_0003, 2].as_slice()
    );
    list.set(1, 0);
    assert_eq!(rt; list.words(), [5, 0x4000_0000_0000_0000, 2].as_slice());
    assert_eq!(rt; (list.len(), list.width(), list.cost()), (3, 63, 2));
    assert_eq!(rt;
        (number(&list, 0), number(&list, 1), number(&list, 2)),
        (5, 0, 9)
    );
    Ok(())
}

#[test]
fn whole_words_and_none(rt: HostRuntime) -> Result<(), Fail> {
    let mut list = PackedBuf::zeroed(rt.alloc(), 2, 64)?;
    list.set(1, u64::MAX - 1);
    assert_eq!(rt; list.words(), [0, u64::MAX - 1].as_slice());
    assert_eq!(rt; number(&list, 1), u64::MAX - 1);
    let none = PackedBuf::zeroed(rt.alloc(), 1000, 0)?;
    assert_eq!(rt; none.words().len(), 0);
    assert_eq!(rt; (none.len(), number(&none, 999)), (1000, 0));
    Ok(())
}

#[test]
fn fields_of_a_section(rt: HostRuntime) -> Result<(), Fail> {
    let words = [2, 3, 13];
    let Ok(found) = list_check(&words, 0, 2, 2, 0, 64) else {
        assert!(rt; false);
        return Ok(());
    };
    assert_eq!(rt;
        (found.width, found.count, found.body, found.after),
        (3, 2, 2, 3)
    );
    let bank = WordsBuf::new(vec![in rt.alloc(); 2, 3, 13]?);
    assert_eq!(rt; (bank.words(), word(&bank, 2), word(&&bank, 1)), (3, 13, 3));
    let list = Packed::new(&bank, 2, 2, 3);
    assert_eq!(rt; (number(&list, 0), number(&list, 1)), (5, 1));
    let list = Packed::new(Words::new(&words), 2, 2, 3);
    assert_eq!(rt;
        (list.len(), list.width(), number(&list, 0), number(&list, 1)),
        (2, 3, 5, 1)
    );
    Ok(())
}

#[test]
fn failing_checks(rt: HostRuntime) -> Result<(), Fail> {
    for (words, least, most, high, check) in [
        (&[2, 3][..], 2, 2, 64, 11),
        (&[2][..], 2, 2, 64, 11),
        (&[2, 3, 13][..], 3, 3, 64, 12),
        (&[2, 3, 13][..], 0, 1, 64, 12),
        (&[2, 3, 13][..], 2, 2, 2, 13),
        (&[2, 3, 77][..], 2, 2, 64, 15),
    ] {
        assert_eq!(rt;
            list_check(words, 0, least, most, 0, high).err(),
            Some(check)
        );
    }
    Ok(())
}
