//! The corrections of a whole dump by the definition: keys of eight digits, of whose handles no bits are
//! kept, so that each place that the function answers is taken for a handle's.

ghost use Rattle.sx_steps.specs.Blanks.{IsBlankOf};

use crate::ranked_tests::{plan_of, ranked_keys};
use std::alloc::{AllocError, Global};
use std::marker::Brand;
use std::process::Abort;
use std::sync::ledger::{Blank, Ledger};
use std::test::Fail;
use sx_bits::{BitView, KeyList};
use sx_fields::bank::Words;
use sx_fields::fields::Fields;
use sx_fields::packed::Packed;
use sx_fields::section::list_check;
use sx_sig::{Kind, Signature, sign};
use sx_spec::Limits;
use sx_static::{FuncView, function_check};
use sx_steps::Steps;

/// How many keys there are, in blocks of four.
const KEYS: u32 = 200;

/// How many delimiters: the last key of each block but the last one.
const DELIMITERS: u32 = 49;

/// How many bits a key has, with the zero byte behind it.
const BITS: u32 = 72;

/// An inner node of the trie of the delimiters, with the length of its handle; the root has none.
#[derive(Clone, Copy, PartialEq, Eq, PartialOrd, Ord, Debug)]
struct Inner {
    first: u32,
    extent: u32,
    middle: u32,
    after: u32,
    handle: u32,
}

/// For each length of a prefix the node that is answered, or 0 for none: the root has no handle.
type Answers = [u32; 73];

/// Where a search ended, and which lengths it asked.
#[derive(Clone, Copy)]
struct Found {
    node: u32,
    asked: [bool; 73],
}

/// The last decimal digit of a number.
fn digit(number: u32) -> u8 {
    b'0' + (number % 10) as u8
}

/// The key of a number below 1,000.
fn key(number: u32) -> [u8; 8] {
    let zero = b'0';
    [
        zero,
        zero,
        zero,
        zero,
        zero,
        digit(number / 100),
        digit(number / 10),
        digit(number),
    ]
}

/// The bits of this key, as a number.
fn bits(number: u32) -> u128 {
    u128::from(u64::from_be_bytes(key(number))) << 8
}

/// The bits of the last key of a block.
fn delimiter(block: u32) -> u128 {
    bits(block.wrapping_mul(4).wrapping_add(3))
}

/// The first bits of a string, as a number.
fn front(string: u128, len: u32) -> u128 {
    string >> (BITS - len.min(BITS))
}

/// Whether two strings begin with the same bits.
fn share(one: u128, other: u128, len: u32) -> bool {
    front(one, len) == front(other, len)
}

/// With how many bits two strings begin alike.
fn common(one: u128, other: u128) -> u32 {
    (one ^ other).leading_zeros().saturating_sub(56)
}

/// The number above `low` and up to `high` that two divides most often.
fn fattest_of(low: u32, high: u32) -> u32 {
    let mut best = high;
    for before in low..high {
        let number = before + 1;
        if number.trailing_zeros() > best.trailing_zeros() {
            best = number;
        }
    }
    best
}

/// How long the extent of the inner node between a delimiter and the next one is.
fn extent_between(left: u32) -> u32 {
    common(delimiter(left), delimiter(left.wrapping_add(1)))
}

/// The length of the handle of the node between a delimiter and the next one: the fattest number
/// above the longest extent that is a proper prefix of its own.
fn handle_between(left: u32) -> u32 {
    let extent = extent_between(left);
    let mut parent = None;
    for other in 0..DELIMITERS - 1 {
        let above = extent_between(other);
        if above < extent && share(delimiter(other), delimiter(left), above) {
            parent = parent.max(Some(above));
        }
    }
    match parent {
        Some(above) => fattest_of(above, extent),
        None => 0,
    }
}

/// The inner node between a delimiter and the next one: those under it begin with its extent.
fn inner_between(left: u32) -> Inner {
    let extent = extent_between(left);
    let mut first = DELIMITERS;
    let mut after = 0;
    for i in 0..DELIMITERS {
        if share(delimiter(i), delimiter(left), extent) {
            first = first.min(i);
            after = i + 1;
        }
    }
    Inner {
        first,
        extent,
        middle: left.wrapping_add(1),
        after,
        handle: handle_between(left),
    }
}

/// The inner nodes in preorder.
fn inner_nodes(alloc: Global) -> Result<Vec<Inner>, AllocError> {
    let mut nodes = Vec::new(alloc);
    for left in 0..DELIMITERS - 1 {
        nodes.push(inner_between(left))?;
    }
    nodes.sort_unstable();
    Ok(nodes)
}

/// Node `i`, or an empty one where there is none.
fn inner_at(nodes: &[Inner], i: u32) -> Inner {
    match nodes.get(i as usize) {
        Some(node) => *node,
        None => Inner {
            first: 0,
            extent: 0,
            middle: 0,
            after: 0,
            handle: 0,
        },
    }
}

/// Whether a node has a handle, and a string begins with it.
fn is_handled(node: &Inner, string: u128) -> bool {
    node.handle > 0 && share(delimiter(node.first), string, node.handle)
}

/// What a search is told that knows each handle and nothing else.
fn true_answers(nodes: &[Inner], string: u128) -> Answers {
    let mut answers = [0; 73];
    for i in 0..DELIMITERS - 1 {
        let node = inner_at(nodes, i);
        if is_handled(&node, string) {
            if let Some(answer) = answers.get_mut(node.handle as usize) {
                *answer = i;
            }
        }
    }
    answers
}

/// The deepest node with whose handle a string begins, or the root.
fn deepest(nodes: &[Inner], string: u128) -> u32 {
    let mut best = 0;
    for i in 0..DELIMITERS - 1 {
        let node = inner_at(nodes, i);
        if is_handled(&node, string) && node.extent > inner_at(nodes, best).extent {
            best = i;
        }
    }
    best
}

/// The place that the function answers the first bits of a string, where there is one.
fn place_of<L: Ledger>(
    handles: &FuncView<Words<'_>>,
    view: &BitView<'_>,
    len: u32,
    steps: &mut Steps<L>,
) -> Option<u32> {
    if len > view.len() {
        return None;
    }
    let place = handles.answer(&sign(0, &view.prefix(len), None, 192), steps);
    if place < 47 { Some(place as u32) } else { None }
}

/// What a search is told by the function of the handles, of whose signatures no bits are compared.
fn told_answers<L: Ledger>(
    nodes: &[Inner],
    handles: &FuncView<Words<'_>>,
    view: &BitView<'_>,
    steps: &mut Steps<L>,
) -> Answers {
    let mut answers = [0; 73];
    for len in 0..73u32 {
        if let Some(place) = place_of(handles, view, len, steps) {
            let node = place.wrapping_add(1);
            if inner_at(nodes, node).extent >= len {
                answers[len as usize] = node;
            }
        }
    }
    answers
}

/// The search of a string that is told these answers.
fn search(nodes: &[Inner], answers: &Answers) -> Found {
    let mut found = Found {
        node: 0,
        asked: [false; 73],
    };
    let mut limit = BITS;
    // each turn leaves fewer lengths
    for _ in 0..BITS {
        let extent = inner_at(nodes, found.node).extent;
        if extent < limit {
            let len = fattest_of(extent, limit);
            if let Some(asked) = found.asked.get_mut(len as usize) {
                *asked = true;
            }
            match answers.get(len as usize) {
                Some(node) if *node > 0 => found.node = *node,
                _ => limit = len.saturating_sub(1),
            }
        }
    }
    found
}

/// The leaves of the child that a string's next bit names: the first, and the one after the last.
fn child(node: &Inner, string: u128) -> (u32, u32) {
    if front(string, node.extent.wrapping_add(1)) % 2 == 1 {
        (node.middle, node.after)
    } else {
        (node.first, node.middle)
    }
}

/// The code of a string at the node at which its true search ends.
fn code(node: &Inner, string: u128) -> u64 {
    let extent = front(delimiter(node.first), node.extent);
    let start = front(string, node.extent);
    if start != extent {
        return if start < extent { 0 } else { 1 };
    }
    let (first, after) = child(node, string);
    for i in first..after {
        if delimiter(i) < string {
            return 3;
        }
    }
    2
}

/// The block that a code names at a node.
fn block(node: &Inner, code: u64, string: u128) -> u32 {
    match code {
        0 => node.first,
        1 => node.after,
        2 => child(node, string).0,
        _ => child(node, string).1,
    }
}

/// Whether the true search asks a length at which no node has the handle, and a node is answered.
fn has_false_probe(asked: &[bool; 73], right: &Answers, told: &Answers) -> bool {
    for len in 0..73usize {
        if asked[len] && right[len] == 0 && told[len] > 0 {
            return true;
        }
    }
    false
}

/// The function whose section begins at a word, and the word after it.
fn function_at(words: &[u64], at: usize) -> Option<(FuncView<Words<'_>>, usize)> {
    if at > words.len() {
        return None;
    }
    match function_check(words, at, 0, 200, 0, 32) {
        Ok(section) => Some((
            FuncView::new(
                Words::new(words),
                section.body,
                section.width,
                section.count as u32,
            ),
            section.after,
        )),
        Err(_) => None,
    }
}

/// The list whose section begins at a word, and the word after it.
fn list_at(words: &[u64], at: usize) -> Option<(Packed<Words<'_>>, usize)> {
    if at > words.len() {
        return None;
    }
    match list_check(words, at, 0, 200, 0, 32) {
        Ok(section) => Some((
            Packed::new(
                Words::new(words),
                section.body,
                section.count as usize,
                section.width,
            ),
            section.after,
        )),
        Err(_) => None,
    }
}

/// Number `i` of a list, where it has as many.
fn number_at<L: Ledger>(list: &Packed<Words<'_>>, i: usize, steps: &mut Steps<L>) -> Option<u64> {
    if i < list.len() {
        Some(list.read(i, steps))
    } else {
        None
    }
}

/// What a dump keeps of the kind, and the word at which its corrections begin.
#[derive(Clone, Copy)]
struct Kept<'a> {
    extents: Packed<Words<'a>>,
    firsts: Packed<Words<'a>>,
    middles: Packed<Words<'a>>,
    afters: Packed<Words<'a>>,
    handles: FuncView<Words<'a>>,
    marks: Packed<Words<'a>>,
    codes: FuncView<Words<'a>>,
    corrections: usize,
}

/// The sections of a dump up to its corrections.
fn kept_in(words: &[u64]) -> Option<Kept<'_>> {
    let (_, at) = function_at(words, 10)?;
    let (extents, at) = list_at(words, at)?;
    let (firsts, at) = list_at(words, at)?;
    let (middles, at) = list_at(words, at)?;
    let (afters, at) = list_at(words, at)?;
    let (handles, at) = function_at(words, at)?;
    let (marks, at) = list_at(words, at)?;
    let (codes, at) = function_at(words, at)?;
    Some(Kept {
        extents,
        firsts,
        middles,
        afters,
        handles,
        marks,
        codes,
        corrections: at,
    })
}

/// Whether node `i` stands in the lists.
fn is_listed<L: Ledger>(kept: &Kept<'_>, i: usize, node: &Inner, steps: &mut Steps<L>) -> bool {
    number_at(&kept.extents, i, steps) == Some(u64::from(node.extent))
        && number_at(&kept.firsts, i, steps) == Some(u64::from(node.first))
        && number_at(&kept.middles, i, steps) == Some(u64::from(node.middle))
        && number_at(&kept.afters, i, steps) == Some(u64::from(node.after))
}

/// The nodes of the delimiters, which are those of the dump.
fn listed_nodes<L: Ledger>(
    rt: &(impl Abort + AllocGlobal),
    kept: &Kept<'_>,
    steps: &mut Steps<L>,
) -> Result<Vec<Inner>, Fail> {
    let nodes = inner_nodes(rt.alloc())?;
    assert_eq!(rt; (kept.extents.len(), nodes.len()), (48, 48));
    assert_eq!(rt; (kept.marks.len(), kept.marks.width()), (47, 0));
    for (i, node) in nodes.iter().enumerate() {
        assert!(rt; is_listed(kept, i, node, steps), "node {i}");
    }
    Ok(nodes)
}

/// The signature of a key and its block, where the dump's search and its code give another one.
fn correction<L: Ledger>(
    rt: &(impl Abort + AllocGlobal),
    keys: &KeyList,
    nodes: &[Inner],
    kept: &Kept<'_>,
    number: u32,
    steps: &mut Steps<L>,
) -> Option<(Signature, u32)> {
    assert!(rt; number < keys.len());
    let view = keys.view(number);
    let string = bits(number);
    let sig = sign(0, &view, None, 192);
    let right = true_answers(nodes, string);
    let truly = search(nodes, &right);
    assert_eq!(rt; truly.node, deepest(nodes, string));
    let code = code(&inner_at(nodes, truly.node), string);
    assert_eq!(rt; kept.codes.answer(&sig, steps), code);
    assert_eq!(rt;
        block(&inner_at(nodes, truly.node), code, string),
        number / 4
    );
    let told = told_answers(nodes, &kept.handles, &view, steps);
    let reached = search(nodes, &told).node;
    if block(&inner_at(nodes, reached), code, string) == number / 4 {
        return None;
    }
    assert!(rt;
        has_false_probe(&truly.asked, &right, &told),
        "key {number}"
    );
    Some((sig, number / 4))
}

/// The signatures of the keys that are misled, with their blocks, in rising order.
fn misled<L: Ledger>(
    rt: &(impl Abort + AllocGlobal),
    keys: &KeyList,
    kept: &Kept<'_>,
    steps: &mut Steps<L>,
) -> Result<Vec<(Signature, u32)>, Fail> {
    let nodes = listed_nodes(rt, kept, steps)?;
    let mut entries = Vec::new(rt.alloc());
    for number in 0..KEYS {
        if let Some(entry) = correction(rt, keys, &nodes, kept, number, steps) {
            entries.push(entry)?;
        }
    }
    entries.sort_unstable();
    Ok(entries)
}

/// Each correction of a dump is one of a key that is misled, and each such key has one.
fn compared_under<L: Ledger>(
    rt: &(impl Abort + AllocGlobal),
    keys: &KeyList,
    words: &[u64],
    blank: Blank,
) -> Result<(), Fail>
    requires { IsBlankOf L.Ledger blank }
{
    let mut steps = Steps::<L>::new(blank);
    let kept = kept_in(words).ok_or("a section is none")?;
    let entries = misled(rt, keys, &kept, &mut steps)?;
    assert!(rt; !entries.is_empty());
    assert!(rt; entries.len() < KEYS as usize);
    let mut want = vec![in rt.alloc(); entries.len() as u64]?;
    for entry in &entries {
        want.extend_from_slice(&[entry.0.w0, entry.0.w1, entry.0.w2])?;
    }
    let rest = words.get(kept.corrections..).ok_or("no corrections")?;
    assert!(rt; rest.starts_with(&want));
    let at = kept.corrections.saturating_add(want.len());
    let (blocks, after) = list_at(words, at).ok_or("no blocks")?;
    assert_eq!(rt; (blocks.len(), after), (entries.len(), words.len()));
    for (i, entry) in entries.iter().enumerate() {
        assert_eq!(rt; number_at(&blocks, i, &mut steps), Some(u64::from(entry.1)));
    }
    Ok(())
}

/// The same under a fresh count of steps.
fn compared(rt: &(impl Abort + AllocGlobal), keys: &KeyList, words: &[u64]) -> Result<(), Fail> {
    compared_under::<Brand>(rt, keys, words, Blank::new(1))
}

/// The keys `00000000` to `00000199`.
fn two_hundred_keys(rt: &(impl Abort + AllocGlobal)) -> Result<KeyList, Fail> {
    let mut keys = KeyList::new(rt.alloc(), Limits::standard());
    for number in 0..KEYS {
        let line = key(number);
        assert!(rt; line.len() <= 8191);
        assert!(rt; matches!(keys.push(&line), Ok(())));
    }
    Ok(keys)
}

#[test]
fn corrections_by_the_definition(rt: HostRuntime) -> Result<(), Fail> {
    let keys = two_hundred_keys(&rt)?;
    let words = ranked_keys(&rt, &plan_of(Kind::Zfast, 2), &keys)?;
    compared(&rt, &keys, &words)
}
