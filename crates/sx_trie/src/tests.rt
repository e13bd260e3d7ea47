//! Small tries, the deepest one, and fattest numbers.

ghost use Rattle.std.specs.Prelude.{◌≡◌, ◌≤◌, IfOk, length};
ghost use Rattle.sx_trie.specs.Tries.{AreRising, IsTrieOf};

use crate::{Node, Trie, fattest};
use std::alloc::{AllocError, Global};
use std::test::Fail;
use sx_bits::{BitView, KeyList, Limits};

#[test]
fn finds_blocks(rt: HostRuntime) -> Result<(), Fail> {
    let mut keys = KeyList::new(rt.alloc(), Limits::standard());
    keys.push(b"a")?;
    keys.push(b"b")?;
    keys.push(b"c")?;
    keys.push(b"d")?;
    assert_eq!(rt; keys.len(), 4);
    let delimiters = [0, 1, 2];
    let trie = Trie::build(rt.alloc(), &keys, &delimiters)?;
    assert_eq!(rt; trie.nodes(), 2);
    let root = Node {
        extent: 6,
        first: 0,
        middle: 1,
        after: 3,
    };
    let second = Node {
        extent: 7,
        first: 1,
        middle: 2,
        after: 3,
    };
    assert_eq!(rt; trie.node(0), root);
    assert_eq!(rt; trie.node(1), second);
    assert_eq!(rt; trie.parent_extent(1), 6);
    assert_eq!(rt; trie.handle_len(1), 7);
    for i in 0..4 {
        let exit = trie.exit(&keys, &keys.view(i));
        assert_eq!(rt; trie.block(&exit), i);
    }
    Ok(())
}

#[test]
fn halves(rt: HostRuntime) -> Result<(), Fail> {
    let rows = [
        (0, 7, 4),
        (6, 7, 7),
        (4, 12, 8),
        (6, 16, 16),
        (6, 15, 8),
        (0, 65536, 65536),
    ];
    for (a, b, want) in rows {
        assert!(rt; a < b);
        assert_eq!(rt; fattest(a, b), want);
    }
    Ok(())
}

/// The trie of four of eight keys.
fn trie_of_words(alloc: Global, keys: &KeyList) -> Result<Trie, AllocError>
    requires many { 8 ≤ length keys.now.lines }
    ensures built { IfOk result (λ trie. IsTrieOf keys.now.lines trie) }
    ensures some { IfOk result (λ trie. length trie.delimiters ≡ 4) }
{
    Trie::build(alloc, keys, &[1, 3, 4, 7])
}

/// The trie of four of six keys.
fn trie_of_bytes(alloc: Global, keys: &KeyList) -> Result<Trie, AllocError>
    requires many { 6 ≤ length keys.now.lines }
    ensures built { IfOk result (λ trie. IsTrieOf keys.now.lines trie) }
    ensures some { IfOk result (λ trie. length trie.delimiters ≡ 4) }
{
    Trie::build(alloc, keys, &[0, 2, 3, 5])
}

#[test]
fn blocks_of_words(rt: HostRuntime) -> Result<(), Fail> {
    let mut keys = KeyList::new(rt.alloc(), Limits::standard());
    keys.push(b"ant")?;
    keys.push(b"antelope")?;
    keys.push(b"ape")?;
    keys.push(b"bat")?;
    keys.push(b"bee")?;
    keys.push(b"beetle")?;
    keys.push(b"cat")?;
    keys.push(b"cattle")?;
    assert_eq!(rt; keys.len(), 8);
    let trie = trie_of_words(rt.alloc(), &keys)?;
    assert_eq!(rt; trie.nodes(), 3);
    let rows: [(&[u8], u32); 11] = [
        (b"ant", 0),
        (b"antelope", 0),
        (b"ape", 1),
        (b"bat", 1),
        (b"bee", 2),
        (b"beetle", 3),
        (b"cat", 3),
        (b"cattle", 3),
        (b"aardvark", 0),
        (b"beech", 3),
        (b"dog", 4),
    ];
    for (line, want) in rows {
        assert!(rt; line.len() < 20);
        let exit = trie.exit(&keys, &BitView::key_bits(line));
        assert_eq!(rt; trie.block(&exit), want);
    }
    Ok(())
}

#[test]
fn blocks_of_any_bytes(rt: HostRuntime) -> Result<(), Fail> {
    let mut keys = KeyList::new(rt.alloc(), Limits::standard());
    keys.push(b"\x01")?;
    keys.push(b"\x7f")?;
    keys.push(b"\x7f\x01")?;
    keys.push(b"\x80")?;
    keys.push(b"\x80\x80")?;
    keys.push(b"\xff")?;
    assert_eq!(rt; keys.len(), 6);
    let trie = trie_of_bytes(rt.alloc(), &keys)?;
    assert_eq!(rt; trie.nodes(), 3);
    let rows: [(&[u8], u32); 8] = [
        (b"\x01", 0),
        (b"\x7f", 1),
        (b"\x7f\x01", 1),
        (b"\x80", 2),
        (b"\x80\x80", 3),
        (b"\xff", 3),
        (b"\x7f\x7f", 2),
        (b"\xff\xff", 4),
    ];
    for (line, want) in rows {
        assert!(rt; line.len() < 20);
        let exit = trie.exit(&keys, &BitView::key_bits(line));
        assert_eq!(rt; trie.block(&exit), want);
    }
    Ok(())
}

#[test]
fn the_deepest_trie(rt: HostRuntime) -> Result<(), Fail> {
    let keys = runs(rt.alloc(), 8191)?;
    let count = keys.len();
    assert_eq!(rt; count, 8191);
    let delimiters = numbers(rt.alloc(), &keys)?;
    let trie = Trie::build(rt.alloc(), &keys, &delimiters)?;
    assert_eq!(rt; trie.nodes(), 8190);
    for i in [0, 1, 2, 4095, 8189, 8190] {
        assert!(rt; i < count);
        let exit = trie.exit(&keys, &keys.view(i));
        assert_eq!(rt; trie.block(&exit), i);
    }
    let rows: [(&[u8], u32); 4] = [(b"A", 0), (b"aZ", 1), (b"aaab", 8191), (b"b", 8191)];
    for (line, want) in rows {
        assert!(rt; line.len() < 20);
        let exit = trie.exit(&keys, &BitView::key_bits(line));
        assert_eq!(rt; trie.block(&exit), want);
    }
    Ok(())
}

/// The keys `a`, `aa` and so on, up to so many bytes.
fn runs(alloc: Global, most: usize) -> Result<KeyList, Fail>
    requires { most ≤ 8191 }
{
    let mut keys = KeyList::new(alloc, Limits::standard());
    let mut line = Vec::with_capacity(alloc, most)?;
    for _ in 0..most {
        line.push(b'a')?;
        keys.push(&line)?;
    }
    Ok(keys)
}

/// The numbers of all keys.
fn numbers(alloc: Global, keys: &KeyList) -> Result<Vec<u32>, AllocError>
    ensures some { IfOk result (λ v. length v.items ≡ length keys.now.lines) }
    ensures rising { IfOk result (λ v. AreRising keys.now.lines v.items) }
{
    let mut numbers = Vec::new(alloc);
    for number in 0..keys.len() {
        numbers.push(number)?;
    }
    Ok(numbers)
}
