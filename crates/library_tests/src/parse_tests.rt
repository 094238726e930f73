//! Worked texts: their faults, their canonical texts, their limits and their copies.
use std::alloc::Global;
use std::test::*;
use tql_lex::{Kind, LexFault, Token, lex};
use tql_parse::{ParseFault, parse};
use tql_tree::{Tree, print};

// Says what reading a text comes to.
#[derive(Debug, PartialEq, Eq, Clone, Copy)]
enum Outcome {
    Fine,
    Byte(u32),
    Open(u32),
    Big(u32),
    Long(usize),
    Unexpected(u32),
    Ended,
    Deep(u32),
    Memory,
}

// Returns what parsing the tokens comes to.
fn parsed(alloc: Global, tokens: &[Token]) -> Outcome {
    match parse(alloc, tokens) {
        Ok(tree) => {
            drop(tree);
            Outcome::Fine
        }
        Err(ParseFault::Unexpected { place }) => Outcome::Unexpected(place),
        Err(ParseFault::Ended) => Outcome::Ended,
        Err(ParseFault::Deep { place }) => Outcome::Deep(place),
        Err(ParseFault::Memory) => Outcome::Memory,
    }
}

// Returns what reading the text comes to.
fn read(alloc: Global, text: &[u8]) -> Outcome {
    match lex(alloc, text) {
        Ok(tokens) => {
            let outcome = parsed(alloc, &tokens);
            drop(tokens);
            outcome
        }
        Err(LexFault::BadByte { place }) => Outcome::Byte(place),
        Err(LexFault::OpenString { place }) => Outcome::Open(place),
        Err(LexFault::BigNumber { place }) => Outcome::Big(place),
        Err(LexFault::TooLong { len }) => Outcome::Long(len),
        Err(LexFault::Memory) => Outcome::Memory,
    }
}

// Returns the tree of the text, if it has one.
fn tree_of(alloc: Global, text: &[u8]) -> Option<Tree> {
    match lex(alloc, text) {
        Ok(tokens) => {
            let tree = parse(alloc, &tokens).ok();
            drop(tokens);
            tree
        }
        Err(_) => None,
    }
}

// Returns whether this is the canonical text of the tree.
fn is_printed(alloc: Global, tree: &Tree, wanted: &[u8]) -> bool {
    match print(alloc, tree) {
        Ok(printed) => {
            let same = printed.as_slice() == wanted;
            drop(printed);
            same
        }
        Err(_) => false,
    }
}

// Returns whether the canonical text of this one is the wanted one.
fn canonical(alloc: Global, text: &[u8], wanted: &[u8]) -> bool {
    match tree_of(alloc, text) {
        Some(tree) => {
            let same = is_printed(alloc, &tree, wanted);
            drop(tree);
            same
        }
        None => false,
    }
}

// Returns whether a copy of the tree is printed so.
fn is_copy_printed(alloc: Global, tree: &Tree, wanted: &[u8]) -> bool {
    match tree.copy(alloc) {
        Ok(copy) => {
            let same = is_printed(alloc, &copy, wanted);
            drop(copy);
            same
        }
        Err(_) => false,
    }
}

// Returns whether a copy of the text's tree is printed so.
fn canonical_copy(alloc: Global, text: &[u8], wanted: &[u8]) -> bool {
    match tree_of(alloc, text) {
        Some(tree) => {
            let same = is_copy_printed(alloc, &tree, wanted);
            drop(tree);
            same
        }
        None => false,
    }
}

// Returns whether these are the same kinds of token.
fn are_same(one: &Kind, two: &Kind) -> bool {
    match (one, two) {
        (Kind::Word(a), Kind::Word(b)) => a == b,
        (Kind::Number(a), Kind::Number(b)) => a == b,
        (Kind::Str(a), Kind::Str(b)) => a == b,
        (Kind::Mark(a), Kind::Mark(b)) => a == b,
        _ => false,
    }
}

// Returns whether a copy of the token equals it.
fn is_copied(token: &Token) -> bool {
    match token.copy() {
        Ok(copy) => {
            let same = are_same(&copy.kind, &token.kind) && copy.end == token.end;
            drop(copy);
            same
        }
        Err(_) => false,
    }
}

// Returns whether a copy of the text's first token equals it.
fn copied_token(alloc: Global, text: &[u8]) -> bool {
    match lex(alloc, text) {
        Ok(tokens) => {
            let same = match tokens.first() {
                Some(token) => is_copied(token),
                None => false,
            };
            drop(tokens);
            same
        }
        Err(_) => false,
    }
}

#[test]
fn faults(rt: HostRuntime) {
    let alloc = rt.alloc();
    let table: [(&[u8], Outcome); 19] = [
        (b"m.size = ;", Outcome::Byte(9)),
        (b"m.words HAS 'a", Outcome::Open(12)),
        (b"m.size = 9223372036854775808", Outcome::Big(9)),
        (b"m.size = 9223372036854775807", Outcome::Fine),
        (b"m.size =", Outcome::Ended),
        (b"m.size = 1 1", Outcome::Unexpected(11)),
        (b"x.size = 1", Outcome::Fine),
        (b"m.words + 1 DAY HAS 'a'", Outcome::Unexpected(16)),
        (b"m.words + 1 DAY = 'a'", Outcome::Fine),
        (b"1x", Outcome::Unexpected(1)),
        (b"today.size = 1", Outcome::Unexpected(5)),
        (b"TODAY - 2 hours <= m.doc", Outcome::Fine),
        (b"(TRUE OR FALSE", Outcome::Ended),
        (b"EXISTS (a: DOC WHERE TRUE))", Outcome::Unexpected(26)),
        (b"", Outcome::Ended),
        (b"'a''b", Outcome::Open(0)),
        (b"m.size\r= 1", Outcome::Byte(6)),
        (b"= ;", Outcome::Byte(2)),
        (b"m.size =< 1", Outcome::Unexpected(8)),
    ];
    for (text, wanted) in &table {
        assert_eq!(rt; read(alloc, text), *wanted);
    }
}

#[test]
fn printed(rt: HostRuntime) {
    let alloc = rt.alloc();
    assert!(rt;
        canonical(
            alloc,
            b"not(m.size>=3 or true) and false",
            b"NOT (m.size >= 3 OR TRUE) AND FALSE"
        )
    );
    assert!(rt;
        canonical(
            alloc,
            b"exists(R:note where r.author='a''b')",
            b"EXISTS (r: NOTE WHERE r.author = 'a''b')"
        )
    );
    assert!(rt;
        canonical(
            alloc,
            b"m.size>-3 or(true or now-1 day<m.ts)",
            b"m.size > -3 OR (TRUE OR NOW - 1 DAYS < m.ts)"
        )
    );
}

// Adds a text that many times.
fn repeat(text: &mut Vec<u8>, part: &[u8], n: usize) -> Result<(), Fail> {
    for _ in 0..n {
        text.extend_from_slice(part)?;
    }
    Ok(())
}

// Adds a text behind that many of another.
fn push_behind(text: &mut Vec<u8>, part: &[u8], n: usize, last: &[u8]) -> Result<(), Fail> {
    repeat(text, part, n)?;
    text.extend_from_slice(last)?;
    Ok(())
}

// Returns what reading a text comes to that is these parts, the middle that many times.
fn read_parts(
    alloc: Global,
    first: &[u8],
    part: &[u8],
    n: usize,
    last: &[u8],
) -> Result<Outcome, Fail> {
    let mut text = Vec::from_slice(alloc, first)?;
    let pushed = push_behind(&mut text, part, n, last);
    let outcome = read(alloc, &text);
    drop(text);
    pushed?;
    Ok(outcome)
}

#[test]
fn levels(rt: HostRuntime) -> Result<(), Fail> {
    let alloc = rt.alloc();
    let deep = read_parts(alloc, b"", b"NOT ", 32, b"TRUE")?;
    assert_eq!(rt; deep, Outcome::Fine);
    let deeper = read_parts(alloc, b"", b"NOT ", 33, b"TRUE")?;
    assert_eq!(rt; deeper, Outcome::Deep(128));
    let long = read_parts(alloc, b"m.size=1", b" ", 4088, b"")?;
    assert_eq!(rt; long, Outcome::Fine);
    let longer = read_parts(alloc, b"m.size=1", b" ", 4089, b"")?;
    assert_eq!(rt; longer, Outcome::Long(4097));
    Ok(())
}

#[test]
fn copies(rt: HostRuntime) {
    let alloc = rt.alloc();
    assert!(rt; copied_token(alloc, b"m.size"));
    assert!(rt; copied_token(alloc, b"'it''s' = m.kind"));
    assert!(rt;
        canonical_copy(
            alloc,
            b"not(m.size>=3 or m.words has 'a') and exists(r:note where time'5'-1 day<today or \
            -1=now)",
            b"NOT (m.size >= 3 OR m.words HAS 'a') AND EXISTS (r: NOTE WHERE TIME '5' - 1 DAYS < \
            TODAY OR -1 = NOW)"
        )
    );
}
