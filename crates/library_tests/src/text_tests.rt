//! Worked texts: their faults and their limits.
use std::alloc::Global;
use std::test::Fail;
use tql_lex::LexFault;
use tql_parse::ParseFault;
use tql_text::{TextFault, read_condition};
use tql_types::TypeFault;

// Returns the fault of the text, if it is no condition.
fn fault_of(alloc: Global, text: &[u8]) -> Option<TextFault> {
    match read_condition(alloc, text) {
        Ok(cond) => {
            drop(cond);
            None
        }
        Err(fault) => Some(fault),
    }
}

// Returns whether the text has this fault.
fn has_fault(alloc: Global, text: &[u8], fault: TextFault) -> bool {
    fault_of(alloc, text) == Some(fault)
}

// Returns whether the text is a condition.
fn is_condition(alloc: Global, text: &[u8]) -> bool {
    fault_of(alloc, text).is_none()
}

#[test]
fn each_fault_has_its_place(rt: HostRuntime) -> Result<(), Fail> {
    let alloc = rt.alloc();
    let types = TextFault::Types;
    let cases: [(&[u8], TextFault); 24] = [
        (
            b"m.size = ;".as_slice(),
            TextFault::Lex(LexFault::BadByte { place: 9 }),
        ),
        (
            b"m.words HAS 'a".as_slice(),
            TextFault::Lex(LexFault::OpenString { place: 12 }),
        ),
        (b"m.size =".as_slice(), TextFault::Parse(ParseFault::Ended)),
        (
            b"m.size = 1 1".as_slice(),
            TextFault::Parse(ParseFault::Unexpected { place: 11 }),
        ),
        (
            b"x.size = 1".as_slice(),
            types(TypeFault::NoVar { place: 0 }),
        ),
        (
            b"m.sise = 1".as_slice(),
            types(TypeFault::NoField { place: 2 }),
        ),
        (
            b"m.doc = 1".as_slice(),
            types(TypeFault::NoField { place: 2 }),
        ),
        (
            b"m.size = 'a'".as_slice(),
            types(TypeFault::Clash { place: 7 }),
        ),
        (
            b"m.from HAS 'a'".as_slice(),
            types(TypeFault::Clash { place: 7 }),
        ),
        (
            b"m.words HAS 1".as_slice(),
            types(TypeFault::Clash { place: 8 }),
        ),
        (
            b"now < today".as_slice(),
            types(TypeFault::Clash { place: 4 }),
        ),
        (
            b"m.words = 'a'".as_slice(),
            types(TypeFault::Clash { place: 8 }),
        ),
        (
            b"m.size + 1 DAY = 1".as_slice(),
            types(TypeFault::Clash { place: 7 }),
        ),
        (
            b"m.size + 100000000001 SECONDS = 1".as_slice(),
            types(TypeFault::Clash { place: 7 }),
        ),
        (
            b"m.size = x.ts".as_slice(),
            types(TypeFault::NoVar { place: 9 }),
        ),
        (
            b"EXISTS (m: DOC WHERE TRUE)".as_slice(),
            types(TypeFault::Shadow { place: 8 }),
        ),
        (
            b"now < TIME 'x'".as_slice(),
            types(TypeFault::BadTime { place: 11 }),
        ),
        (
            b"now < m.ts + 100000000001 SECONDS".as_slice(),
            types(TypeFault::BigSpan { place: 13 }),
        ),
        (
            b"now < m.ts + 9223372036854775807 DAYS".as_slice(),
            types(TypeFault::BigSpan { place: 13 }),
        ),
        (
            b"now < m.ts + 1157408 DAYS".as_slice(),
            types(TypeFault::BigSpan { place: 13 }),
        ),
        (
            b"EXISTS (a: NOTE WHERE a.size = 1)".as_slice(),
            types(TypeFault::NoField { place: 24 }),
        ),
        (
            b"EXISTS (a: NOTE WHERE TRUE) AND a.doc = 1".as_slice(),
            types(TypeFault::NoVar { place: 32 }),
        ),
        (
            b"x.size = 1 OR m.sise = 1".as_slice(),
            types(TypeFault::NoVar { place: 0 }),
        ),
        (
            b"TIME 'x' < x.ts".as_slice(),
            types(TypeFault::BadTime { place: 5 }),
        ),
    ];
    for (text, fault) in cases {
        assert!(rt; has_fault(alloc, text, fault), "{}", text.escape_ascii());
    }
    Ok(())
}

#[test]
fn limits_are_exact(rt: HostRuntime) -> Result<(), Fail> {
    let alloc = rt.alloc();
    assert!(rt;
        is_condition(
            alloc,
            b"EXISTS (a: DOC WHERE EXISTS (b: DOC WHERE EXISTS (c: DOC WHERE EXISTS (d: DOC WHERE \
            EXISTS (e: DOC WHERE TRUE)))))"
        )
    );
    assert!(rt;
        has_fault(
            alloc,
            b"EXISTS (a: DOC WHERE EXISTS (b: DOC WHERE EXISTS (c: DOC WHERE EXISTS (d: DOC WHERE \
            EXISTS (e: DOC WHERE EXISTS (f: DOC WHERE TRUE))))))",
            TextFault::Types(TypeFault::ManyVars { place: 113 }),
        )
    );
    assert!(rt; is_condition(alloc, b"now < m.ts + 100000000000 SECONDS"));
    assert!(rt; is_condition(alloc, b"now < m.ts + 1157407 DAYS"));
    Ok(())
}

// Adds a chain of 64 TRUEs, which has 127 nodes.
fn push_chain(text: &mut Vec<u8>) -> Result<(), Fail> {
    for _ in 0..63 {
        text.extend_from_slice(b"TRUE OR ")?;
    }
    text.extend_from_slice(b"TRUE")?;
    Ok(())
}

// Returns the fault of such a chain behind this front, if it is no condition.
fn chain_fault(alloc: Global, front: &[u8]) -> Result<Option<TextFault>, Fail> {
    let mut text = Vec::from_slice(alloc, front)?;
    let pushed = push_chain(&mut text);
    let fault = fault_of(alloc, &text);
    drop(text);
    pushed?;
    Ok(fault)
}

#[test]
fn a_condition_has_at_most_128_nodes(rt: HostRuntime) -> Result<(), Fail> {
    let alloc = rt.alloc();
    let too_many = Some(TextFault::Types(TypeFault::ManyNodes));
    assert!(rt; chain_fault(alloc, b"")?.is_none());
    assert!(rt; chain_fault(alloc, b"NOT ")?.is_none());
    assert!(rt; chain_fault(alloc, b"NOT NOT ")? == too_many);
    assert!(rt; chain_fault(alloc, b"TRUE OR ")? == too_many);
    Ok(())
}
