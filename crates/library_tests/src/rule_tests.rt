//! Tests of filters: their limits, and their faults.

use filter_rules::{RuleFault, read_rules};
use std::alloc::Global;
use std::test::Fail;
use tap_base::{Memory, Text};

// Returns how many rules the text has, or its fault.
fn rules_or_fault(alloc: Global, text: &[u8]) -> Result<usize, RuleFault> {
    match read_rules(alloc, text) {
        Ok(rules) => {
            let len = rules.len();
            drop(rules);
            Ok(len)
        }
        Err(fault) => Err(fault),
    }
}

// Adds that many rules to a text.
fn push_rules(text: &mut Text, n: usize) -> Result<(), Memory> {
    for _ in 0..n {
        text.push_slice(b"WHEN TRUE PRIORITY 1 CLASS 'a'\n")?;
    }
    Ok(())
}

// Returns how many rules a text of that many rules has, behind a comment, or its fault.
fn count_rules(alloc: Global, n: usize) -> Result<Result<usize, RuleFault>, Memory> {
    let mut text = Text::from_slice(alloc, b"# rules\n")?;
    let pushed = push_rules(&mut text, n);
    let found = rules_or_fault(alloc, text.as_slice());
    drop(text);
    match pushed {
        Ok(()) => Ok(found),
        Err(Memory) => Err(Memory),
    }
}

#[test]
fn a_filter_has_64_rules_at_most(rt: HostRuntime) -> Result<(), Fail> {
    let alloc = rt.alloc();
    assert_eq!(rt; count_rules(alloc, 64)?, Ok(64));
    assert_eq!(rt; count_rules(alloc, 65)?, Err(RuleFault::ManyRules));
    Ok(())
}

#[test]
fn each_fault_of_a_rule_has_its_place(rt: HostRuntime) -> Result<(), Fail> {
    let alloc = rt.alloc();
    let cases: [(&[u8], Result<usize, RuleFault>); 16] = [
        (b"".as_slice(), Ok(0)),
        (
            b"WHEN m.from = 'boss@x' PRIORITY 9 CLASS 'work'\n\
            WHEN m.words HAS 'lunch' PRIORITY 5 CLASS 'fun'\n",
            Ok(2),
        ),
        (
            b"\n# a comment\nwhen true priority 1000 class 'a.b-c_1'\n",
            Ok(1),
        ),
        (
            b"WHEN now < m.ts PRIORITY 1 CLASS 'a'\n",
            Err(RuleFault::Line {
                number: 1,
                place: 5,
            }),
        ),
        (
            b"WHEN today < m.ts PRIORITY 1 CLASS 'a'\n",
            Err(RuleFault::Line {
                number: 1,
                place: 5,
            }),
        ),
        (
            b"\n# one\nWHEN m.size = ; PRIORITY 1 CLASS 'a'\n",
            Err(RuleFault::Line {
                number: 3,
                place: 14,
            }),
        ),
        (
            b"IF TRUE PRIORITY 1 CLASS 'a'\n",
            Err(RuleFault::Line {
                number: 1,
                place: 0,
            }),
        ),
        (
            b"WHEN\n",
            Err(RuleFault::Line {
                number: 1,
                place: 4,
            }),
        ),
        (
            b"WHEN TRUE PRIORITY 'a' CLASS 'a'\n",
            Err(RuleFault::Line {
                number: 1,
                place: 32,
            }),
        ),
        (
            b"WHEN PRIORITY 1 CLASS 'a'\n",
            Err(RuleFault::Line {
                number: 1,
                place: 5,
            }),
        ),
        (
            b"WHEN m.size = PRIORITY 1 CLASS 'a'\n",
            Err(RuleFault::Line {
                number: 1,
                place: 14,
            }),
        ),
        (
            b"WHEN m.sise = 1 PRIORITY 1 CLASS 'a'\n",
            Err(RuleFault::Line {
                number: 1,
                place: 7,
            }),
        ),
        (
            b"WHEN EXISTS (r: DOC WHERE TRUE) PRIORITY 1 CLASS 'a'\n",
            Err(RuleFault::Line {
                number: 1,
                place: 5,
            }),
        ),
        (
            b"WHEN TRUE PRIORITY 1001 CLASS 'a'\n",
            Err(RuleFault::Line {
                number: 1,
                place: 19,
            }),
        ),
        (
            b"WHEN TRUE PRIORITY 1 CLASS 'A'\n",
            Err(RuleFault::Line {
                number: 1,
                place: 27,
            }),
        ),
        (
            b"WHEN TRUE PRIORITY 1 CLASS 'a'\r\nWHEN TRUE PRIORITY 1 CLASS 'a' 'b'\n",
            Err(RuleFault::Line {
                number: 2,
                place: 34,
            }),
        ),
    ];
    for (text, expected) in cases {
        assert_eq!(rt; rules_or_fault(alloc, text), expected);
    }
    Ok(())
}
