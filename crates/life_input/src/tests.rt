// Files of words, and their numbers or the offset of the word that is refused.
use crate::{InputFault, MOST_NUMBERS, read_numbers};
use std::alloc::Global;
use std::test::Fail;

const NUMBERS: &[(&str, &[i64])] = &[
    ("", &[]),
    (" \t\r\n", &[]),
    ("0", &[0]),
    ("-0 007 -007", &[0, 7, -7]),
    ("\n12\t-3\r\n4 ", &[12, -3, 4]),
    (
        "9223372036854775807 -9223372036854775808",
        &[i64::MAX, i64::MIN],
    ),
    ("000000000000000000000000000000000000001", &[1]),
];

const REFUSED: &[(&str, usize)] = &[
    ("-", 0),
    ("12 x", 3),
    ("12 - 3", 3),
    ("1 --2", 2),
    ("1 +2", 2),
    ("  5-", 2),
    ("1,2", 0),
    ("3 9223372036854775808", 2),
    ("3 -9223372036854775809 x", 2),
    ("99999999999999999999999999", 0),
    ("1\u{b}2", 0),
];

// So many words `1 `.
fn ones(alloc: Global, count: usize) -> Result<Vec<u8>, Fail> {
    let mut text = Vec::new(alloc);
    for _ in 0..count {
        text.extend_from_slice(b"1 ")?;
    }
    Ok(text)
}

#[test]
fn words_and_their_numbers(rt: HostRuntime) -> Result<(), Fail> {
    let alloc = rt.alloc();
    for (text, numbers) in NUMBERS {
        assert!(rt; text.len() < 100);
        let read = read_numbers(alloc, text.as_bytes())?;
        assert_eq!(rt; read.as_slice(), *numbers, "{text}");
    }
    for (text, offset) in REFUSED {
        assert!(rt; text.len() < 100);
        let read = read_numbers(alloc, text.as_bytes());
        let refused = matches!(read, Err(InputFault::Refused { offset: at }) if at == *offset);
        assert!(rt; refused, "{text}");
    }
    Ok(())
}

#[test]
fn as_many_numbers_as_may_be(rt: HostRuntime) -> Result<(), Fail> {
    let alloc = rt.alloc();
    let most = ones(alloc, MOST_NUMBERS)?;
    assert!(rt; most.len() < 1_000_000);
    assert_eq!(rt; read_numbers(alloc, &most)?.len(), MOST_NUMBERS);
    let more = ones(alloc, MOST_NUMBERS + 1)?;
    assert!(rt; more.len() < 1_000_000);
    let read = read_numbers(alloc, &more);
    let refused = matches!(read, Err(InputFault::Refused { offset: 131_072 }));
    assert!(rt; refused);
    Ok(())
}
