//! Tokens and first faults that were worked out by hand.

use super::*;
use std::test::Fail;

/// The tokens with their kinds and spans, worked out by hand.
#[test]
fn splits_into_longest_tokens(rt: HostRuntime) {
    let equals = Kind::Fixed(Sign::Mark(Mark::Equals));
    let less = Kind::Fixed(Sign::Operator(Op::Lt));
    let rows: [(&[u8], &[(Kind, u32, u32)]); 13] = [
        (b"", &[]),
        (b" \t\r\n#\xff & | \x00", &[]),
        (
            b"a &&b",
            &[
                (Kind::Name, 0, 1),
                (Kind::Fixed(Sign::Operator(Op::And)), 2, 4),
                (Kind::Name, 4, 5),
            ],
        ),
        (b"# in\n7#8", &[(Kind::Number(7), 5, 6)]),
        (b"007", &[(Kind::Number(7), 0, 3)]),
        (
            b"9223372036854775807",
            &[(Kind::Number(9223372036854775807), 0, 19)],
        ),
        (b"12ab", &[(Kind::Number(12), 0, 2), (Kind::Name, 2, 4)]),
        (b"in_ inn", &[(Kind::Name, 0, 3), (Kind::Name, 4, 7)]),
        (
            b"priority in",
            &[
                (Kind::Name, 0, 8),
                (Kind::Fixed(Sign::Keyword(Keyword::In)), 9, 11),
            ],
        ),
        (
            b"a[2]",
            &[
                (Kind::Name, 0, 1),
                (Kind::Fixed(Sign::Mark(Mark::OpenBracket)), 1, 2),
                (Kind::Number(2), 2, 3),
                (Kind::Fixed(Sign::Mark(Mark::CloseBracket)), 3, 4),
            ],
        ),
        (
            b"===",
            &[(Kind::Fixed(Sign::Operator(Op::Eq)), 0, 2), (equals, 2, 3)],
        ),
        (
            b"< =<=",
            &[
                (less, 0, 1),
                (equals, 2, 3),
                (Kind::Fixed(Sign::Operator(Op::Le)), 3, 5),
            ],
        ),
        (
            b"!!=|||| <>",
            &[
                (Kind::Fixed(Sign::Not), 0, 1),
                (Kind::Fixed(Sign::Operator(Op::Ne)), 1, 3),
                (Kind::Fixed(Sign::Operator(Op::Or)), 3, 5),
                (Kind::Fixed(Sign::Operator(Op::Or)), 5, 7),
                (less, 8, 9),
                (Kind::Fixed(Sign::Operator(Op::Gt)), 9, 10),
            ],
        ),
    ];
    for (row, (text, want)) in rows.iter().enumerate() {
        assert!(rt; text.len() < 100);
        let found = tokens(rt.alloc(), text).expect(&rt, "tokens");
        assert_eq!(rt; found.as_slice().len(), want.len(), "row {row}");
        for (token, (kind, start, end)) in found.as_slice().iter().zip(want.iter()) {
            assert_eq!(rt; token.kind, *kind, "row {row}");
            assert_eq!(rt; (token.start, token.end), (*start, *end), "row {row}");
        }
    }
}

/// The first faults, worked out by hand.
#[test]
fn names_the_first_fault(rt: HostRuntime) {
    let rows: [(&[u8], LexFault); 9] = [
        (b"a&b", LexFault::Bad(1)),
        (b"a |b", LexFault::Bad(2)),
        (b"&&&", LexFault::Bad(2)),
        (b"_a", LexFault::Bad(0)),
        (b"aB", LexFault::Bad(1)),
        (b"\x80", LexFault::Bad(0)),
        (b"a 9223372036854775808", LexFault::Number(2)),
        (
            b"1 00000000000000000000000000000018446744073709551616 $",
            LexFault::Number(2),
        ),
        (b"$ 9223372036854775808", LexFault::Bad(0)),
    ];
    for (text, want) in rows {
        assert!(rt; text.len() < 100);
        assert_eq!(rt; tokens(rt.alloc(), text).err(), Some(want));
    }
}

/// Names of 64 and of 65 bytes, behind a blank.
#[test]
fn bounds_names(rt: HostRuntime) {
    let mut text = [b'a'; 66];
    text[0] = b' ';
    let found = tokens(rt.alloc(), &text[..65]).expect(&rt, "tokens");
    assert_eq!(rt;
        found.as_slice().first().map(|t| (t.start, t.end)),
        Some((1, 65))
    );
    assert_eq!(rt; tokens(rt.alloc(), &text).err(), Some(LexFault::Name(1)));
}

#[test]
fn faults_show_their_names(rt: HostRuntime) -> Result<(), Fail> {
    let rows = [
        (LexFault::Bad(1), "Bad"),
        (LexFault::Number(2), "Number"),
        (LexFault::Name(3), "Name"),
        (LexFault::NoMemory, "NoMemory"),
    ];
    for (fault, shown) in rows {
        assert_eq!(rt; format!(in rt.alloc(); "{fault}")?.as_str(), shown);
    }
    Ok(())
}
