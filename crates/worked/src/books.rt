// Books at the edges of every condition.
use crate::drafts::{self, Draft, all_of_marks, leaf, node, outcome, outcome_of, unknown, window};
use line::{follow_line, refusal_line, run_line};
use rule::{Kind, Layer, Refusal, Rule};
use std::test::Fail;
use trace::Followed;
use watch::Verdict;

const TOP: u64 = 1_000_000_000_000;

// A book that is refused with this number, at this record.
fn refused(number: u8, record: u16) -> Result<u16, Refusal> {
    drafts::refused(number, Layer::Book, record)
}

#[test]
fn lengths(rt: HostRuntime) {
    let mut book = [0u8; 1560];
    book[24] = 1;
    assert_eq!(rt; outcome(&book[0..0]), refused(1, 0));
    assert_eq!(rt; outcome(&book[0..24]), refused(1, 0));
    assert_eq!(rt; outcome(&book[0..47]), refused(1, 0));
    assert_eq!(rt; outcome(&book[0..48]), Ok(1));
    assert_eq!(rt; outcome(&book[0..49]), refused(1, 0));
    assert_eq!(rt; outcome(&book), refused(1, 0));
}

#[test]
fn a_full_book(rt: HostRuntime) {
    assert_eq!(rt; outcome_of(&all_of_marks(|_| 5)), Ok(63));
}

#[test]
fn kinds(rt: HostRuntime) {
    assert_eq!(rt; outcome_of(&[unknown(0)]), refused(2, 1));
    assert_eq!(rt; outcome_of(&[unknown(10)]), refused(2, 1));
    assert_eq!(rt;
        outcome_of(&[node(Kind::Next, 2, 0), unknown(255)]),
        refused(2, 2)
    );
    let mut book = [0u8; 48];
    book[24] = 1;
    book[23] = 1;
    assert_eq!(rt; outcome(&book), refused(2, 0));
    // a kind that is not known comes before a field that is out of range
    assert_eq!(rt;
        outcome_of(&[leaf(Kind::Mark, 32, 2), unknown(0)]),
        refused(2, 2)
    );
}

#[test]
fn fields(rt: HostRuntime) {
    assert_eq!(rt; outcome_of(&[leaf(Kind::Mark, 31, 0)]), Ok(1));
    assert_eq!(rt; outcome_of(&[leaf(Kind::NotMark, 31, 0)]), Ok(1));
    assert_eq!(rt; outcome_of(&[leaf(Kind::Mark, 32, 0)]), refused(3, 1));
    assert_eq!(rt;
        outcome_of(&[Draft {
            zero: 1,
            ..leaf(Kind::Mark, 0, 0)
        }],),
        refused(3, 1)
    );
    assert_eq!(rt;
        outcome_of(&[Draft {
            clock: 1,
            ..leaf(Kind::Mark, 0, 0)
        }],),
        refused(3, 1)
    );
    assert_eq!(rt;
        outcome_of(&[Draft {
            lower: 1,
            upper: 1,
            ..leaf(Kind::Mark, 0, 0)
        }],),
        refused(3, 1)
    );
    assert_eq!(rt;
        outcome_of(&[node(Kind::Mark, 2, 0), leaf(Kind::Mark, 0, 0)]),
        refused(3, 1)
    );
    assert_eq!(rt;
        outcome_of(&[
            Draft {
                clock: 7,
                ..window(Kind::Eventually, 2, 0, 0, 5)
            },
            leaf(Kind::Mark, 0, 0),
        ],),
        Ok(2)
    );
    assert_eq!(rt;
        outcome_of(&[
            Draft {
                clock: 8,
                ..window(Kind::Eventually, 2, 0, 0, 5)
            },
            leaf(Kind::Mark, 0, 0),
        ],),
        refused(3, 1)
    );
    assert_eq!(rt;
        outcome_of(&[
            Draft {
                mark: 1,
                ..window(Kind::Eventually, 2, 0, 0, 5)
            },
            leaf(Kind::Mark, 0, 0),
        ],),
        refused(3, 1)
    );
    assert_eq!(rt;
        outcome_of(&[
            Draft {
                upper: 1,
                ..node(Kind::Next, 2, 0)
            },
            leaf(Kind::Mark, 0, 0),
        ],),
        refused(3, 1)
    );
}

#[test]
fn windows(rt: HostRuntime) {
    assert_eq!(rt;
        outcome_of(&[window(Kind::Eventually, 2, 0, 7, 7), leaf(Kind::Mark, 0, 0)]),
        Ok(2)
    );
    assert_eq!(rt;
        outcome_of(&[window(Kind::Eventually, 2, 0, 8, 7), leaf(Kind::Mark, 0, 0)]),
        refused(4, 1)
    );
    assert_eq!(rt;
        outcome_of(&[
            window(Kind::Eventually, 2, 0, TOP, TOP),
            leaf(Kind::Mark, 0, 0)
        ]),
        Ok(2)
    );
    assert_eq!(rt;
        outcome_of(&[
            window(Kind::Eventually, 2, 0, 0, TOP + 1),
            leaf(Kind::Mark, 0, 0)
        ]),
        refused(4, 1)
    );
}

#[test]
fn links(rt: HostRuntime) {
    // to itself, back, past the end, and never named
    assert_eq!(rt;
        outcome_of(&[node(Kind::Next, 1, 0), leaf(Kind::Mark, 0, 0)]),
        refused(5, 1)
    );
    assert_eq!(rt;
        outcome_of(&[node(Kind::Next, 2, 0), node(Kind::Next, 1, 0)]),
        refused(5, 2)
    );
    assert_eq!(rt;
        outcome_of(&[node(Kind::Next, 3, 0), leaf(Kind::Mark, 0, 0)]),
        refused(5, 1)
    );
    assert_eq!(rt;
        outcome_of(&[leaf(Kind::Mark, 0, 0), leaf(Kind::Mark, 0, 0)]),
        refused(5, 2)
    );
    // named twice, and the root in a chain
    assert_eq!(rt;
        outcome_of(&[
            node(Kind::All, 2, 0),
            node(Kind::Next, 3, 3),
            leaf(Kind::Mark, 0, 0)
        ]),
        refused(5, 3)
    );
    assert_eq!(rt;
        outcome_of(&[leaf(Kind::Mark, 0, 2), leaf(Kind::Mark, 0, 0)]),
        refused(5, 1)
    );
}

#[test]
fn operands(rt: HostRuntime) {
    assert_eq!(rt; outcome_of(&[node(Kind::Next, 0, 0)]), refused(6, 1));
    assert_eq!(rt;
        outcome_of(&[
            node(Kind::Next, 2, 0),
            leaf(Kind::Mark, 0, 3),
            leaf(Kind::Mark, 0, 0)
        ]),
        refused(6, 1)
    );
    assert_eq!(rt;
        outcome_of(&[node(Kind::All, 2, 0), leaf(Kind::Mark, 0, 0)]),
        refused(6, 1)
    );
    assert_eq!(rt;
        outcome_of(&[
            node(Kind::All, 2, 0),
            leaf(Kind::Mark, 0, 3),
            leaf(Kind::Mark, 0, 0)
        ]),
        Ok(3)
    );
    assert_eq!(rt;
        outcome_of(&[window(Kind::Until, 2, 0, 3, 5), leaf(Kind::Mark, 0, 0)]),
        refused(6, 1)
    );
    assert_eq!(rt;
        outcome_of(&[
            window(Kind::Until, 2, 0, 3, 5),
            leaf(Kind::Mark, 0, 3),
            leaf(Kind::Mark, 1, 0)
        ]),
        Ok(3)
    );
    assert_eq!(rt;
        outcome_of(&[
            window(Kind::Until, 2, 0, 3, 5),
            leaf(Kind::Mark, 0, 3),
            leaf(Kind::Mark, 1, 4),
            leaf(Kind::Mark, 1, 0),
        ],),
        refused(6, 1)
    );
    assert_eq!(rt;
        outcome_of(&[window(Kind::Eventually, 0, 0, 3, 5)]),
        refused(6, 1)
    );
}

#[test]
fn there_and_back(rt: HostRuntime) {
    let records = [
        [0; 24],
        window(Kind::Until, 2, 0, 3, 5).bytes(),
        leaf(Kind::Mark, 0, 3).bytes(),
        leaf(Kind::NotMark, 31, 0).bytes(),
    ];
    let book = records.as_flattened();
    let mut rule = Rule::new();
    assert_eq!(rt; rule.load(book), Ok(3));
    // a refused book changes nothing
    assert!(rt; rule.load(&book[0..95]).is_err());
    let mut out = [7u8; 97];
    assert!(rt; rule.write(&mut out[0..95]).is_err());
    assert_eq!(rt; &out[0..95], [7u8; 95].as_slice());
    assert_eq!(rt; rule.write(&mut out), Ok(96));
    assert_eq!(rt; &out[0..96], book);
    assert_eq!(rt; out[96], 7);
}

#[test]
fn line_of_a_refusal(rt: HostRuntime) {
    let refusal = Refusal {
        number: 9,
        layer: Layer::Watch,
        record: 511,
    };
    let mut buf = [7u8; 34];
    assert!(rt; refusal_line(refusal, &mut buf[0..32]).is_err());
    assert!(rt; buf[0] == 7 && buf[31] == 7);
    assert_eq!(rt; refusal_line(refusal, &mut buf), Ok(33));
    assert_eq!(rt; &buf, b"refused=9 layer=watch record=511\n\x07");
}

#[test]
fn line_of_an_answer(rt: HostRuntime) {
    let followed = Followed {
        verdict: Verdict::Undecided,
        cells: 4_294_967_295,
        records: 2048,
    };
    let mut buf = [7u8; 49];
    assert!(rt; follow_line(Ok(followed), &mut buf[0..47]).is_err());
    assert!(rt; buf[0] == 7 && buf[46] == 7);
    assert_eq!(rt; follow_line(Ok(followed), &mut buf), Ok(48));
    assert_eq!(rt;
        &buf,
        b"verdict=undecided records=2048 cells=4294967295\n\x07"
    );
}

#[test]
fn names_are_printed(rt: HostRuntime) -> Result<(), Fail> {
    let (layer, verdict) = (Layer::Trace, Verdict::True);
    let printed = format!(in rt.alloc(); "{layer} {verdict:>6}")?;
    assert_eq!(rt; printed.as_str(), "trace   true");
    Ok(())
}

#[test]
fn line_of_a_book(rt: HostRuntime) {
    let mut buf = [7u8; 31];
    assert_eq!(rt; run_line(&[0; 48], &[], &mut buf), Ok(30));
    assert_eq!(rt; &buf, b"refused=2 layer=book record=1\n\x07");
}
