// Watches driven at the edges: the cell limit, clocks, calls after a verdict, the deepest and the widest rules.
use crate::drafts::{Draft, all_of_marks, book_of, leaf, node, window};
use gauge::{Gauge, Sum};
use rule::{Kind, Rule};
use watch::{Answer, Call, Verdict, Watch, WatchFault, drive};

const LONG: u64 = 1_000_000;

// The rule of these records; a rule of mark 0 where they are refused.
fn rule_of(drafts: &[Draft]) -> Rule {
    let mut rule = Rule::new();
    let _ = rule.load(&book_of(drafts));
    rule
}

pub fn watch_of(drafts: &[Draft]) -> Watch<Sum> {
    Watch::start(rule_of(drafts), Sum)
}

// Observes the marks so many times, and counts the answers.
fn observe_times<G: Gauge>(watch: &mut Watch<G>, marks: u32, times: u32) -> usize {
    (0..times).filter(|_| watch.observe(marks).is_ok()).count()
}

fn answer(verdict: Verdict, cells: u32) -> Answer {
    Answer { verdict, cells }
}

#[test]
fn the_cell_limit(rt: HostRuntime) {
    let mut watch = watch_of(&[
        window(Kind::Always, 2, 0, 0, LONG),
        window(Kind::Eventually, 3, 0, 0, LONG),
        leaf(Kind::Mark, 0, 0),
    ]);
    assert_eq!(rt; observe_times(&mut watch, 0, 511), 511);
    assert_eq!(rt; watch.report(), answer(Verdict::Undecided, 1023));
    assert_eq!(rt; watch.observe(0), Err(WatchFault::Cells { cells: 1025 }));
    assert_eq!(rt; watch.report(), answer(Verdict::Undecided, 1023));
    // what was refused left nothing behind: the mark answers every open window
    assert_eq!(rt; watch.observe(1), Ok(answer(Verdict::Undecided, 1)));
}

#[test]
fn beyond_the_limit_inside_a_pass(rt: HostRuntime) {
    // any of: always both of two windows on mark 0; a window on mark 1
    let mut watch = watch_of(&[
        node(Kind::Any, 2, 0),
        window(Kind::Always, 3, 7, 0, LONG),
        node(Kind::All, 4, 0),
        window(Kind::Eventually, 6, 5, 0, LONG),
        window(Kind::Eventually, 8, 0, 0, LONG),
        leaf(Kind::Mark, 0, 0),
        window(Kind::Eventually, 9, 0, 0, LONG),
        leaf(Kind::Mark, 0, 0),
        leaf(Kind::Mark, 1, 0),
    ]);
    assert_eq!(rt; observe_times(&mut watch, 0, 255), 255);
    assert_eq!(rt; watch.report(), answer(Verdict::Undecided, 1023));
    assert_eq!(rt; watch.observe(0), Err(WatchFault::Cells { cells: 1027 }));
    // mark 1 settles the rule after more than 1,024 cells were counted on the way
    assert_eq!(rt; watch.observe(2), Ok(answer(Verdict::True, 0)));
}

#[test]
fn clocks(rt: HostRuntime) {
    let mut watch = watch_of(&[
        Draft {
            clock: 7,
            ..window(Kind::Eventually, 2, 0, 0, 5)
        },
        leaf(Kind::Mark, 0, 0),
    ]);
    assert_eq!(rt; watch.observe(0), Ok(answer(Verdict::Undecided, 1)));
    assert_eq!(rt; watch.advance(8, 9), Err(WatchFault::Clock { clock: 8 }));
    assert_eq!(rt;
        watch.advance(255, 9),
        Err(WatchFault::Clock { clock: 255 })
    );
    assert_eq!(rt; watch.advance(6, 9), Ok(answer(Verdict::Undecided, 1)));
    assert_eq!(rt; watch.advance(7, 5), Ok(answer(Verdict::Undecided, 1)));
    assert_eq!(rt; watch.advance(7, 1), Ok(answer(Verdict::False, 0)));
    // after a verdict the calls are still accepted, or refused as before
    assert_eq!(rt; watch.observe(1), Ok(answer(Verdict::False, 0)));
    assert_eq!(rt; watch.advance(8, 9), Err(WatchFault::Clock { clock: 8 }));
    assert_eq!(rt; watch.report(), answer(Verdict::False, 0));
}

#[test]
fn the_deepest_rule(rt: HostRuntime) {
    // each record is next of the one behind it, and the last a mark
    let mut drafts = [leaf(Kind::Mark, 0, 0); 63];
    for (draft, behind) in drafts.iter_mut().zip(2u16..64) {
        *draft = node(Kind::Next, behind, 0);
    }
    let mut watch = watch_of(&drafts);
    assert_eq!(rt; observe_times(&mut watch, 0, 62), 62);
    assert_eq!(rt; watch.report(), answer(Verdict::Undecided, 1));
    assert_eq!(rt; watch.observe(1), Ok(answer(Verdict::True, 0)));
}

#[test]
fn the_widest_rule(rt: HostRuntime) {
    // marks 0 to 30 twice
    let drafts = all_of_marks(|k| (k % 31) as u8);
    let mut watch = watch_of(&drafts);
    assert_eq!(rt; watch.observe(0x7fff_ffff), Ok(answer(Verdict::True, 0)));
    let mut watch = watch_of(&drafts);
    assert_eq!(rt; watch.observe(0x7fff_fffe), Ok(answer(Verdict::False, 0)));
}

#[test]
fn a_list_of_calls(rt: HostRuntime) {
    let rule = rule_of(&[window(Kind::Eventually, 2, 0, 3, 5), leaf(Kind::Mark, 0, 0)]);
    let calls = [
        Call::Observe { marks: 1 },
        Call::Advance {
            clock: 9,
            amount: 1,
        },
        Call::Advance {
            clock: 0,
            amount: 3,
        },
        Call::Observe { marks: 1 },
        Call::Report,
    ];
    let mut outcomes = [Err(WatchFault::Clock { clock: 0 }); 6];
    assert_eq!(rt; drive(rule, Sum, &calls, &mut outcomes), 5);
    assert_eq!(rt; outcomes[0], Ok(answer(Verdict::Undecided, 1)));
    assert_eq!(rt; outcomes[1], Err(WatchFault::Clock { clock: 9 }));
    assert_eq!(rt; outcomes[2], Ok(answer(Verdict::Undecided, 1)));
    assert_eq!(rt; outcomes[3], Ok(answer(Verdict::True, 0)));
    assert_eq!(rt; outcomes[4], Ok(answer(Verdict::True, 0)));
    assert_eq!(rt; outcomes[5], Err(WatchFault::Clock { clock: 0 }));
}

#[test]
fn size_of_a_watch(rt: HostRuntime) {
    assert_eq!(rt; std::mem::size_of::<Watch<Sum>>(), 60_032);
}
