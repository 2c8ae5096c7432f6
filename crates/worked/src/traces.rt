// Traces followed from end to end: their lengths, every refusal, the cell limit, and runs that are easily misread.
use crate::drafts::{book_of, leaf, node, refused, window};
use crate::watches::watch_of;
use line::run_line;
use rule::{Kind, Layer, Refusal};
use trace::{FollowFault, Followed, Stopped, follow};
use watch::{Verdict, WatchFault};

fn advance(clock: u8, amount: u64) -> [u8; 16] {
    let [a, b, c, d, e, f, g, h] = amount.to_be_bytes();
    [1, clock, 0, 0, 0, 0, 0, 0, a, b, c, d, e, f, g, h]
}

fn observe(marks: u32) -> [u8; 16] {
    let [a, b, c, d] = marks.to_be_bytes();
    [2, 0, 0, 0, a, b, c, d, 0, 0, 0, 0, 0, 0, 0, 0]
}

fn followed(verdict: Verdict, records: u16, cells: u32) -> Followed {
    Followed {
        verdict,
        cells,
        records,
    }
}

#[test]
fn lengths_of_traces(rt: HostRuntime) {
    let records = [observe(0); 2049];
    let trace = records.as_flattened();
    let mut watch = watch_of(&[leaf(Kind::Mark, 0, 0)]);
    assert_eq!(rt;
        follow(&mut watch, &trace[0..0]),
        Ok(followed(Verdict::Undecided, 0, 1))
    );
    assert_eq!(rt; follow(&mut watch, &trace[0..15]), Err(FollowFault::Length));
    assert_eq!(rt; follow(&mut watch, trace), Err(FollowFault::Length));
    assert_eq!(rt;
        follow(&mut watch, &trace[0..16]),
        Ok(followed(Verdict::False, 1, 0))
    );
    assert_eq!(rt;
        follow(&mut watch, &trace[0..32768]),
        Ok(followed(Verdict::False, 2048, 0))
    );
}

// What following a trace of one record on a watch for mark 0 gives, a refusal as a user sees it.
fn outcome_of(record: [u8; 16]) -> Result<Followed, Refusal> {
    let mut watch = watch_of(&[leaf(Kind::Mark, 0, 0)]);
    follow(&mut watch, &record).map_err(|fault| fault.refusal())
}

#[test]
fn records_that_are_no_call(rt: HostRuntime) {
    let no_call = refused(11, Layer::Trace, 0);
    assert_eq!(rt; outcome_of([0; 16]), no_call);
    assert_eq!(rt;
        outcome_of([3, 0, 0, 0, 0, 0, 0, 0, 0, 0, 0, 0, 0, 0, 0, 0]),
        no_call
    );
    assert_eq!(rt;
        outcome_of([1, 0, 1, 0, 0, 0, 0, 0, 0, 0, 0, 0, 0, 0, 0, 0]),
        no_call
    );
    assert_eq!(rt;
        outcome_of([1, 0, 0, 1, 0, 0, 0, 0, 0, 0, 0, 0, 0, 0, 0, 0]),
        no_call
    );
    assert_eq!(rt;
        outcome_of([1, 0, 0, 0, 0, 0, 0, 1, 0, 0, 0, 0, 0, 0, 0, 0]),
        no_call
    );
    assert_eq!(rt;
        outcome_of([2, 1, 0, 0, 0, 0, 0, 0, 0, 0, 0, 0, 0, 0, 0, 0]),
        no_call
    );
    assert_eq!(rt;
        outcome_of([2, 0, 0, 0, 0, 0, 0, 0, 0, 0, 0, 0, 0, 0, 0, 1]),
        no_call
    );
    // a record that is no call is refused before its clock is asked for
    assert_eq!(rt;
        outcome_of([1, 8, 0, 0, 0, 0, 0, 1, 0, 0, 0, 0, 0, 0, 0, 0]),
        no_call
    );
    assert_eq!(rt; outcome_of(advance(8, 0)), refused(8, Layer::Watch, 0));
    assert_eq!(rt;
        outcome_of(advance(7, u64::MAX)),
        Ok(followed(Verdict::Undecided, 1, 1))
    );
}

#[test]
fn the_cell_limit_in_a_trace(rt: HostRuntime) {
    let records = [observe(0); 512];
    let mut watch = watch_of(&[
        window(Kind::Always, 2, 0, 0, 1_000_000),
        window(Kind::Eventually, 3, 0, 0, 1_000_000),
        leaf(Kind::Mark, 0, 0),
    ]);
    let stopped = Stopped {
        fault: WatchFault::Cells { cells: 1025 },
        record: 511,
    };
    assert_eq!(rt;
        follow(&mut watch, records.as_flattened()),
        Err(FollowFault::Watch(stopped))
    );
    assert_eq!(rt;
        FollowFault::Watch(stopped).refusal(),
        Refusal {
            number: 9,
            layer: Layer::Watch,
            record: 511,
        }
    );
    // what the records before it did stays
    assert_eq!(rt;
        follow(&mut watch, &[]),
        Ok(followed(Verdict::Undecided, 0, 1023))
    );
}

#[test]
fn an_inner_window_counts_from_its_own_opening(rt: HostRuntime) {
    let mut watch = watch_of(&[
        window(Kind::Always, 2, 0, 0, 20),
        node(Kind::Any, 3, 0),
        leaf(Kind::NotMark, 0, 4),
        window(Kind::Eventually, 5, 0, 0, 10),
        leaf(Kind::Mark, 1, 0),
    ]);
    let records = [observe(1), advance(0, 10), observe(2)];
    assert_eq!(rt;
        follow(&mut watch, records.as_flattened()),
        Ok(followed(Verdict::Undecided, 3, 1))
    );
    let records = [advance(0, 10), observe(1), advance(0, 1)];
    // the outer window is past; the inner one, open for 1 of its 10, is still to be answered
    assert_eq!(rt;
        follow(&mut watch, records.as_flattened()),
        Ok(followed(Verdict::Undecided, 3, 1))
    );
    assert_eq!(rt;
        follow(&mut watch, &observe(2)),
        Ok(followed(Verdict::True, 1, 0))
    );
}

#[test]
fn the_left_side_of_a_release_does_not_excuse_its_own_instant(rt: HostRuntime) {
    let mut watch = watch_of(&[
        window(Kind::Release, 2, 0, 0, 5),
        leaf(Kind::Mark, 0, 3),
        leaf(Kind::Mark, 1, 0),
    ]);
    assert_eq!(rt;
        follow(&mut watch, &observe(1)),
        Ok(followed(Verdict::False, 1, 0))
    );
    let mut watch = watch_of(&[
        window(Kind::Release, 2, 0, 0, 5),
        leaf(Kind::Mark, 0, 3),
        leaf(Kind::Mark, 1, 0),
    ]);
    assert_eq!(rt;
        follow(&mut watch, &observe(3)),
        Ok(followed(Verdict::True, 1, 0))
    );
}

#[test]
fn a_deadline_passes_without_an_observation(rt: HostRuntime) {
    let mut watch = watch_of(&[
        window(Kind::Until, 2, 0, 3, 5),
        leaf(Kind::Mark, 0, 3),
        leaf(Kind::Mark, 1, 0),
    ]);
    let records = [observe(1), advance(0, 6)];
    assert_eq!(rt;
        follow(&mut watch, records.as_flattened()),
        Ok(followed(Verdict::False, 2, 0))
    );
}

#[test]
fn the_line_from_both_files(rt: HostRuntime) {
    let mut line = [7u8; 32];
    assert_eq!(rt; run_line(&[], &[], &mut line), Ok(30));
    assert_eq!(rt; &line, b"refused=1 layer=book record=0\n\x07\x07");
    let book = book_of(&[leaf(Kind::Mark, 0, 0)]);
    assert_eq!(rt; run_line(&book, &observe(1), &mut line), Ok(31));
    assert_eq!(rt; &line, b"verdict=true records=1 cells=0\n\x07");
    assert!(rt; run_line(&book, &[], &mut line).is_err());
    assert_eq!(rt; &line, b"verdict=true records=1 cells=0\n\x07");
    let mut longer = [7u8; 36];
    assert_eq!(rt; run_line(&book, &[], &mut longer), Ok(36));
    assert_eq!(rt; &longer, b"verdict=undecided records=0 cells=1\n");
}
