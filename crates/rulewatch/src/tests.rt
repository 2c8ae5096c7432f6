// What the program makes of sources that are long, cut into pieces, or missing.
use crate::{BOOK_ROOM, LINE_ROOM, TRACE_ROOM, read_any};
use line::run_line;
use rule::Kind;
use std::io::Read;
use std::process::Abort;

const LONGEST_BOOK: usize = 1_536;

const LONGEST_TRACE: usize = 32_768;

const OBSERVE_MARK_0: [u8; 16] = [2, 0, 0, 0, 0, 0, 0, 1, 0, 0, 0, 0, 0, 0, 0, 0];

fn record(kind: Kind, first: u8, next: u8) -> [u8; 24] {
    let mut bytes = [0u8; 24];
    bytes[0] = u8::from(kind);
    bytes[5] = first;
    bytes[7] = next;
    bytes
}

// A book of 64 records and half a record more: all of 62 times mark 0.
fn long_book() -> [u8; 1_548] {
    let mut bytes = [0u8; 1_548];
    let (records, _half) = bytes.as_chunks_mut::<24>();
    for (place, k) in records.iter_mut().zip(0u8..64) {
        *place = match k {
            0 => [0; 24],
            1 => record(Kind::All, 2, 0),
            63 => record(Kind::Mark, 0, 0),
            _ => record(Kind::Mark, 0, k.saturating_add(1)),
        };
    }
    bytes
}

// 2,048 observations of mark 0, and half an observation more.
fn long_trace() -> [u8; 32_776] {
    let mut bytes = [0u8; 32_776];
    let (records, _half) = bytes.as_chunks_mut::<16>();
    records.fill(OBSERVE_MARK_0);
    bytes
}

// The line of a book and a trace, read as the program reads its files.
fn gives<B: Read + Drop, T: Read + Drop>(
    rt: &impl Abort,
    book: Option<B>,
    trace: Option<T>,
    expected: &[u8],
) {
    let mut book_room = [0u8; BOOK_ROOM];
    let mut trace_room = [0u8; TRACE_ROOM];
    let book = read_any(book, &mut book_room);
    let trace = read_any(trace, &mut trace_room);
    let mut line = [0u8; LINE_ROOM];
    let n = run_line(book, trace, &mut line);
    assert_eq!(rt; n, Ok(expected.len()));
    assert!(rt; expected.len() <= LINE_ROOM);
    assert_eq!(rt; &line[0..expected.len()], expected);
}

#[test]
fn the_longest_book_is_read_whole(rt: HostRuntime) {
    let book = long_book();
    let none: [u8; 0] = [];
    gives(
        &rt,
        Some(&book[0..LONGEST_BOOK]),
        Some(&none[..]),
        b"verdict=undecided records=0 cells=1\n",
    );
}

#[test]
fn a_longer_book_is_refused_for_its_length(rt: HostRuntime) {
    let book = long_book();
    let none: [u8; 0] = [];
    for n in [LONGEST_BOOK + 1, LONGEST_BOOK + 12] {
        gives(
            &rt,
            Some(&book[0..n]),
            Some(&none[..]),
            b"refused=1 layer=book record=0\n",
        );
    }
}

#[test]
fn the_longest_trace_is_read_whole(rt: HostRuntime) {
    let book = long_book();
    let trace = long_trace();
    gives(
        &rt,
        Some(&book[0..LONGEST_BOOK]),
        Some(&trace[0..LONGEST_TRACE]),
        b"verdict=true records=2048 cells=0\n",
    );
}

#[test]
fn a_longer_trace_is_refused_for_its_length(rt: HostRuntime) {
    let book = long_book();
    let trace = long_trace();
    for n in [LONGEST_TRACE + 1, LONGEST_TRACE + 8] {
        gives(
            &rt,
            Some(&book[0..LONGEST_BOOK]),
            Some(&trace[0..n]),
            b"refused=10 layer=trace record=0\n",
        );
    }
}

#[test]
fn a_source_in_pieces_is_read_on(rt: HostRuntime) {
    let book = long_book();
    let trace = long_trace();
    let (front, rest) = (&book[0..100], &book[100..LONGEST_BOOK]);
    gives(
        &rt,
        Some(front.chain(rest)),
        Some((&trace[0..5]).chain(&trace[5..32])),
        b"verdict=true records=2 cells=0\n",
    );
}

#[test]
fn a_missing_source_counts_as_empty(rt: HostRuntime) {
    let missing: Option<&[u8]> = None;
    let book = long_book();
    let trace = long_trace();
    gives(
        &rt,
        missing,
        Some(&trace[0..16]),
        b"refused=1 layer=book record=0\n",
    );
    gives(
        &rt,
        Some(&book[0..LONGEST_BOOK]),
        missing,
        b"verdict=undecided records=0 cells=1\n",
    );
}
