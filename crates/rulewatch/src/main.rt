// The program: reads rule.book and trace.run in the current folder and prints the line of what came of them.
#![tactic(auto)]

ghost use Rattle.std.specs.Prelude.{◌≤◌, length};

use line::run_line;
use std::fs::File;
use std::io;
use std::io::{Read, Write};

// One byte more than the longest book and the longest trace, so that a longer file is refused for its length.
const BOOK_ROOM: usize = 1_537;

const TRACE_ROOM: usize = 32_769;

// More than the longest line.
const LINE_ROOM: usize = 96;

// The front of what a source gives, as much as there is room for. A source that cannot be read on ends there.
fn read_source<'a, R: Read>(source: &mut R, room: &'a mut [u8]) -> &'a [u8]
    ensures { length result.now ≤ length room.old }
{
    let mut rest = &mut room[..];
    while !rest.is_empty() {
        match source.read(rest) {
            Ok(0) | Err(_) => break,
            Ok(n) => rest = &mut rest[n..],
        }
    }
    let left = rest.len();
    &room[..room.len() - left]
}

// The same of a source that may be missing, which counts as empty.
fn read_any<R: Read + Drop>(source: Option<R>, room: &mut [u8]) -> &[u8]
    ensures { length result.now ≤ length room.old }
{
    match source {
        Some(mut source) => read_source(&mut source, room),
        None => &[],
    }
}

// The front of a file, as much as there is room for. A file that cannot be opened counts as empty, and one that cannot be read
// on ends there.
fn read_front<'a>(rt: &HostRuntime, path: &str, room: &'a mut [u8]) -> &'a [u8]
    ensures { length result.now ≤ length room.old }
{
    read_any(File::open(rt, path).ok(), room)
}

fn main(rt: HostRuntime) -> io::Result<()> {
    let mut book_room = [0u8; BOOK_ROOM];
    let mut trace_room = [0u8; TRACE_ROOM];
    let book = read_front(&rt, "rule.book", &mut book_room);
    let trace = read_front(&rt, "trace.run", &mut trace_room);
    let mut line = [0u8; LINE_ROOM];
    match run_line(book, trace, &mut line) {
        Ok(n) => rt.stdout().write_all(&line[0..n]),
        Err(_) => Ok(()),
    }
}

#[cfg(test)]
mod tests;
