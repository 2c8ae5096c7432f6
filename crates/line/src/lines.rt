// The lines that the program prints.
ghost use Rattle.std.specs.Prelude.{◌≡◌, ◌≤◌, length, IfOk};
ghost use Rattle.line.specs.Lines.{refusal_line, followed_line, follow_line, Writes};

use crate::text::{Text, copy_to, text_of};
use itoa::Buffer;
use rule::{BufferFault, Refusal};
use trace::{FollowFault, Followed};

// By `text_of`, and no `write!` (see there).
fn refusal_text(refusal: Refusal) -> Text
    ensures { result.bytes ≡ refusal_line refusal }
{
    text_of(
        ("refused=", Buffer::new().format(refusal.number)),
        (" layer=", refusal.layer.as_str()),
        (" record=", Buffer::new().format(refusal.record)),
    )
}

// By `text_of`, and no `write!` (see there).
fn followed_text(followed: Followed) -> Text
    ensures { result.bytes ≡ followed_line followed }
{
    text_of(
        ("verdict=", followed.verdict.as_str()),
        (" records=", Buffer::new().format(followed.records)),
        (" cells=", Buffer::new().format(followed.cells)),
    )
}

// `within` follows from `writes`, and stands beside it here and in `follow_line`: callers slice their buffer by it.
/// Writes the line of a refusal at the front of the buffer, and answers its length. A buffer that is too short stays whole.
pub fn refusal_line(refusal: Refusal, buf: &mut [u8]) -> Result<usize, BufferFault>
    ensures within { IfOk result (λ n. n ≤ length buf.new) }
    ensures writes { Writes (refusal_line refusal) result buf.old buf.new }
{
    copy_to(refusal_text(refusal).as_str(), buf)
}

/// Writes the line of what came of following a trace at the front of the buffer, and answers its length. A buffer that is too
/// short stays whole.
pub fn follow_line(
    found: Result<Followed, FollowFault>,
    buf: &mut [u8],
) -> Result<usize, BufferFault>
    ensures within { IfOk result (λ n. n ≤ length buf.new) }
    ensures writes { Writes (follow_line found) result buf.old buf.new }
{
    match found {
        Ok(followed) => copy_to(followed_text(followed).as_str(), buf),
        Err(fault) => refusal_line(fault.refusal(), buf),
    }
}
