// A line's text, put together in fixed memory.
ghost use Rattle.std.specs.Prelude.{◌≡◌, ◌+◌, ◌<◌, ◌≤◌, [], ◌∷◌, ◌++◌, length, IfOk};
ghost use Rattle.line.specs.Lines.{Writes};

use arrayvec::ArrayString;
use rule::BufferFault;

/// A line, with room for the longest.
pub type Text = ArrayString<64>;

/// A name as it is printed, and its value.
pub type Field<'a> = (&'a str, &'a str);

// No `write!`: tried, and what it promises leaves open whether it succeeds.
/// Three fields and a line feed.
pub fn text_of(first: Field, second: Field, third: Field) -> Text
    requires { length first.0.now + length first.1.now + length second.0.now + length second.1.now
        + length third.0.now + length third.1.now < 64 }
    ensures { result.bytes
        ≡ first.entry.0.now ++ (first.entry.1.now ++ (second.entry.0.now ++ (second.entry.1.now
        ++ (third.entry.0.now ++ (third.entry.1.now ++ 10 ∷ []))))) }
{
    let mut text = Text::new();
    text.push_str(first.0);
    text.push_str(first.1);
    text.push_str(second.0);
    text.push_str(second.1);
    text.push_str(third.0);
    text.push_str(third.1);
    text.push_str("\n");
    text
}

/// Copies the text to the front of the buffer, and answers its length; a buffer that is too short stays whole.
pub fn copy_to(text: &str, buf: &mut [u8]) -> Result<usize, BufferFault>
    ensures within { IfOk result (λ n. n ≤ length buf.new) }
    ensures copies { Writes text.now result buf.old buf.new }
{
    let n = text.len();
    if buf.len() < n {
        return Err(BufferFault::TooShort);
    }
    buf[0..n].copy_from_slice(text.as_bytes());
    Ok(n)
}
