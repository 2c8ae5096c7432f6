// From the bytes of a trace to its calls.
ghost use Rattle.std.specs.Prelude.{◌≡◌, ℕ, ◌*◌, ◌≤◌, length, IfSome};
ghost use Rattle.trace.specs.Layout.{call_from, call_of, count_of};

use watch::Call;

// The kind is a byte here since it comes from outside: from here on it is a call.
// The call of a kind byte with these fields, where those that it does not use are zero.
fn call_from(kind: u8, clock: u8, marks: u32, amount: u64) -> Option<Call>
    ensures { result ≡ call_from kind clock marks amount }
{
    match kind {
        1 if marks == 0 => Some(Call::Advance { clock, amount }),
        2 if clock == 0 && amount == 0 => Some(Call::Observe { marks }),
        _ => None,
    }
}

// No `TryFrom`: an impl is public, and outside of this crate only whole traces are read.
/// The call that the 16 bytes of a record say, where they say one.
pub fn call_of(bytes: &[u8]) -> Option<Call>
    requires { length bytes.now ≡ 16 }
    ensures { result ≡ call_of bytes.now }
{
    let [
        kind,
        clock,
        zero,
        zero2,
        m0,
        m1,
        m2,
        m3,
        a0,
        a1,
        a2,
        a3,
        a4,
        a5,
        a6,
        a7,
    ] = bytes
    else {
        return None;
    };
    if *zero != 0 || *zero2 != 0 {
        return None;
    }
    let marks = u32::from_be_bytes([*m0, *m1, *m2, *m3]);
    let amount = u64::from_be_bytes([*a0, *a1, *a2, *a3, *a4, *a5, *a6, *a7]);
    call_from(*kind, *clock, marks, amount)
}

// No function for this and for the length of a book: bounds, size and what is counted differ, so it would take all that is here.
/// The number of records, where the length is that of a trace.
pub fn count_of(trace: &[u8]) -> Option<u16>
    ensures value { result ≡ count_of (length trace.now) }
    ensures size { IfSome result (λ n. (n ≤ 2048) × (length trace.now ≡ 16 * n)) }
{
    let n = trace.len();
    if n <= 32768 && n % 16 == 0 {
        Some((n / 16) as u16)
    } else {
        None
    }
}
