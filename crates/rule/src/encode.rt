// From the records of a rule to the bytes of its book.
ghost use Rattle.std.specs.Prelude.{◌≡◌, ℕ, ◌+◌, ◌*◌, ◌<◌, ◌≤◌, ◌++◌, length, take, drop};
ghost use Rattle.rule.specs.Layout.{bytes_of};
ghost use Rattle.rule.specs.Books.{bytes_said, written_below};

use crate::kinds::Record;

impl Record {
    // No `From`: an impl is public, and outside of this crate only whole books are written.
    // The 24 bytes that say this record.
    fn to_bytes(&self) -> [u8; 24]
        ensures { result ≡ bytes_of self.now }
    {
        let [f0, f1] = self.first.unwrap_or(0).to_be_bytes();
        let [n0, n1] = self.next.unwrap_or(0).to_be_bytes();
        let [l0, l1, l2, l3, l4, l5, l6, l7] = self.lower.to_be_bytes();
        let [u0, u1, u2, u3, u4, u5, u6, u7] = self.upper.to_be_bytes();
        [
            u8::from(self.kind),
            self.mark,
            self.clock,
            self.reserved,
            f0,
            f1,
            n0,
            n1,
            l0,
            l1,
            l2,
            l3,
            l4,
            l5,
            l6,
            l7,
            u0,
            u1,
            u2,
            u3,
            u4,
            u5,
            u6,
            u7,
        ]
    }
}

// The bytes of record k of a book: record 0 is all zero.
fn bytes_at(k: usize, record: &Record) -> [u8; 24]
    ensures { result ≡ bytes_said k «record».now }
{
    if k == 0 { [0; 24] } else { record.to_bytes() }
}

fn put(buf: &mut [u8], start: usize, bytes: &[u8; 24])
    requires { start + 24 ≤ length buf.old }
    ensures { buf.new ≡ take start buf.old ++ (bytes.now ++ drop (start + 24) buf.old) }
{
    buf[start..start + 24].copy_from_slice(bytes);
}

/// The book of the records, at the front of the buffer; the record in front of the first one is written as zeros.
pub fn write_records(records: &[Record], buf: &mut [u8])
    requires { 24 * length records.now ≤ length buf.old }
    ensures { buf.new ≡ written_below records.now (length records.now) ++ drop (24 * length records.now) buf.old }
{
    // By a record's number, since record 0 is written as zeros; pieces of `as_chunks_mut` leave open what the slice ends as.
    for (k, record) in records.iter().enumerate() {
        put(buf, 24 * k, &bytes_at(k, record));
    }
}
