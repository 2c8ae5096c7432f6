// A verdict by its name.
ghost use Rattle.std.specs.Prelude.{◌≡◌, ◌≤◌, length, Some};
ghost use Rattle.std.specs.Fmt.{padded};
ghost use Rattle.watch.specs.Printing.{verdict_name};

use crate::cells::Verdict;
use std::fmt;

impl Verdict {
    /// The verdict's name.
    pub fn as_str(&self) -> &'static str
        ensures name { result.now ≡ verdict_name self.now }
        ensures short { length result.now ≤ 9 }
    {
        match self {
            Verdict::True => "true",
            Verdict::False => "false",
            Verdict::Undecided => "undecided",
        }
    }
}

// `Layer` has this form too: no impl for every type with a name may stand, since `Display` belongs to std, and the gate refuses a macro.
impl fmt::Display for Verdict {
    ghost output = { λ verdict. Some (verdict_name verdict) };

    ghost styled_output = { λ verdict spec. Some (padded spec (verdict_name verdict)) };

    fn fmt<W: fmt::Write>(&self, f: &mut fmt::Formatter<W>) -> fmt::Result {
        f.pad(self.as_str())
    }
}
