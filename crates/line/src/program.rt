// From the contents of the program's two files to its line.
ghost use Rattle.std.specs.Prelude.{ℕ, ◌≤◌, List, [], length, IfOk};
ghost use Rattle.gauge.specs.Rack.{rack_meaning};
ghost use Rattle.rule.specs.Rules.{formula_for};
ghost use Rattle.trace.specs.Following.{extended, Follows, FinalAfter};
ghost use Rattle.line.specs.Lines.{Writes};
ghost use Rattle.line.specs.Program.{ProgramLine};

use crate::lines::{follow_line, refusal_line};
use gauge::rack;
use rule::{BufferFault, Rule};
use trace::{FollowFault, Followed, follow_new};

// Follows a trace on a new watch with sums on clocks 0 to 3, peaks on 4 and 5, and channels on 6 and 7.
fn follow_on_rack(rule: Rule, trace: &[u8]) -> Result<Followed, FollowFault>
    ensures follows { Follows rack_meaning (formula_for rule) [] trace.now result }
    ensures lasts { IfOk result (λ x.
        FinalAfter rack_meaning (formula_for rule) (extended [] trace.now x.records) x.verdict) }
{
    follow_new(rule, rack(), trace)
}

/// Loads the book, follows the trace on a new watch with sums on clocks 0 to 3, peaks on 4 and 5 and channels on 6 and 7, and
/// writes the line of what came of it, or of the first refusal. A buffer that is too short stays whole.
pub fn run_line(book: &[u8], trace: &[u8], buf: &mut [u8]) -> Result<usize, BufferFault>
    ensures within { IfOk result (λ n. n ≤ length buf.new) }
    ensures writes { (line : List ℕ) × ProgramLine book.now trace.now line × Writes line result buf.old buf.new }
{
    let mut rule = Rule::new();
    match rule.load(book) {
        Ok(_) => follow_line(follow_on_rack(rule, trace), buf),
        Err(fault) => refusal_line(fault.refusal(), buf),
    }
}
