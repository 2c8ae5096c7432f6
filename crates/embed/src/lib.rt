// The boundary to C: a book, a trace and an output buffer as pointers and lengths.
#![tactic(auto)]

ghost use Rattle.std.specs.Prelude.{List, ℕ};
ghost use Rattle.line.specs.Program.{ProgramLine};
ghost use Rattle.embed.specs.Boundary.{Leaves};

use line::run_line;

/// Follows the trace on a new watch for the rule of the book, and leaves the program's line at the front of `out`. Answers the
/// line's length, or 0 where `out` is too short; it then stays as it was.
#[unsafe(no_mangle)]
pub extern "C" fn rulewatch_run(book: &[u8], trace: &[u8], out: &mut [u8]) -> usize
    ensures { (line : List ℕ) × ProgramLine book.now trace.now line × Leaves line result out.old out.new }
{
    // A caller in C has no `Result`: a line is never empty, so 0 says that it does not fit.
    run_line(book, trace, out).unwrap_or(0)
}
