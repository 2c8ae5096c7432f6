// What a pass asks of a mark set and of a rule's records.
ghost use Rattle.std.specs.Prelude.{◌≡◌, ◌<◌};
ghost use Rattle.wmtl.specs.Run.{has};
ghost use Rattle.rule.specs.Rules.{IsRecord, record_in};

use rule::Rule;

/// Whether the mark is in the set.
pub fn has_mark(marks: u32, mark: u8) -> bool
    requires { mark < 32 }
    ensures { result ≡ has mark marks }
{
    (marks >> mark) % 2 == 1
}

/// The operand behind record j in its chain.
pub fn behind(rule: &Rule, j: u16) -> Option<u16>
    ensures { IsRecord rule.now j → result ≡ (record_in rule.now j).next }
{
    rule.record(j)?.next
}
