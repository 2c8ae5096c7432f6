// The records that a book says, while its conditions are still asked.
ghost use Rattle.std.specs.Prelude.{◌≡◌, ◌<◌, ◌≤◌, length};

use crate::kinds::Record;

/// The 64 places of a rule, as a book fills them.
#[derive(Drop)]
pub struct Draft {
    pub records: [Record; 64],
    pub last: u16,
    ghost sized: { (1 ≤ last) × (last < 64) },
    ghost full: { length records ≡ 64 },
}
