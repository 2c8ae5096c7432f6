// The working memory of a rewriting pass: a stack of terms whose cells lie in one array.
ghost use Rattle.std.specs.Prelude.{◌≡◌, length};

use crate::cells::{Cell, Entry};
use arrayvec::ArrayVec;

// No `ArrayVec` of the cells: the count goes beyond the array, and an `ArrayVec` can't.
/// Cells are counted beyond the array's end and stored where there is a place: a cell never moves, so where the final
/// count is at most 1,024 every cell of the term was stored.
#[derive(Drop)]
pub struct Builder {
    pub cells: [Cell; 1024],
    pub count: u32,
    pub entries: ArrayVec<Entry, 1100>,
    ghost wide: { length cells ≡ 1024 },
}
