// The rows of a sheet: one more, one fewer, none.
ghost use Rattle.std.specs.Prelude.{◌≡◌, ◌≤◌, ◌<◌, [], ◌∷◌, ◌++◌, IfOk, MatchOption, length, slice_index_or};
ghost use Rattle.std.specs.List.{remove};
ghost use Rattle.sheet.specs.Limits.{most_rows};

use crate::row::Row;
use std::alloc::{AllocError, Global};
use std::marker::Model;

// The most rows that a sheet has.
const MOST_ROWS: usize = 64;

// The rows in order of entry, at most 64, with the memory for all of them reserved at making.
#[derive(Drop)]
pub(crate) struct Rows {
    list: Vec<Row>,
}

impl Model for Rows {
    ghost use Rattle.std.specs.Prelude.{◌≤◌, List, vec_capacity, vec_len};
    ghost use Rattle.sheet.specs.declared.row.Row.{Row};

    ghost Value = { List Row };

    ghost use Rattle.sheet.specs.Limits.{most_rows};

    ghost view = { λ r. r.list.items };

    ghost invariant = { λ r. (vec_len r.list ≤ most_rows) × (most_rows ≤ vec_capacity r.list) };
}

impl Rows {
    pub(crate) fn new(heap: Global) -> Result<Rows, AllocError>
        ensures { IfOk result (λ rs. rs ≡ []) }
    {
        let list = Vec::with_capacity(heap, MOST_ROWS)?;
        Ok(Rows { list })
    }

    // The rows in order of entry.
    pub(crate) fn as_slice(&self) -> &[Row]
        ensures value { result.now ≡ self.now }
        ensures few { length self.now ≤ most_rows }
    {
        self.list.as_slice()
    }

    // One row more, at the end, and its number; none where the sheet is full.
    pub(crate) fn add(&mut self, row: Row) -> Option<u32>
        ensures { MatchOption result ((most_rows ≤ length self.old) × (self.new ≡ self.old)) (λ n. (length self.old < most_rows) × (n ≡ length self.old) × (self.new ≡ self.old ++ row ∷ [])) }
    {
        let n = self.list.len();
        if n >= MOST_ROWS {
            return None;
        }
        self.list.push_reserved(row);
        Some(n as u32)
    }

    // One row fewer, and the row; none where there is no such row.
    pub(crate) fn remove(&mut self, row: u32) -> Option<Row>
        ensures { MatchOption result ((length self.old ≤ row) × (self.new ≡ self.old)) (λ gone. (row < length self.old) × (self.new ≡ remove self.old row) × (gone ≡ slice_index_or self.old row gone)) }
    {
        let at = row as usize;
        if at >= self.list.len() {
            return None;
        }
        Some(self.list.remove(at))
    }

    pub(crate) fn clear(&mut self)
        ensures { self.new ≡ [] }
    {
        self.list.clear();
    }
}
