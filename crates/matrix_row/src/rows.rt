// SPDX-FileCopyrightText: 2026 The PPVM Authors
// SPDX-License-Identifier: Apache-2.0

// Where a row of a lent matrix stands.
ghost use Rattle.std.specs.Prelude.{◌≡◌};
ghost use Rattle.matrix_row.specs.Rows.{row_at};

// Places of the columns and of the values, from start to before end.
#[derive(Drop)]
pub struct Row {
    pub start: usize,
    pub end: usize,
}

pub fn wide(x: u32) -> usize
    ensures { result ≡ x }
{
    x as usize
}

// Where a row stands among so many places: nowhere if there is no such row, or if its offsets do not
// lie inside.
pub fn row_bounds(offsets: &[u64], places: usize, row: usize) -> Row
    ensures { result ≡ row_at offsets.now places row }
{
    let len = offsets.len();
    if len <= row {
        return Row { start: 0, end: 0 };
    }
    if len <= row + 1 {
        return Row { start: 0, end: 0 };
    }
    let start = offsets[row] as usize;
    let end = offsets[row + 1] as usize;
    if end < start {
        return Row { start: 0, end: 0 };
    }
    if places < end {
        return Row { start: 0, end: 0 };
    }
    Row { start, end }
}
