// SPDX-FileCopyrightText: 2026 The PPVM Authors
// SPDX-License-Identifier: Apache-2.0

// The columns of a row, as a part of the lent ones.
ghost use Rattle.std.specs.Prelude.{◌≡◌};
ghost use Rattle.matrix_row.specs.Rows.{row_of};

use matrix_row::rows::row_bounds;

pub fn row_columns<'a, 'b>(offsets: &'a [u64], columns: &'b [u32], row: usize) -> &'b [u32]
    ensures { result.now ≡ row_of offsets.now columns.now row }
{
    let bounds = row_bounds(offsets, columns.len(), row);
    let start = bounds.start;
    let end = bounds.end;
    &columns[start..end]
}
