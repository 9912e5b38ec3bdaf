// SPDX-FileCopyrightText: 2026 The PPVM Authors
// SPDX-License-Identifier: Apache-2.0

// A reader of rows, which refers to the lent offsets and columns and hands out a row's columns; and the call that
// reads a row of a lent matrix through it.
ghost use Rattle.std.specs.Prelude.{◌≡◌};
ghost use Rattle.matrix_row.specs.Rows.{row_of};
ghost use Rattle.csr.specs.Rows.{row_tests, read_row};

use crate::check::{check_places, check_rows};
use crate::rows::row_columns;
use matrix_row::rows::Row;
use refusal::Refusal;

#[derive(Drop)]
pub struct RowReader<'a, 'b> {
    pub offsets: &'a [u64],
    pub columns: &'b [u32],
}

impl<'a, 'b> RowReader<'a, 'b> {
    pub fn columns_of(self, row: usize) -> &'b [u32]
        ensures { result.now ≡ row_of self.entry.offsets.now self.entry.columns.now row }
    {
        row_columns(self.offsets, self.columns, row)
    }
}

// The columns of a row, handed out by a reader of the two tables.
fn read_columns<'a, 'b>(offsets: &'a [u64], columns: &'b [u32], row: usize) -> &'b [u32]
    ensures { result.now ≡ row_of offsets.now columns.now row }
{
    RowReader { offsets, columns }.columns_of(row)
}

// The matrix is tested whole, then whether it has the row.
fn check_row(rows: usize, offsets: &[u64], columns: &[u32], row: usize) -> Result<(), Refusal>
    ensures { result ≡ row_tests rows offsets.now columns.now row }
{
    check_rows(rows, offsets)?;
    check_places(rows, offsets, columns)?;
    if rows <= row {
        return Err(Refusal::NumberOutOfRange { index: row });
    }
    Ok(())
}

// The row ends where the columns that are handed out end.
pub fn read_row(rows: usize, offsets: &[u64], columns: &[u32], row: usize) -> Result<Row, Refusal>
    ensures { result ≡ read_row rows offsets.now columns.now row }
{
    check_row(rows, offsets, columns, row)?;
    let start = offsets[row] as usize;
    let handed = read_columns(offsets, columns, row);
    let end = start + handed.len();
    Ok(Row { start, end })
}
