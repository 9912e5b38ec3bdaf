// SPDX-FileCopyrightText: 2026 The PPVM Authors
// SPDX-License-Identifier: Apache-2.0

// What a lent matrix by rows is asked, and what a product asks of all that it is lent: 8 and 9, and 7 with the
// place in its own table.
ghost use Rattle.std.specs.Prelude.{◌≡◌, ◌+◌, length};
ghost use Rattle.lent.specs.Tests.{first_to};
ghost use Rattle.csr.specs.Lent.{offset_fails, bad_offset, bad_column, rows_tests, places_tests};
ghost use Rattle.csr.specs.Products.{length_tests, table_tests};
ghost use Rattle.matrix_row.specs.Walks.{bad_place};

use lent::numbers::first_not_finite;
use lent::tests::mismatch;
use lent::words::MAX_WORDS;
use matrix_row::rows::wide;
use matrix_row::sums::is_misplaced;
use refusal::Refusal;

// 8 and 9 of a lent matrix.
pub fn check_rows(rows: usize, offsets: &[u64]) -> Result<(), Refusal>
    ensures { result ≡ rows_tests rows offsets.now (Ok tt) }
{
    if MAX_WORDS < rows {
        return Err(Refusal::CountAboveLimit { count: rows });
    }
    if offsets.len() != rows + 1 {
        return mismatch(rows + 1, offsets.len());
    }
    Ok(())
}

pub fn check_lengths(
    rows: usize,
    offsets: &[u64],
    columns: &[u32],
    values: &[f64],
    input: &[f64],
    output: &[f64],
    work: &[f64],
) -> Result<(), Refusal>
    ensures { result ≡ length_tests rows offsets.now columns.now values.now input.now output.now work.now (Ok tt) }
{
    check_rows(rows, offsets)?;
    if values.len() != columns.len() {
        return mismatch(columns.len(), values.len());
    }
    if input.len() != rows {
        return mismatch(rows, input.len());
    }
    if output.len() != rows {
        return mismatch(rows, output.len());
    }
    if work.len() < rows {
        return mismatch(rows, work.len());
    }
    Ok(())
}

// Whether an offset fails beside the one before it.
fn offset_fails(rows: usize, count: usize, k: usize, before: usize, here: usize) -> bool
    ensures { result ≡ offset_fails rows count k before here }
{
    if k == 0 && 0 < here {
        return true;
    }
    if here < before {
        return true;
    }
    k == rows && here != count
}

// The first offset that fails; one more than the rows where none does.
fn first_bad_offset(offsets: &[u64], rows: usize, count: usize) -> usize
    requires { length offsets.now ≡ rows + 1 }
    ensures { result ≡ first_to (rows + 1) (bad_offset rows count offsets.now) }
{
    let mut before = offsets[0] as usize;
    for (k, offset) in offsets.iter().enumerate() {
        let here = *offset as usize;
        if offset_fails(rows, count, k, before, here) {
            return k;
        }
        before = here;
    }
    offsets.len()
}

// The first column of a row that is out of place; their number where none is.
fn first_misplaced(columns: &[u32], rows: usize) -> usize
    ensures { result ≡ first_to (length columns.now) (bad_place rows columns.now) }
{
    let mut least = 0;
    for (k, narrow) in columns.iter().enumerate() {
        let column = wide(*narrow);
        if is_misplaced(column, least, rows) {
            return k;
        }
        least = column + 1;
    }
    columns.len()
}

// The first column that fails, row by row; their number where none does.
fn first_bad_column(offsets: &[u64], columns: &[u32], rows: usize) -> usize
    requires { (length offsets.now ≡ rows + 1) × (first_to (rows + 1) (bad_offset rows (length columns.now) offsets.now) ≡ rows + 1) }
    ensures { result ≡ first_to (length columns.now) (bad_column rows offsets.now columns.now) }
{
    for r in 0..rows {
        let start = offsets[r] as usize;
        let end = offsets[r + 1] as usize;
        let k = first_misplaced(&columns[start..end], rows);
        if k < end - start {
            return start + k;
        }
    }
    columns.len()
}

// 7 of a lent matrix.
pub fn check_places(rows: usize, offsets: &[u64], columns: &[u32]) -> Result<(), Refusal>
    requires { length offsets.now ≡ rows + 1 }
    ensures { result ≡ places_tests rows offsets.now columns.now (Ok tt) }
{
    let offset = first_bad_offset(offsets, rows, columns.len());
    if offset < rows + 1 {
        return Err(Refusal::NumberOutOfRange { index: offset });
    }
    let column = first_bad_column(offsets, columns, rows);
    if column < columns.len() {
        return Err(Refusal::NumberOutOfRange { index: column });
    }
    Ok(())
}

pub fn check_tables(
    rows: usize,
    offsets: &[u64],
    columns: &[u32],
    values: &[f64],
    input: &[f64],
    overwrite: bool,
    output: &[f64],
) -> Result<(), Refusal>
    requires { (length offsets.now ≡ rows + 1) × (length input.now ≡ rows) × (length output.now ≡ rows) }
    ensures { result ≡ table_tests rows offsets.now columns.now values.now input.now overwrite output.now (Ok tt) }
{
    check_places(rows, offsets, columns)?;
    let value = first_not_finite(values, values.len());
    if value < values.len() {
        return Err(Refusal::NumberOutOfRange { index: value });
    }
    let x = first_not_finite(input, rows);
    if x < rows {
        return Err(Refusal::NumberOutOfRange { index: x });
    }
    if overwrite {
        return Ok(());
    }
    let y = first_not_finite(output, rows);
    if y < rows {
        return Err(Refusal::NumberOutOfRange { index: y });
    }
    Ok(())
}
