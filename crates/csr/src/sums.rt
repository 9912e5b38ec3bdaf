// SPDX-FileCopyrightText: 2026 The PPVM Authors
// SPDX-License-Identifier: Apache-2.0

// The sums of a product, row by row, in one walk through the entries. Whatever is amiss, the walk stops at the
// row, and what it is, is found by other functions.
ghost use Rattle.std.specs.Prelude.{◌+◌, ◌≤◌, ◌≡◌, length};
ghost use Rattle.csr.specs.Walks.{Walked};

use matrix_row::sums::{stored, sum_row};
use number::scalar::is_finite;

// What is to be stored at each row, laid in work as far as all is well: how many rows that is.
pub fn sum_rows(
    offsets: &[u64],
    columns: &[u32],
    values: &[f64],
    input: &[f64],
    overwrite: bool,
    output: &[f64],
    work: &mut [f64],
) -> usize
    requires { (length offsets.now ≡ length input.now + 1) × (length values.now ≡ length columns.now) × (length output.now ≡ length input.now) × (length input.now ≤ length work.old) }
    ensures { Walked offsets.now columns.now values.now input.now overwrite output.now work.old result work.new }
{
    let rows = input.len();
    for r in 0..rows {
        let start = offsets[r] as usize;
        let end = offsets[r + 1] as usize;
        if end < start {
            return r;
        }
        if columns.len() < end {
            return r;
        }
        let found = sum_row(&columns[start..end], &values[start..end], input);
        if found.passed < end - start {
            return r;
        }
        let value = stored(overwrite, output[r], found.sum);
        if !is_finite(value) {
            return r;
        }
        work[r] = value;
    }
    rows
}
