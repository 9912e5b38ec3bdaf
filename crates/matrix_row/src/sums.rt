// SPDX-FileCopyrightText: 2026 The PPVM Authors
// SPDX-License-Identifier: Apache-2.0

// The sum of a row, in one walk through its entries. The columns are tested on the way. A test of each value
// would cost more than its product, and is not needed: one that is not finite makes its sum not finite. Nor is
// a zero input skipped, which would cost as much: its product with a finite value is a zero, and leaves a sum
// that began at +0.0 as it is. Where a column is amiss, the walk stops.
ghost use Rattle.std.specs.Prelude.{◌≡◌, ◌≤◌, length, if◌then◌else◌};
ghost use Rattle.std.specs.Float.{binary64};
ghost use Rattle.std.specs.Float.Ieee.{add};
ghost use Rattle.matrix_row.specs.Walks.{misplaced, RowWalked};

use crate::rows::wide;
use std::num::wrapping_sub_u64;

// What a walk through a row found: how many entries it passed, and their sum.
#[derive(Drop)]
pub struct RowSum {
    pub passed: usize,
    pub sum: f64,
}

// Whether a column is below the least that may stand at its place, or not below the count of rows. A
// column below the least wraps around to a step that is longer than any, so that one test does for both.
pub fn is_misplaced(column: usize, least: usize, rows: usize) -> bool
    requires { least ≤ rows }
    ensures { result ≡ misplaced least rows column }
{
    let step = wrapping_sub_u64(column as u64, least as u64);
    rows - least <= step as usize
}

pub fn sum_row(columns: &[u32], values: &[f64], input: &[f64]) -> RowSum
    requires { length values.now ≡ length columns.now }
    ensures { RowWalked input.now columns.now values.now result }
{
    let mut sum = 0.0;
    let mut least = 0;
    for k in 0..columns.len() {
        let column = wide(columns[k]);
        if is_misplaced(column, least, input.len()) {
            return RowSum { passed: k, sum };
        }
        sum = sum + values[k] * input[column];
        least = column + 1;
    }
    RowSum {
        passed: columns.len(),
        sum,
    }
}

// What is to be stored where y stands.
pub fn stored(overwrite: bool, y: f64, sum: f64) -> f64
    ensures { result ≡ (if overwrite then sum else add binary64 y sum) }
{
    if overwrite {
        return sum;
    }
    y + sum
}
