// SPDX-FileCopyrightText: 2026 The PPVM Authors
// SPDX-License-Identifier: Apache-2.0

// The unshifted norm of a matrix whose entries stand column by column: the largest raw of any column.
#![tactic(auto)]

ghost use Rattle.std.specs.Prelude.{◌≡◌, ◌≤◌, length};
ghost use Rattle.column_norm.specs.Columns.{largest};
ghost use Rattle.raw_norm.specs.Between.{raws_from, ColumnSummed};

use number::scalar::{larger, magnitude};

// The raw of a column, and the place of the first entry after it.
#[derive(Drop)]
pub struct ColumnRaw {
    pub next: usize,
    pub raw: f64,
}

fn wide(x: u32) -> usize
    ensures { result ≡ x }
{
    x as usize
}

// The magnitudes of the entries of column c, which stand from a place on, added in their order.
fn raw_at(columns: &[u32], values: &[f64], start: usize, c: usize) -> ColumnRaw
    requires { (length values.now ≡ length columns.now) × (start ≤ length columns.now) }
    ensures { ColumnSummed columns.now values.now start c result }
{
    let mut raw = 0.0;
    for k in start..columns.len() {
        let column = wide(columns[k]);
        if column != c {
            return ColumnRaw { next: k, raw };
        }
        raw = raw + magnitude(values[k]);
    }
    ColumnRaw {
        next: columns.len(),
        raw,
    }
}

// The largest raw of n columns, and 0 where there is none.
pub fn largest_raw(columns: &[u32], values: &[f64], n: usize) -> f64
    requires { length values.now ≡ length columns.now }
    ensures { result ≡ largest (raws_from n 0 columns.now values.now) }
{
    let mut norm = 0.0;
    let mut k = 0;
    for c in 0..n {
        let found = raw_at(columns, values, k, c);
        norm = larger(norm, found.raw);
        k = found.next;
    }
    norm
}
