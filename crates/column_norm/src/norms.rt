// SPDX-FileCopyrightText: 2026 The PPVM Authors
// SPDX-License-Identifier: Apache-2.0

// The mean of the diagonals, and the largest column norm.
ghost use Rattle.std.specs.Prelude.{◌≡◌, ◌≤◌, length, take};
ghost use Rattle.column_norm.specs.Between.{column_norms};
ghost use Rattle.column_norm.specs.Columns.{column_norm, mean_of, largest};

use number::scalar::{larger, magnitude};

// The mean of the first `len` diagonals; 0 where there is none.
pub fn mean(diags: &[f64], len: usize) -> f64
    requires { (len ≤ length diags.now) × (len ≤ 65536) }
    ensures { result ≡ mean_of (take len diags.now) }
{
    if len == 0 {
        return 0.0;
    }
    let mut sum = 0.0;
    for i in 0..len {
        sum = sum + diags[i];
    }
    sum / (len as f64)
}

fn column_norm(raw: f64, diag: f64, mu: f64) -> f64
    ensures { result ≡ column_norm mu raw diag }
{
    raw - magnitude(diag) + magnitude(diag - mu)
}

// The largest norm of the first `len` columns, and 0 where there is none.
pub fn largest_column(raws: &[f64], diags: &[f64], len: usize, mu: f64) -> f64
    requires { (len ≤ length raws.now) × (len ≤ length diags.now) }
    ensures { result ≡ largest (column_norms mu (take len raws.now) (take len diags.now)) }
{
    let mut norm = 0.0;
    for i in 0..len {
        let column = column_norm(raws[i], diags[i], mu);
        norm = larger(norm, column);
    }
    norm
}
