// SPDX-FileCopyrightText: 2026 The PPVM Authors
// SPDX-License-Identifier: Apache-2.0

// The stages of a time step over a tested matrix. A number that is not finite stops them at its row: the whole
// product is looked through first, then b, then v.
ghost use Rattle.std.specs.Prelude.{◌≡◌, ◌*◌, ◌≤◌, ◌<◌, length};
ghost use Rattle.taylor.specs.Between.{TermReady, TermLeaves, StageReady, StageLeaves, StagesLeave};

use crate::rows::{add_rows, scale_rows};
use csr::sums::sum_rows;
use csr::work::copy_numbers;

// One term: b becomes its product times a factor, and v becomes v + b. How many rows were passed.
fn add_term(
    offsets: &[u64],
    columns: &[u32],
    values: &[f64],
    factor: f64,
    b: &mut [f64],
    product: &mut [f64],
    v: &mut [f64],
) -> usize
    requires { TermReady offsets.now columns.now values.now b.old product.old v.old }
    ensures { TermLeaves offsets.now columns.now values.now factor b.old v.old result b.new v.new }
{
    let rows = b.len();
    let multiplied = sum_rows(offsets, columns, values, b, true, b, product);
    if multiplied < rows {
        return multiplied;
    }
    let scaled = scale_rows(product, factor, b);
    if scaled < rows {
        return scaled;
    }
    add_rows(b, v)
}

// A stage of m terms: b starts as v. How many rows were passed.
fn run_stage(
    offsets: &[u64],
    columns: &[u32],
    values: &[f64],
    m: usize,
    s: usize,
    dt: f64,
    b: &mut [f64],
    product: &mut [f64],
    v: &mut [f64],
) -> usize
    requires { StageReady offsets.now columns.now values.now m s b.old product.old v.old }
    ensures { StageLeaves offsets.now columns.now values.now m s dt v.old result v.new }
{
    let rows = v.len();
    copy_numbers(v, b);
    for j in 1..=m {
        let factor = dt / ((s * j) as f64);
        let passed = add_term(offsets, columns, values, factor, b, product, v);
        if passed < rows {
            return passed;
        }
    }
    rows
}

// All s stages, one after another. How many rows were passed.
pub fn run_stages(
    offsets: &[u64],
    columns: &[u32],
    values: &[f64],
    m: usize,
    s: usize,
    dt: f64,
    b: &mut [f64],
    product: &mut [f64],
    v: &mut [f64],
) -> usize
    requires { StageReady offsets.now columns.now values.now m s b.old product.old v.old }
    ensures { StagesLeave offsets.now columns.now values.now m s dt v.old result v.new }
{
    let rows = v.len();
    for _ in 0..s {
        let passed = run_stage(offsets, columns, values, m, s, dt, b, product, v);
        if passed < rows {
            return passed;
        }
    }
    rows
}
