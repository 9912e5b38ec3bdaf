// SPDX-FileCopyrightText: 2026 The PPVM Authors
// SPDX-License-Identifier: Apache-2.0

// The product of a lent matrix by rows with a vector.
ghost use Rattle.std.specs.Prelude.{◌≡◌, true, ◌+◌, ◌≤◌, length};
ghost use Rattle.csr.specs.Products.{table_tests, tested, finished, multiply};
ghost use Rattle.csr.specs.Walks.{Ready, Quick};

use crate::check::{check_lengths, check_tables};
use crate::sums::sum_rows;
use crate::work::{first_not_clear, store};
use lent::clear::clear_numbers;
use lent::numbers::first_not_finite;
use refusal::Refusal;

// Whether the numbers of the short tables are as the one walk asks.
fn are_ready(input: &[f64], overwrite: bool, output: &[f64], work: &[f64]) -> bool
    requires { (length output.now ≡ length input.now) × (length input.now ≤ length work.now) }
    ensures { result ≡ true → Ready input.now overwrite output.now work.now }
{
    let rows = input.len();
    let clear = first_not_clear(work, rows);
    if clear < rows {
        return false;
    }
    let finite = first_not_finite(input, rows);
    if finite < rows {
        return false;
    }
    if overwrite {
        return true;
    }
    let added = first_not_finite(output, rows);
    rows <= added
}

// One walk, where all is well with the tables, the sums and the work places: whether it is so. Where it is
// not, work is left as it was: the places written were zero before.
fn try_rows(
    offsets: &[u64],
    columns: &[u32],
    values: &[f64],
    input: &[f64],
    overwrite: bool,
    output: &[f64],
    work: &mut [f64],
) -> bool
    requires { (length offsets.now ≡ length input.now + 1) × (length values.now ≡ length columns.now) × (length output.now ≡ length input.now) × (length input.now ≤ length work.old) }
    ensures { Quick offsets.now columns.now values.now input.now overwrite output.now work.old result work.new }
{
    let rows = input.len();
    let first = offsets[0] as usize;
    if 0 < first {
        return false;
    }
    let last = offsets[rows] as usize;
    if last != columns.len() {
        return false;
    }
    if !are_ready(input, overwrite, output, work) {
        return false;
    }
    let done = sum_rows(offsets, columns, values, input, overwrite, output, work);
    if done < rows {
        clear_numbers(&mut work[..done]);
        return false;
    }
    true
}

// The product of tables whose lengths agree. Where the one walk does not do, what is amiss is looked for
// in its order. If it is nothing, a work place was not zero or a sum is not finite: a second walk tells.
fn multiply_rows(
    offsets: &[u64],
    columns: &[u32],
    values: &[f64],
    input: &[f64],
    overwrite: bool,
    output: &mut [f64],
    work: &mut [f64],
) -> Result<(), Refusal>
    requires { (length offsets.now ≡ length input.now + 1) × (length values.now ≡ length columns.now) × (length output.old ≡ length input.now) × (length input.now ≤ length work.old) }
    ensures { record { answer = result; output = output.new; work = work.new } ≡ tested (length input.now) offsets.now columns.now values.now input.now overwrite output.old work.old (table_tests (length input.now) offsets.now columns.now values.now input.now overwrite output.old (Ok tt)) (finished (length input.now) offsets.now columns.now values.now input.now overwrite output.old work.old) }
{
    let rows = input.len();
    if try_rows(offsets, columns, values, input, overwrite, output, work) {
        store(output, work);
        return Ok(());
    }
    check_tables(rows, offsets, columns, values, input, overwrite, output)?;
    let done = sum_rows(offsets, columns, values, input, overwrite, output, work);
    if done < rows {
        clear_numbers(work);
        return Err(Refusal::SumNotFinite { position: done });
    }
    store(output, work);
    Ok(())
}

pub fn dot(
    rows: usize,
    offsets: &[u64],
    columns: &[u32],
    values: &[f64],
    input: &[f64],
    overwrite: bool,
    output: &mut [f64],
    work: &mut [f64],
) -> Result<(), Refusal>
    ensures { record { answer = result; output = output.new; work = work.new } ≡ multiply rows offsets.now columns.now values.now input.now overwrite output.old work.old }
{
    check_lengths(rows, offsets, columns, values, input, output, work)?;
    multiply_rows(offsets, columns, values, input, overwrite, output, work)
}
