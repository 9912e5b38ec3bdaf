// SPDX-FileCopyrightText: 2026 The PPVM Authors
// SPDX-License-Identifier: Apache-2.0

// A lent matrix by rows: where a row stands, and its product with a vector.
ghost use Rattle.std.specs.Prelude.{◌≡◌};
ghost use Rattle.csr.specs.Rows.{read_row};
ghost use Rattle.csr.specs.Products.{multiply};
ghost use Rattle.pebblelinen.specs.Products.{found_of, LeavesProduct};

use pebblelinen::products::FoundRow;
use refusal::Status;

#[unsafe(no_mangle)]
pub extern "C" fn pebblelinen_csr_row(
    rows: usize,
    offsets: &[u64],
    columns: &[u32],
    row: usize,
) -> FoundRow
    ensures { result ≡ found_of (read_row rows offsets.now columns.now row) }
{
    pebblelinen::products::pebblelinen_csr_row(rows, offsets, columns, row)
}

#[unsafe(no_mangle)]
pub extern "C" fn pebblelinen_dot(
    rows: usize,
    offsets: &[u64],
    columns: &[u32],
    values: &[f64],
    input: &[f64],
    overwrite: bool,
    output: &mut [f64],
    work: &mut [f64],
) -> Status
    ensures { LeavesProduct (multiply rows offsets.now columns.now values.now input.now overwrite output.old work.old) result output.new work.new }
{
    pebblelinen::products::pebblelinen_dot(
        rows, offsets, columns, values, input, overwrite, output, work,
    )
}
