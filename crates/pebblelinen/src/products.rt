// SPDX-FileCopyrightText: 2026 The PPVM Authors
// SPDX-License-Identifier: Apache-2.0

// A lent matrix by rows: where a row stands, and its product with a vector.
ghost use Rattle.std.specs.Prelude.{◌≡◌};
ghost use Rattle.csr.specs.Rows.{read_row};
ghost use Rattle.csr.specs.Products.{multiply};
ghost use Rattle.pebblelinen.specs.Products.{found_of, LeavesProduct};

use matrix_row::rows::Row;
use refusal::{ACCEPTED, Refusal, Status};

// Where a row stands; 0 and 0 where the status is a refusal.
#[repr(C)]
#[derive(Drop)]
pub struct FoundRow {
    pub status: Status,
    pub start: usize,
    pub end: usize,
}

impl From<Result<Row, Refusal>> for FoundRow {
    ghost from_gives = { λ answer made. made ≡ found_of answer };

    fn from(answer: Result<Row, Refusal>) -> FoundRow {
        match answer {
            Ok(row) => FoundRow {
                status: ACCEPTED,
                start: row.start,
                end: row.end,
            },
            Err(refusal) => FoundRow {
                status: Status::from(refusal),
                start: 0,
                end: 0,
            },
        }
    }
}

pub fn pebblelinen_csr_row(rows: usize, offsets: &[u64], columns: &[u32], row: usize) -> FoundRow
    ensures { result ≡ found_of (read_row rows offsets.now columns.now row) }
{
    FoundRow::from(csr::reader::read_row(rows, offsets, columns, row))
}

pub fn pebblelinen_dot(
    rows: usize,
    offsets: &[u64],
    columns: &[u32],
    values: &[f64],
    input: &[f64],
    overwrite: bool,
    output: &mut [f64],
    work: &mut [f64],
) -> Status
    ensures { LeavesProduct (multiply rows offsets.now columns.now values.now input.now overwrite output.old work.old) result output.new work.new }
{
    Status::from(csr::product::dot(
        rows, offsets, columns, values, input, overwrite, output, work,
    ))
}
