// SPDX-FileCopyrightText: 2026 The PPVM Authors
// SPDX-License-Identifier: Apache-2.0

// Tables of rows, columns and values: cleared, copied, and their places.
ghost use Rattle.std.specs.Prelude.{◌≡◌, ◌≤◌, min, length, take, set, replicate};
ghost use Rattle.number.specs.Floats.{float0};
ghost use Rattle.lent.specs.Laid.{laid};

use lent::clear::clear_numbers;
use lent::copy::copy_table;
use lent::sizes::smaller;

pub fn clear_places(t: &mut [u32])
    ensures { t.new ≡ replicate (length t.old) 0 }
{
    t.fill(0);
}

pub fn clear_entries(rows: &mut [u32], columns: &mut [u32], values: &mut [f64])
    ensures { (rows.new ≡ replicate (length rows.old) 0) × (columns.new ≡ replicate (length columns.old) 0) × (values.new ≡ replicate (length values.old) float0) }
{
    clear_places(rows);
    clear_places(columns);
    clear_numbers(values);
}

// The first `count` places, copied.
pub fn copy_places(from: &[u32], count: usize, to: &mut [u32])
    requires { (count ≤ length from.now) × (count ≤ length to.old) }
    ensures { to.new ≡ laid set 0 (take count from.now) to.old }
{
    copy_table(&from[..count], &mut to[..count]);
}

pub fn copy_values(from: &[f64], count: usize, to: &mut [f64])
    requires { (count ≤ length from.now) × (count ≤ length to.old) }
    ensures { to.new ≡ laid set 0 (take count from.now) to.old }
{
    copy_table(&from[..count], &mut to[..count]);
}

// The places of the shortest of three tables.
pub fn places_of(rows: &[u32], columns: &[u32], values: &[f64]) -> usize
    ensures { result ≡ min (min (length rows.now) (length columns.now)) (length values.now) }
{
    let numbers = smaller(rows.len(), columns.len());
    smaller(numbers, values.len())
}
