// SPDX-FileCopyrightText: 2026 The PPVM Authors
// SPDX-License-Identifier: Apache-2.0

// The work table of a product, where all that is to be stored stands until it is known to be finite.
ghost use Rattle.std.specs.Prelude.{◌≡◌, ◌≤◌, length, replicate, take};
ghost use Rattle.number.specs.Floats.{float0};
ghost use Rattle.lent.specs.Tests.{first_to};
ghost use Rattle.csr.specs.Walks.{is_clear, not_clear};

use lent::clear::clear_numbers;
use lent::copy::copy_table;

// Whether x is +0.0: a work place that is so can be made so again.
fn is_clear(x: f64) -> bool
    ensures { result ≡ is_clear x }
{
    if x == 0.0 {
        return f64::to_bits(x) == 0;
    }
    false
}

// The first of so many places that is not +0.0; their number where there is none.
pub fn first_not_clear(work: &[f64], count: usize) -> usize
    requires { count ≤ length work.now }
    ensures { result ≡ first_to count (not_clear work.now) }
{
    for k in 0..count {
        if !is_clear(work[k]) {
            return k;
        }
    }
    count
}

// The numbers of one table over those of another.
pub fn copy_numbers(from: &[f64], to: &mut [f64])
    requires { length to.old ≤ length from.now }
    ensures { to.new ≡ take (length to.old) from.now }
{
    copy_table(&from[..to.len()], to);
}

// What stands in work is stored, and work is zero again.
pub fn store(output: &mut [f64], work: &mut [f64])
    requires { length output.old ≤ length work.old }
    ensures { (output.new ≡ take (length output.old) work.old) × (work.new ≡ replicate (length work.old) float0) }
{
    copy_numbers(work, output);
    clear_numbers(work);
}
