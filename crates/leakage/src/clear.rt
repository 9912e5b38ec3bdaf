// SPDX-FileCopyrightText: 2026 The PPVM Authors
// SPDX-License-Identifier: Apache-2.0

// Zero in several lent tables at a time.
ghost use Rattle.std.specs.Prelude.{◌≡◌, length, replicate};
ghost use Rattle.number.specs.Floats.{float0};

use lent::clear::{clear_lanes, clear_numbers};

pub fn clear_rows(words: &mut [u64], numbers: &mut [f64])
    ensures { (words.new ≡ replicate (length words.old) 0) × (numbers.new ≡ replicate (length numbers.old) float0) }
{
    clear_lanes(words);
    clear_numbers(numbers);
}

pub fn clear_three(a: &mut [u64], b: &mut [u64], c: &mut [u64])
    ensures { (a.new ≡ replicate (length a.old) 0) × (b.new ≡ replicate (length b.old) 0) × (c.new ≡ replicate (length c.old) 0) }
{
    clear_lanes(a);
    clear_lanes(b);
    clear_lanes(c);
}

pub fn clear_four(a: &mut [u64], b: &mut [u64], c: &mut [u64], d: &mut [u64])
    ensures { (a.new ≡ replicate (length a.old) 0) × (b.new ≡ replicate (length b.old) 0) × (c.new ≡ replicate (length c.old) 0) × (d.new ≡ replicate (length d.old) 0) }
{
    clear_lanes(a);
    clear_lanes(b);
    clear_lanes(c);
    clear_lanes(d);
}
