// SPDX-FileCopyrightText: 2026 The PPVM Authors
// SPDX-License-Identifier: Apache-2.0

// The largest of the coefficients that are not fixed, without an order of them all. The last one to
// stay is looked for; every position is held against it, and those that stay are counted. So nothing
// rests on the search: where the count is not right, all positions are ordered.
ghost use Rattle.std.specs.Prelude.{◌≡◌, cond, not, ltb, ◌<◌, length, replicate};
ghost use Rattle.std.specs.Float.Ieee.{lt};
ghost use Rattle.number.specs.Floats.{magnitude};
ghost use Rattle.order.specs.Magnitudes.{by_magnitude};
ghost use Rattle.keep.specs.Chosen.{chosen};
ghost use Rattle.keep.specs.Largest.{KeepsTo};
ghost use Rattle.order.specs.Between.{AreFinite};

use crate::choose::{choose_largest, copy_flags};
use crate::nth::find_last;
use number::scalar::magnitude;
use order::magnitudes::order_by_desc_mag;

// Whether a position that is not fixed stays beside the last one, whose magnitude is the cutoff.
fn stays(x: f64, cut: f64, i: usize, last: usize) -> bool
    ensures { result ≡ cond (ltb last i) (lt cut (magnitude x)) (not (lt (magnitude x) cut)) }
{
    let size = magnitude(x);
    if last < i {
        return cut < size;
    }
    !(size < cut)
}

// Flags the fixed positions and those that stay beside the last one: how many of the others stay.
fn keep_to(coeffs: &[f64], fixed: &[u64], last: usize, kept: &mut [u64]) -> usize
    requires { (length fixed.now ≡ length coeffs.now) × (length kept.old ≡ length coeffs.now) × (last < length coeffs.now) }
    ensures { KeepsTo coeffs.now fixed.now last result kept.new }
{
    let cut = magnitude(coeffs[last]);
    let mut taken = 0;
    for i in 0..coeffs.len() {
        let is_large = stays(coeffs[i], cut, i, last);
        if fixed[i] == 0 {
            kept[i] = u64::from(is_large);
            taken += usize::from(is_large);
        } else {
            kept[i] = 1;
        }
    }
    taken
}

// The same of all positions in their order. `kept` is for ordering first.
fn choose_by_order(coeffs: &[f64], fixed: &[u64], slots: usize, order: &mut [u64], kept: &mut [u64])
    requires { (length fixed.now ≡ length coeffs.now) × (length order.old ≡ length coeffs.now) × (length kept.old ≡ length coeffs.now) }
    ensures { kept.new ≡ chosen (by_magnitude coeffs.now) fixed.now slots }
{
    order_by_desc_mag(coeffs, order, kept);
    choose_largest(order, fixed, slots, kept);
}

fn flag_all(kept: &mut [u64])
    ensures { kept.new ≡ replicate (length kept.old) 1 }
{
    kept.fill(1);
}

// Flags the fixed positions, and of the others the largest, as many as there are slots; ties to the
// earlier.
pub fn choose_largest_of(
    coeffs: &[f64],
    fixed: &[u64],
    slots: usize,
    order: &mut [u64],
    kept: &mut [u64],
)
    requires { (length fixed.now ≡ length coeffs.now) × (length order.old ≡ length coeffs.now) × (length kept.old ≡ length coeffs.now) × AreFinite coeffs.now }
    ensures { kept.new ≡ chosen (by_magnitude coeffs.now) fixed.now slots }
{
    if slots == 0 {
        copy_flags(fixed, kept);
        return;
    }
    if coeffs.len() <= slots {
        flag_all(kept);
        return;
    }
    let last = find_last(coeffs, fixed, slots, order);
    if coeffs.len() <= last {
        choose_by_order(coeffs, fixed, slots, order, kept);
        return;
    }
    let taken = keep_to(coeffs, fixed, last, kept);
    if taken == slots {
        return;
    }
    choose_by_order(coeffs, fixed, slots, order, kept);
}
