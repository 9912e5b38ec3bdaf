// SPDX-FileCopyrightText: 2026 The PPVM Authors
// SPDX-License-Identifier: Apache-2.0

// Which positions of a basis stay: the fixed ones, and of the others the first in an order.
ghost use Rattle.std.specs.Prelude.{◌≡◌, map, length};
ghost use Rattle.keep.specs.Chosen.{flag_of, chosen};
ghost use Rattle.keep.specs.Between.{Below};

// A flag of 1 for each that is not 0.
pub fn copy_flags(flags: &[u64], kept: &mut [u64])
    requires { length kept.old ≡ length flags.now }
    ensures { kept.new ≡ map flag_of flags.now }
{
    for i in 0..flags.len() {
        kept[i] = u64::from(flags[i] != 0);
    }
}

// Flags the fixed positions, and those that are not fixed in the order given, until no slot is left.
pub fn choose_largest(order: &[u64], fixed: &[u64], slots: usize, kept: &mut [u64])
    requires { (length kept.old ≡ length fixed.now) × Below (length fixed.now) order.now }
    ensures { kept.new ≡ chosen order.now fixed.now slots }
{
    copy_flags(fixed, kept);
    let mut left = slots;
    for i in 0..order.len() {
        if left == 0 {
            return;
        }
        let p = order[i] as usize;
        if fixed[p] == 0 {
            kept[p] = 1;
            left -= 1;
        }
    }
}
