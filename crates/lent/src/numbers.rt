// SPDX-FileCopyrightText: 2026 The PPVM Authors
// SPDX-License-Identifier: Apache-2.0

// A lent table of numbers: the first that is not finite.
ghost use Rattle.std.specs.Prelude.{◌≡◌, ◌≤◌, length};
ghost use Rattle.lent.specs.Tests.{first_to};
ghost use Rattle.lent.specs.Numbers.{not_finite};

use number::scalar::is_finite;

// The first of so many places whose number is not finite; their number where there is none.
pub fn first_not_finite(numbers: &[f64], count: usize) -> usize
    requires { count ≤ length numbers.now }
    ensures { result ≡ first_to count (not_finite numbers.now) }
{
    for k in 0..count {
        if !is_finite(numbers[k]) {
            return k;
        }
    }
    count
}
