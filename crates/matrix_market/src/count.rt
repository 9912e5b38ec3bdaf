// SPDX-FileCopyrightText: 2026 The PPVM Authors
// SPDX-License-Identifier: Apache-2.0

// A value as a whole count of 2^-32, nearest to its exact value, halves away from zero.
ghost use Rattle.std.specs.Prelude.{◌≡◌, false};
ghost use Rattle.matrix_market.specs.Counts.{too_large};
ghost use Rattle.matrix_market.specs.Between.{Counts};

use number::scalar::magnitude;
use std::num::truncating_f64_to_u64;

// A count without its sign; a minus sign stands only before a size that is not 0.
#[derive(Drop)]
pub struct Count {
    pub minus: bool,
    pub size: u64,
}

// 2^30, from which on a count is 2^62 or more.
const TOO_LARGE: f64 = 1073741824.0;

// 2^33: a value times this is its count in halves, and exact.
const HALF_COUNTS: f64 = 8589934592.0;

pub fn is_too_large(x: f64) -> bool
    ensures { result ≡ too_large x }
{
    if x < TOO_LARGE {
        let inside = -TOO_LARGE < x;
        return !inside;
    }
    true
}

// Whole halves and one more, halved: what is above half a count is taken for one.
pub fn count_of(x: f64) -> Count
    requires { too_large x ≡ false }
    ensures { Counts x result }
{
    let halves = truncating_f64_to_u64(magnitude(x) * HALF_COUNTS);
    let size = (halves + 1) / 2;
    if x < 0.0 {
        return Count {
            minus: 0 < size,
            size: size,
        };
    }
    Count {
        minus: false,
        size: size,
    }
}
