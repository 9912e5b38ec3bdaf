// SPDX-FileCopyrightText: 2026 The PPVM Authors
// SPDX-License-Identifier: Apache-2.0

// What a run may take in: its word limits and the threshold of what it lists, their tests, and the defaults of
// what is not given.
#![tactic(auto)]

ghost use Rattle.std.specs.Prelude.{◌≡◌, ◌-◌};
ghost use Rattle.limits.specs.Defaults.{limit_of, tau_of, is_above, limit_tests, tau_tests};

use lent::sizes::{larger, room_left};
use lent::words::MAX_WORDS;
use number::scalar::{is_finite, magnitude};
use refusal::Refusal;

// max_basis, and beside it an admit_basis and a tau_add; each of the two counts where the number before
// it is not 0.
#[repr(C)]
#[derive(Clone, Copy)]
pub struct Limits {
    pub max_basis: usize,
    pub admit_given: u64,
    pub admit_basis: usize,
    pub tau_given: u64,
    pub tau_add: f64,
}

// What room counts against: admit_basis, raised to max_basis where it is absent or less.
pub fn word_limit(limits: Limits) -> usize
    ensures { result ≡ limit_of limits }
{
    if limits.admit_given == 0 {
        return limits.max_basis;
    }
    larger(limits.max_basis, limits.admit_basis)
}

// Room for words beside so many in the basis.
pub fn word_room(limits: Limits, len: usize) -> usize
    ensures { result ≡ limit_of limits - len }
{
    let limit = word_limit(limits);
    room_left(limit, len)
}

// The threshold where none is given, 2^-40: sums at rounding level are not listed.
const ABSENT_TAU: f64 = 9.094947017729282379150390625e-13;

pub fn threshold(limits: Limits) -> f64
    ensures { result ≡ tau_of limits }
{
    if limits.tau_given == 0 {
        return ABSENT_TAU;
    }
    limits.tau_add
}

// Whether a sum is above the threshold in magnitude.
pub fn is_above(x: f64, tau_add: f64) -> bool
    ensures { result ≡ is_above tau_add x }
{
    let size = magnitude(x);
    tau_add < size
}

// 8 for a word limit.
pub fn check_limits(limits: Limits) -> Result<(), Refusal>
    ensures { result ≡ limit_tests limits }
{
    if MAX_WORDS < limits.max_basis {
        return Err(Refusal::CountAboveLimit {
            count: limits.max_basis,
        });
    }
    if limits.admit_given == 0 {
        return Ok(());
    }
    if MAX_WORDS < limits.admit_basis {
        return Err(Refusal::CountAboveLimit {
            count: limits.admit_basis,
        });
    }
    Ok(())
}

// 7 for a threshold, behind so many coefficients.
pub fn check_threshold(limits: Limits, count: usize) -> Result<(), Refusal>
    ensures { result ≡ tau_tests count limits }
{
    if limits.tau_given == 0 {
        return Ok(());
    }
    let finite = is_finite(limits.tau_add);
    if !finite {
        return Err(Refusal::NumberOutOfRange { index: count });
    }
    Ok(())
}
