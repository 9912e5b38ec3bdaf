// SPDX-FileCopyrightText: 2026 The PPVM Authors
// SPDX-License-Identifier: Apache-2.0

// What is laid once before the passes: positions in falling magnitude, and slots to find basis words and protected ones by. Nothing for an
// empty basis, which has no pass.
ghost use Rattle.std.specs.Prelude.{◌<◌};
ghost use Rattle.leakage.specs.Between.{BasisLent, BasisLaid};

use order::magnitudes::order_by_desc_mag;
use slots::lay_slots_of_both;
use word::flat::WORD_LANES;

// The table of nexts is at hand for the ordering until the slots are laid.
pub fn lay_basis(
    words: &[u64],
    coeffs: &[f64],
    len: usize,
    protected: &[u64],
    order: &mut [u64],
    heads: &mut [u64],
    nexts: &mut [u64],
)
    requires { 0 < len → BasisLent len words.now coeffs.now protected.now order.old heads.old nexts.old }
    ensures { 0 < len → BasisLaid len words.now coeffs.now protected.now order.new heads.new nexts.new }
{
    if len == 0 {
        return;
    }
    order_by_desc_mag(&coeffs[..len], &mut order[..len], &mut nexts[..len]);
    let both = len + protected.len() / WORD_LANES;
    lay_slots_of_both(
        &words[..len * WORD_LANES],
        protected,
        heads,
        &mut nexts[..both],
    );
}
