// SPDX-FileCopyrightText: 2026 The PPVM Authors
// SPDX-License-Identifier: Apache-2.0

// Lent tables set to 0, each over its whole length.
ghost use Rattle.std.specs.Prelude.{◌≡◌, length, replicate};
ghost use Rattle.number.specs.Floats.{float0};

pub fn clear_lanes(t: &mut [u64])
    ensures { t.new ≡ replicate (length t.old) 0 }
{
    t.fill(0);
}

pub fn clear_numbers(t: &mut [f64])
    ensures { t.new ≡ replicate (length t.old) float0 }
{
    t.fill(0.0);
}
