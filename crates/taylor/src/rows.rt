// SPDX-FileCopyrightText: 2026 The PPVM Authors
// SPDX-License-Identifier: Apache-2.0

// Numbers laid over a table row by row, as far as they are finite: how many rows that is.
ghost use Rattle.std.specs.Prelude.{◌≡◌, length};
ghost use Rattle.taylor.specs.Stages.{scaled, added};
ghost use Rattle.taylor.specs.Between.{Sweeps};

use number::scalar::is_finite;

// A product times a factor, over b.
pub fn scale_rows(product: &[f64], factor: f64, b: &mut [f64]) -> usize
    requires { length product.now ≡ length b.old }
    ensures { Sweeps (scaled factor product.now) b.old result b.new }
{
    for k in 0..b.len() {
        let x = product[k] * factor;
        if !is_finite(x) {
            return k;
        }
        b[k] = x;
    }
    b.len()
}

// v + b, over v.
pub fn add_rows(b: &[f64], v: &mut [f64]) -> usize
    requires { length v.old ≡ length b.now }
    ensures { Sweeps (added v.old b.now) v.old result v.new }
{
    for k in 0..v.len() {
        let x = v[k] + b[k];
        if !is_finite(x) {
            return k;
        }
        v[k] = x;
    }
    v.len()
}
