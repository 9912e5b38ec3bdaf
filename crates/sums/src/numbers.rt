// SPDX-FileCopyrightText: 2026 The PPVM Authors
// SPDX-License-Identifier: Apache-2.0

// Complex numbers in a lent table: a flat slice of f64, the real part first. The layers above read and
// write whole numbers and see a list of them.
ghost use Rattle.std.specs.Prelude.{◌≡◌, ◌+◌, ◌*◌, ◌≤◌, length, get_or};
ghost use Rattle.number.specs.Floats.{cx};
ghost use Rattle.sums.specs.Numbers.{complexes, no_number};
ghost use Rattle.sums.specs.Between.{LaysNumber};

use number::scalar::Complex;

pub fn complex_at(table: &[f64], i: usize) -> Complex
    requires { 2 * i + 2 ≤ length table.now }
    ensures { cx result ≡ get_or (complexes table.now) i no_number }
{
    let at = i * 2;
    Complex {
        re: table[at],
        im: table[at + 1],
    }
}

pub fn set_complex(table: &mut [f64], i: usize, c: Complex)
    requires { 2 * i + 2 ≤ length table.old }
    ensures { LaysNumber table.old i (cx c) table.new }
{
    let at = i * 2;
    table[at] = c.re;
    table[at + 1] = c.im;
}
