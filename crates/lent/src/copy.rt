// SPDX-FileCopyrightText: 2026 The PPVM Authors
// SPDX-License-Identifier: Apache-2.0

// A lent table copied over another of its length, element by element: `copy_from_slice` would make the library need
// memmove from outside.
ghost use Rattle.std.specs.Prelude.{◌≡◌, length};

pub fn copy_table<T>(from: &[T], to: &mut [T])
where
    T: Copy,
    requires { length to.old ≡ length from.now }
    ensures { to.new ≡ from.now }
{
    for k in 0..to.len() {
        to[k] = from[k];
    }
}
