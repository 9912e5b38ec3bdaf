// SPDX-FileCopyrightText: 2026 The PPVM Authors
// SPDX-License-Identifier: Apache-2.0

// Numbers in decimal: how many digits they have, and their digits in a lent table of bytes.
ghost use Rattle.std.specs.Prelude.{◌≡◌, ◌+◌, ◌≤◌, length, slice_set};
ghost use Rattle.lent.specs.Laid.{laid};
ghost use Rattle.matrix_market.specs.Text.{natural, field};

pub fn digits_of(n: u64) -> usize
    ensures { result ≡ length (natural n) }
{
    if n < 10 {
        return 1;
    }
    digits_of(n / 10) + 1
}

// The digits of n from a place on, and the place after them.
fn write_natural(n: u64, text: &mut [u8], at: usize) -> usize
    requires { at + length (natural n) ≤ length text.old }
    ensures { (text.new ≡ laid slice_set at (natural n) text.old) × (result ≡ at + length (natural n)) }
{
    if n < 10 {
        text[at] = 48 + n as u8;
        return at + 1;
    }
    let last = write_natural(n / 10, text, at);
    text[last] = 48 + (n % 10) as u8;
    last + 1
}

// The same with a byte after them.
pub fn write_field(n: u64, after: u8, text: &mut [u8], at: usize) -> usize
    requires { at + length (field after n) ≤ length text.old }
    ensures { (text.new ≡ laid slice_set at (field after n) text.old) × (result ≡ at + length (field after n)) }
{
    let end = write_natural(n, text, at);
    text[end] = after;
    end + 1
}
