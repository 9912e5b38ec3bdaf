// SPDX-FileCopyrightText: 2026 The PPVM Authors
// SPDX-License-Identifier: Apache-2.0

// The smaller and the larger of two sizes, what a limit leaves, and the numbers that 13 has for tables.
ghost use Rattle.std.specs.Prelude.{◌≡◌, ◌-◌, min, max};

// The words that one action touches.
pub const SUMS_TABLE: usize = 1;

// The list at hand: of entries, of leaked words, or the basis that admission appends to.
pub const LIST_TABLE: usize = 3;

pub fn smaller(a: usize, b: usize) -> usize
    ensures { result ≡ min a b }
{
    if a < b {
        return a;
    }
    b
}

pub fn larger(a: usize, b: usize) -> usize
    ensures { result ≡ max a b }
{
    if a < b {
        return b;
    }
    a
}

// What a limit leaves beside so many entries: 0 where they reach it.
pub fn room_left(limit: usize, held: usize) -> usize
    ensures { result ≡ limit - held }
{
    if limit < held {
        return 0;
    }
    limit - held
}
