// SPDX-FileCopyrightText: 2026 The PPVM Authors
// SPDX-License-Identifier: Apache-2.0

// Words in a lent table: a flat slice of lanes, x lanes first. The layers above read and write whole
// words and see a list of words.
ghost use Rattle.std.specs.Prelude.{◌≡◌, ◌+◌, ◌*◌, ◌≤◌, length, get_or};
ghost use Rattle.word.specs.Word.{identity};
ghost use Rattle.word.specs.Flat.{word_lanes, words};
ghost use Rattle.word.specs.Between.{LaysWord};

use crate::word::{LANES, Word};

// The lanes of one word: those of x and those of z.
pub const WORD_LANES: usize = 2 * LANES;

pub fn word_at(table: &[u64], i: usize) -> Word
    requires { word_lanes * i + word_lanes ≤ length table.now }
    ensures { result ≡ get_or (words table.now) i identity }
{
    let at = i * WORD_LANES;
    Word {
        x: [table[at], table[at + 1], table[at + 2], table[at + 3]],
        z: [table[at + 4], table[at + 5], table[at + 6], table[at + 7]],
    }
}

pub fn set_word(table: &mut [u64], i: usize, w: Word)
    requires { word_lanes * i + word_lanes ≤ length table.old }
    ensures { LaysWord table.old i w table.new }
{
    let at = i * WORD_LANES;
    let x = w.x;
    let z = w.z;
    table[at] = x[0];
    table[at + 1] = x[1];
    table[at + 2] = x[2];
    table[at + 3] = x[3];
    table[at + 4] = z[0];
    table[at + 5] = z[1];
    table[at + 6] = z[2];
    table[at + 7] = z[3];
}
