// SPDX-FileCopyrightText: 2026 The PPVM Authors
// SPDX-License-Identifier: Apache-2.0

// A lent list of words: how many there may be, and the first that is outside its register.
ghost use Rattle.std.specs.Prelude.{◌≡◌, ◌*◌, ◌≤◌, length};
ghost use Rattle.word.specs.Flat.{word_lanes};
ghost use Rattle.lent.specs.Tests.{first_to};
ghost use Rattle.lent.specs.Words.{outside_at};

use word::flat::word_at;
use word::word::reaches_beyond;

pub const MAX_WORDS: usize = 65_536;

// The first of so many positions whose word has a bit at or above qubit n; their number where there is
// none.
pub fn first_outside(words: &[u64], count: usize, n: usize) -> usize
    requires { word_lanes * count ≤ length words.now }
    ensures { result ≡ first_to count (outside_at words.now n) }
{
    for k in 0..count {
        if reaches_beyond(word_at(words, k), n) {
            return k;
        }
    }
    count
}
