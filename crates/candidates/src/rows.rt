// SPDX-FileCopyrightText: 2026 The PPVM Authors
// SPDX-License-Identifier: Apache-2.0

// Rows of a lent table: a word, and a sum beside it.
ghost use Rattle.std.specs.Prelude.{◌≡◌, ◌+◌, ◌*◌, ◌≤◌, ◌<◌, length, set};
ghost use Rattle.word.specs.Flat.{word_lanes, words};

use word::flat::set_word;
use word::word::Word;

// Lays a row at k.
pub fn lay_row(out: &mut [u64], sums: &mut [f64], k: usize, w: Word, x: f64)
    requires { (word_lanes * k + word_lanes ≤ length out.old) × (k < length sums.old) }
    ensures { (words out.new ≡ set (words out.old) k w) × (sums.new ≡ set sums.old k x) }
{
    set_word(out, k, w);
    sums[k] = x;
}
