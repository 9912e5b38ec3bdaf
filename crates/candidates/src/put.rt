// SPDX-FileCopyrightText: 2026 The PPVM Authors
// SPDX-License-Identifier: Apache-2.0

// One entry put to the candidates: added to the sum where its word stands, or behind them all. They stand
// in the order in which they came; each sum is the one that an insertion in word order gives, bit for bit.
ghost use Rattle.candidates.specs.Tables.{candidate_rows, put_row};
ghost use Rattle.candidates.specs.Between.{in_word_order, Standing, Puts};

use crate::rows::lay_row;
use slots::{add_slot, last_place};
use word::flat::WORD_LANES;
use word::word::Word;

// How many stand then, of so many places; or that there is none for a new word.
pub fn put_candidate(
    words: &mut [u64],
    sums: &mut [f64],
    heads: &mut [u64],
    nexts: &mut [u64],
    n: usize,
    room: usize,
    w: Word,
    v: f64,
) -> Option<usize>
    requires { Standing room n words.old sums.old heads.old nexts.old }
    ensures { Puts room (put_row w v (in_word_order (candidate_rows n words.old sums.old))) words.new sums.new heads.new nexts.new result }
{
    let at = last_place(&words[..n * WORD_LANES], heads, &nexts[..n], w);
    if 0 < at {
        let q = at - 1;
        sums[q] = sums[q] + v;
        return Some(n);
    }
    if room <= n {
        return None;
    }
    lay_row(words, sums, n, w, 0.0 + v);
    add_slot(heads, nexts, n, w);
    Some(n + 1)
}
