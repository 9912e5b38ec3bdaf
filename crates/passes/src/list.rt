// SPDX-FileCopyrightText: 2026 The PPVM Authors
// SPDX-License-Identifier: Apache-2.0

// The candidates whose sum is above a threshold in magnitude: how many there are, and their list, in the order of positions
// given.
ghost use Rattle.std.specs.Prelude.{◌≡◌, ◌*◌, ◌≤◌, length, set};
ghost use Rattle.word.specs.Flat.{lay_word, word_lanes};
ghost use Rattle.lent.specs.Laid.{laid};
ghost use Rattle.passes.specs.Leaks.{above, words_of, sums_of};
ghost use Rattle.passes.specs.Between.{rows_at, Placed};

use limits::is_above;
use word::flat::{set_word, word_at};

// How many are listed.
pub fn count_above(words: &[u64], sums: &[f64], order: &[u64], tau_add: f64) -> usize
    requires { Placed words.now sums.now order.now }
    ensures { result ≡ length (above tau_add (rows_at words.now sums.now order.now)) }
{
    let mut count = 0;
    for i in 0..order.len() {
        let p = order[i] as usize;
        if is_above(sums[p], tau_add) {
            count += 1;
        }
    }
    count
}

// Lays their words and sums one after another.
pub fn list_above(
    words: &[u64],
    sums: &[f64],
    order: &[u64],
    tau_add: f64,
    out_words: &mut [u64],
    out_values: &mut [f64],
)
    requires { Placed words.now sums.now order.now × (word_lanes * length (above tau_add (rows_at words.now sums.now order.now)) ≤ length out_words.old) × (length (above tau_add (rows_at words.now sums.now order.now)) ≤ length out_values.old) }
    ensures { (out_words.new ≡ laid lay_word 0 (words_of (above tau_add (rows_at words.now sums.now order.now))) out_words.old) × (out_values.new ≡ laid set 0 (sums_of (above tau_add (rows_at words.now sums.now order.now))) out_values.old) }
{
    let mut place = 0;
    for i in 0..order.len() {
        let p = order[i] as usize;
        let x = sums[p];
        if is_above(x, tau_add) {
            let w = word_at(words, p);
            set_word(out_words, place, w);
            out_values[place] = x;
            place += 1;
        }
    }
}
