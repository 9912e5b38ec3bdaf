// SPDX-FileCopyrightText: 2026 The PPVM Authors
// SPDX-License-Identifier: Apache-2.0

// The sums of an action whose real part is not 0: how many there are, and their list.
ghost use Rattle.std.specs.Prelude.{◌≡◌, ◌*◌, ◌≤◌, length};
ghost use Rattle.word.specs.Flat.{word_lanes};
ghost use Rattle.sums.specs.Sums.{sum_rows};
ghost use Rattle.action.specs.Acts.{listed};
ghost use Rattle.action.specs.Between.{ListRoom, Lists};

use model::term::term_at;
use number::scalar::is_zero;
use word::flat::set_word;

// How many of the first `len` sums are listed.
pub fn count_listed(words: &[u64], sums: &[f64], len: usize) -> usize
    requires { (word_lanes * len ≤ length words.now) × (2 * len ≤ length sums.now) }
    ensures { result ≡ length (listed (sum_rows len words.now sums.now)) }
{
    let mut count = 0;
    for i in 0..len {
        let t = term_at(words, sums, i);
        if !is_zero(t.number.re) {
            count += 1;
        }
    }
    count
}

// Lays their words and real parts one after another.
pub fn list_sums(
    words: &[u64],
    sums: &[f64],
    len: usize,
    out_words: &mut [u64],
    out_values: &mut [f64],
)
    requires { ListRoom len words.now sums.now out_words.old out_values.old }
    ensures { Lists (listed (sum_rows len words.now sums.now)) out_words.old out_values.old out_words.new out_values.new }
{
    let mut place = 0;
    for i in 0..len {
        let t = term_at(words, sums, i);
        let x = t.number.re;
        if is_zero(x) {
            continue;
        }
        let w = t.word;
        set_word(out_words, place, w);
        out_values[place] = x;
        place += 1;
    }
}
