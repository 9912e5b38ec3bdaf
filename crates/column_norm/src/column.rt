// SPDX-FileCopyrightText: 2026 The PPVM Authors
// SPDX-License-Identifier: Apache-2.0

// Raw and diagonal of a column, from the sums of its word's action. The slots of the basis are laid before.
ghost use Rattle.std.specs.Prelude.{◌≡◌, ◌*◌, ◌≤◌, length, take};
ghost use Rattle.word.specs.Flat.{words as words_in, word_lanes};
ghost use Rattle.sums.specs.Sums.{sum_rows};
ghost use Rattle.action.specs.Acts.{listed};
ghost use Rattle.column_norm.specs.Between.{BasisSlots};
ghost use Rattle.column_norm.specs.Columns.{raw_of, diag_of};

use crate::basis::in_basis;
use model::term::term_at;
use number::scalar::{is_zero, magnitude};
use word::word::{Word, same_word};

// The magnitudes of those of the first `count` sums whose words are among the first `len` basis words,
// added in word order.
pub fn raw_of(
    sum_words: &[u64],
    sums: &[f64],
    count: usize,
    words: &[u64],
    len: usize,
    heads: &[u64],
    nexts: &[u64],
) -> f64
    requires { (word_lanes * count ≤ length sum_words.now) × (2 * count ≤ length sums.now) × BasisSlots words.now len heads.now nexts.now }
    ensures { result ≡ raw_of (take len (words_in words.now)) (listed (sum_rows count sum_words.now sums.now)) }
{
    let mut raw = 0.0;
    for i in 0..count {
        let t = term_at(sum_words, sums, i);
        let x = t.number.re;
        let w = t.word;
        if is_zero(x) {
            continue;
        }
        if in_basis(words, len, heads, nexts, w) {
            raw = raw + magnitude(x);
        }
    }
    raw
}

// The one onto a word, or 0.
pub fn diagonal_of(words: &[u64], sums: &[f64], len: usize, w: Word) -> f64
    requires { (word_lanes * len ≤ length words.now) × (2 * len ≤ length sums.now) }
    ensures { result ≡ diag_of w (listed (sum_rows len words.now sums.now)) }
{
    for i in 0..len {
        let t = term_at(words, sums, i);
        let x = t.number.re;
        let v = t.word;
        if is_zero(x) {
            continue;
        }
        if same_word(v, w) {
            return x;
        }
    }
    0.0
}
