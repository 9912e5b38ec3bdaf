// SPDX-FileCopyrightText: 2026 The PPVM Authors
// SPDX-License-Identifier: Apache-2.0

// The first sum in word order that is not finite: its word is the lowest of those beside such sums, and its place is
// the number of words before that one.
ghost use Rattle.std.specs.Prelude.{◌≡◌, false, ◌*◌, ◌<◌, length, get_or};
ghost use Rattle.std.specs.Float.{nan};
ghost use Rattle.word.specs.Flat.{word_lanes, words as words_in};
ghost use Rattle.word.specs.Order.{before};
ghost use Rattle.number.specs.Floats.{is_finite};
ghost use Rattle.candidates.specs.Between.{those, LowestBad, BadPlace};

use number::scalar::is_finite;
use word::flat::{WORD_LANES, word_at};
use word::word::{Word, is_before};

// The row with the lowest word of those whose sum is not finite; there is one, at `bad`.
fn lowest_bad(words: &[u64], sums: &[f64], bad: usize) -> usize
    requires { (length words.now ≡ word_lanes * length sums.now) × (bad < length sums.now) × (is_finite (get_or sums.now bad nan) ≡ false) }
    ensures { LowestBad (length sums.now) (words_in words.now) sums.now result }
{
    let mut q = bad;
    for i in 0..sums.len() {
        if is_finite(sums[i]) {
            continue;
        }
        let v = word_at(words, i);
        let w = word_at(words, q);
        if is_before(v, w) {
            q = i;
        }
    }
    q
}

fn count_before(words: &[u64], w: Word) -> usize
    ensures { result ≡ length (those (λ v. before v w) (words_in words.now)) }
{
    let n = words.len() / WORD_LANES;
    let mut count = 0;
    for i in 0..n {
        let v = word_at(words, i);
        if is_before(v, w) {
            count += 1;
        }
    }
    count
}

// The place in word order of the first sum that is not finite; `bad` is the place of one as they stand.
pub fn place_of_bad(words: &[u64], sums: &[f64], bad: usize) -> usize
    requires { (length words.now ≡ word_lanes * length sums.now) × (bad < length sums.now) × (is_finite (get_or sums.now bad nan) ≡ false) }
    ensures { BadPlace (length sums.now) (words_in words.now) sums.now result }
{
    let q = lowest_bad(words, sums, bad);
    let w = word_at(words, q);
    count_before(words, w)
}
