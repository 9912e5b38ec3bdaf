// SPDX-FileCopyrightText: 2026 The PPVM Authors
// SPDX-License-Identifier: Apache-2.0

// Which rows stay beside one that is the last to stay: the larger ones, and of those as large the ones whose word
// is not later. Where rows stand does not matter.
ghost use Rattle.std.specs.Prelude.{◌≡◌, ◌*◌, ◌≤◌, ◌<◌, length};
ghost use Rattle.word.specs.Flat.{word_lanes, words as words_in};
ghost use Rattle.candidates.specs.Sums.{row};
ghost use Rattle.candidates.specs.Tables.{rows, candidate_rows};
ghost use Rattle.candidates.specs.Between.{row_at, those, stays_beside};

use crate::rows::lay_row;
use number::scalar::magnitude;
use word::flat::word_at;
use word::word::{Word, is_before};

// Words are looked at only where magnitudes are the same.
fn stays_at(words: &[u64], sums: &[f64], i: usize, last: Word, y: f64) -> bool
    requires { (length words.now ≡ word_lanes * length sums.now) × (i < length sums.now) }
    ensures { result ≡ stays_beside (row last y) (row_at (words_in words.now) sums.now i) }
{
    let size = magnitude(sums[i]);
    let cut = magnitude(y);
    if size < cut {
        return false;
    }
    if cut < size {
        return true;
    }
    let w = word_at(words, i);
    let later = is_before(last, w);
    !later
}

// How many stay beside the row of a word and a sum.
pub fn count_beside(words: &[u64], sums: &[f64], last: Word, y: f64) -> usize
    requires { length words.now ≡ word_lanes * length sums.now }
    ensures { result ≡ length (those (stays_beside (row last y)) (rows (words_in words.now) sums.now)) }
{
    let mut count = 0;
    for i in 0..sums.len() {
        if stays_at(words, sums, i, last, y) {
            count += 1;
        }
    }
    count
}

// Moves those that stay to the front, in the order in which they stand: how many.
pub fn retain_beside(words: &mut [u64], sums: &mut [f64], last: Word, y: f64) -> usize
    requires { length words.old ≡ word_lanes * length sums.old }
    ensures { (result ≤ length sums.old) × (candidate_rows result words.new sums.new ≡ those (stays_beside (row last y)) (rows (words_in words.old) sums.old)) }
{
    let mut held = 0;
    for i in 0..sums.len() {
        if stays_at(words, sums, i, last, y) {
            let w = word_at(words, i);
            let x = sums[i];
            lay_row(words, sums, held, w, x);
            held += 1;
        }
    }
    held
}
