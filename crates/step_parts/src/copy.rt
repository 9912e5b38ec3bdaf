// SPDX-FileCopyrightText: 2026 The PPVM Authors
// SPDX-License-Identifier: Apache-2.0

// The basis copied for a step, and handed over in the end.
ghost use Rattle.std.specs.Prelude.{◌≡◌, ◌++◌, ◌*◌, ◌≤◌, length, take, drop};
ghost use Rattle.word.specs.Flat.{word_lanes, words as words_in};

use lent::copy::copy_table;
use word::flat::WORD_LANES;

// The first n lanes of a table over those of another.
fn copy_lanes(from: &[u64], n: usize, to: &mut [u64])
    requires { (n ≤ length from.now) × (n ≤ length to.old) }
    ensures { to.new ≡ take n from.now ++ drop n to.old }
{
    copy_table(&from[..n], &mut to[..n]);
}

fn copy_first(from: &[f64], n: usize, to: &mut [f64])
    requires { (n ≤ length from.now) × (n ≤ length to.old) }
    ensures { to.new ≡ take n from.now ++ drop n to.old }
{
    copy_table(&from[..n], &mut to[..n]);
}

// The first len words and numbers of a basis.
pub fn copy_basis(
    words: &[u64],
    coeffs: &[f64],
    len: usize,
    to_words: &mut [u64],
    to_coeffs: &mut [f64],
)
    requires { (word_lanes * len ≤ length words.now) × (len ≤ length coeffs.now) × (word_lanes * len ≤ length to_words.old) × (len ≤ length to_coeffs.old) }
    ensures { (to_words.new ≡ take (word_lanes * len) words.now ++ drop (word_lanes * len) to_words.old) × (to_coeffs.new ≡ take len coeffs.now ++ drop len to_coeffs.old) }
{
    copy_lanes(words, WORD_LANES * len, to_words);
    copy_first(coeffs, len, to_coeffs);
}

// The given basis copied: its words, the numbers that evolutions start from, and those that it has.
pub fn copy_given(
    words: &[u64],
    coeffs: &[f64],
    len: usize,
    grown_words: &mut [u64],
    start: &mut [f64],
    evolved: &mut [f64],
)
    requires { (word_lanes * len ≤ length words.now) × (len ≤ length coeffs.now) × (word_lanes * len ≤ length grown_words.old) × (len ≤ length start.old) × (len ≤ length evolved.old) }
    ensures { (take len (words_in grown_words.new) ≡ take len (words_in words.now)) × (take len start.new ≡ take len coeffs.now) × (take len evolved.new ≡ take len coeffs.now) }
{
    copy_basis(words, coeffs, len, grown_words, start);
    copy_first(coeffs, len, evolved);
}
