// SPDX-FileCopyrightText: 2026 The PPVM Authors
// SPDX-License-Identifier: Apache-2.0

// Words taken into a lent basis: listed ones, by flags, appended in listed order with coefficient 0.
ghost use Rattle.std.specs.Prelude.{◌≡◌, ◌+◌, ◌≤◌, length, take};
ghost use Rattle.keep.specs.Retained.{flagged};
ghost use Rattle.keep.specs.Admitted.{appended_lanes, picked};
ghost use Rattle.keep.specs.Between.{AdmitRoom, Admits};

use lent::clear::clear_numbers;
use word::flat::{set_word, word_at};

fn append_words(words: &mut [u64], len: usize, list: &[u64], count: usize, kept: &[u64]) -> usize
    requires { AdmitRoom len count list.now kept.now words.old }
    ensures { (result ≡ len + flagged (take count kept.now)) × (words.new ≡ appended_lanes len (picked count kept.now list.now) words.old) }
{
    let mut at = len;
    for i in 0..count {
        if kept[i] == 0 {
            continue;
        }
        let w = word_at(list, i);
        set_word(words, at, w);
        at += 1;
    }
    at
}

// Appends the first `count` listed words whose flag is not 0 after the first `len` entries: the new
// length.
pub fn append_chosen(
    words: &mut [u64],
    coeffs: &mut [f64],
    len: usize,
    list: &[u64],
    count: usize,
    kept: &[u64],
) -> usize
    requires { AdmitRoom len count list.now kept.now words.old × (len + flagged (take count kept.now) ≤ length coeffs.old) }
    ensures { Admits len count list.now kept.now words.old coeffs.old result words.new coeffs.new }
{
    let end = append_words(words, len, list, count, kept);
    clear_numbers(&mut coeffs[len..end]);
    end
}
