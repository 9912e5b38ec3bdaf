// SPDX-FileCopyrightText: 2026 The PPVM Authors
// SPDX-License-Identifier: Apache-2.0

// Terms in flat tables: a complex number onto a word.
ghost use Rattle.std.specs.Prelude.{◌≡◌, ◌+◌, ◌*◌, ◌≤◌, length};
ghost use Rattle.word.specs.Flat.{word_lanes};
ghost use Rattle.model.specs.Terms.{term_at};
ghost use Rattle.model.specs.Between.{onto};

use number::scalar::Complex;
use sums::numbers::complex_at;
use word::flat::word_at;
use word::word::Word;

// A complex number onto a word.
#[derive(Clone, Copy)]
pub struct Term {
    pub word: Word,
    pub number: Complex,
}

pub fn term_at(words: &[u64], numbers: &[f64], i: usize) -> Term
    requires { (word_lanes * i + word_lanes ≤ length words.now) × (2 * i + 2 ≤ length numbers.now) }
    ensures { onto result ≡ term_at words.now numbers.now i }
{
    Term {
        word: word_at(words, i),
        number: complex_at(numbers, i),
    }
}
