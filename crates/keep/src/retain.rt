// SPDX-FileCopyrightText: 2026 The PPVM Authors
// SPDX-License-Identifier: Apache-2.0

// Entries of a lent basis kept by flags, in their order. Each moves down behind those kept before it,
// where the next one writes over it unless it is kept; so no branch waits for a flag. Every place past
// the kept ones becomes 0.
ghost use Rattle.std.specs.Prelude.{◌*◌, ◌≤◌, length};
ghost use Rattle.word.specs.Flat.{word_lanes};
ghost use Rattle.keep.specs.Between.{Retains};

use lent::clear::{clear_lanes, clear_numbers};
use word::flat::{WORD_LANES, set_word, word_at};

// Of the first `len` entries those stay whose flag is not 0: how many.
pub fn retain_in_place(words: &mut [u64], coeffs: &mut [f64], len: usize, kept: &[u64]) -> usize
    requires { (word_lanes * len ≤ length words.old) × (len ≤ length coeffs.old) × (len ≤ length kept.now) }
    ensures { Retains len kept.now words.old coeffs.old result words.new coeffs.new }
{
    let mut held = 0;
    for i in 0..len {
        let w = word_at(words, i);
        set_word(words, held, w);
        coeffs[held] = coeffs[i];
        held += usize::from(kept[i] != 0);
    }
    let end = held * WORD_LANES;
    clear_lanes(&mut words[end..]);
    clear_numbers(&mut coeffs[held..]);
    held
}
