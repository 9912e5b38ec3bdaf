// SPDX-FileCopyrightText: 2026 The PPVM Authors
// SPDX-License-Identifier: Apache-2.0

// Whether a word is in a lent basis, by the slots of its words. The same word may stand in it twice.
ghost use Rattle.std.specs.Prelude.{◌≡◌, ◌*◌, ◌≤◌, length, take};
ghost use Rattle.word.specs.Flat.{words as words_in, word_lanes};
ghost use Rattle.order.specs.Places.{is_among};
ghost use Rattle.column_norm.specs.Between.{BasisSlots};

use slots::{has_word, lay_slots};
use word::flat::WORD_LANES;
use word::word::Word;

// Lays the slots of the first `len` words.
pub fn lay_basis(words: &[u64], len: usize, heads: &mut [u64], nexts: &mut [u64])
    requires { (word_lanes * len ≤ length words.now) × (len ≤ length heads.old) × (len ≤ length nexts.old) }
    ensures { BasisSlots words.now len heads.new nexts.new }
{
    lay_slots(&words[..len * WORD_LANES], heads, &mut nexts[..len]);
}

// Whether w is one of the first `len` words.
pub fn in_basis(words: &[u64], len: usize, heads: &[u64], nexts: &[u64], w: Word) -> bool
    requires { BasisSlots words.now len heads.now nexts.now }
    ensures { result ≡ is_among w (take len (words_in words.now)) }
{
    has_word(&words[..len * WORD_LANES], heads, &nexts[..len], w)
}
