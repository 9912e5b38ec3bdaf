// SPDX-FileCopyrightText: 2026 The PPVM Authors
// SPDX-License-Identifier: Apache-2.0

// What the Hamiltonian terms and the jumps of a model that passed its test add for a word p, put to the
// sums of a lent table item by item.
ghost use Rattle.std.specs.Prelude.{◌≡◌, false, map, ℕ, ◌*◌, ◌≤◌, ◌<◌, length};
ghost use Rattle.word.specs.Flat.{word_lanes};
ghost use Rattle.number.specs.Floats.{floats};
ghost use Rattle.gksl.specs.Rules.{terms_over};
ghost use Rattle.gksl.specs.Words.{pauli};
ghost use Rattle.model.specs.Stored.{ModelTables, jump_at};
ghost use Rattle.model.specs.Tested.{bad_jump};
ghost use Rattle.rule_terms.specs.Adds.{real_at, jump_adds, gather_jumps};
ghost use Rattle.rule_terms.specs.Sums.{SumsRoom, PutsAll};
ghost use Rattle.word.specs.Count.{up_to};

use crate::general::put_general;
use model::stored::{Jump, jump_at};
use rule_terms::accumulate::{put_hamiltonian, put_pauli};
use word::flat::word_at;
use word::word::Word;

// The Hamiltonian terms, to no sums yet.
pub fn put_reals(
    lanes: &mut [u64],
    sums: &mut [f64],
    room: usize,
    h_words: &[u64],
    h_coeffs: &[f64],
    count: usize,
    p: Word,
) -> Option<usize>
    requires { SumsRoom room 0 lanes.old sums.old × (word_lanes * count ≤ length h_words.now) × (count ≤ length h_coeffs.now) }
    ensures { (t : ModelTables) → (t.h_words ≡ h_words.now) → (t.h_coeffs ≡ h_coeffs.now) → PutsAll room 0 (terms_over floats pauli (map (real_at t) (up_to 0 count)) p) lanes.old sums.old lanes.new sums.new result }
{
    let mut held = 0;
    for i in 0..count {
        let h = word_at(h_words, i);
        let x = h_coeffs[i];
        let added = put_hamiltonian(lanes, sums, room, held, h, x, p);
        let Some(m) = added else {
            return None;
        };
        held = m;
    }
    Some(held)
}

// One jump whose ranges lie inside a terms table of so many places, where p may stand at `at`. A pair adds
// nothing here.
pub fn put_jump(
    lanes: &mut [u64],
    sums: &mut [f64],
    room: usize,
    len: usize,
    at: usize,
    jump: Jump,
    t_words: &[u64],
    t_numbers: &[f64],
    places: usize,
    p: Word,
) -> Option<usize>
    requires { SumsRoom room len lanes.old sums.old × (bad_jump places jump ≡ false) × (word_lanes * places ≤ length t_words.now) × (2 * places ≤ length t_numbers.now) }
    ensures { (t : ModelTables) → (t.t_words ≡ t_words.now) → (t.t_numbers ≡ t_numbers.now) → PutsAll room len (jump_adds p t jump) lanes.old sums.old lanes.new sums.new result }
{
    match jump {
        Jump::Pauli { rate, term } => {
            let w = word_at(t_words, term);
            put_pauli(lanes, sums, room, len, at, w, rate, p)
        }
        Jump::General {
            rate,
            terms,
            product,
        } => put_general(
            lanes, sums, room, len, at, t_words, t_numbers, rate, terms, product, p,
        ),
        Jump::Pair {
            left: _,
            right: _,
            factors: _,
            product: _,
        } => Some(len),
    }
}

// The jumps among the entries of the table of jumps and pairs.
pub fn put_jumps(
    lanes: &mut [u64],
    sums: &mut [f64],
    room: usize,
    len: usize,
    count: usize,
    jumps: &[u64],
    rates: &[f64],
    t_words: &[u64],
    t_numbers: &[f64],
    places: usize,
    p: Word,
) -> Option<usize>
    requires { SumsRoom room len lanes.old sums.old × (8 * count ≤ length jumps.now) × (count ≤ length rates.now) × (word_lanes * places ≤ length t_words.now) × (2 * places ≤ length t_numbers.now) × ((j : ℕ) → j < count → bad_jump places (jump_at jumps.now rates.now j) ≡ false) }
    ensures { (t : ModelTables) → (t.t_words ≡ t_words.now) → (t.t_numbers ≡ t_numbers.now) → PutsAll room len (gather_jumps (jump_adds p t) (map (jump_at jumps.now rates.now) (up_to 0 count))) lanes.old sums.old lanes.new sums.new result }
{
    let mut held = len;
    for j in 0..count {
        let jump = jump_at(jumps, rates, j);
        let added = put_jump(
            lanes, sums, room, held, 0, jump, t_words, t_numbers, places, p,
        );
        let Some(m) = added else {
            return None;
        };
        held = m;
    }
    Some(held)
}
