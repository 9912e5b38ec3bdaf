// SPDX-FileCopyrightText: 2026 The PPVM Authors
// SPDX-License-Identifier: Apache-2.0

// The index of a model that passed its test: which Hamiltonian terms, and which jumps and pairs, have a
// word that acts on a qubit. Each index is lent 64 lanes for each qubit, and its rows have as many as its
// items need.
ghost use Rattle.std.specs.Prelude.{◌≡◌, false, ℕ, ◌*◌, ◌≤◌, ◌<◌, length};
ghost use Rattle.word.specs.Flat.{word_lanes};
ghost use Rattle.index.specs.Index.{row_lanes, Indexed, Marks};
ghost use Rattle.model.specs.Stored.{ModelTables, jump_at};
ghost use Rattle.model.specs.Tested.{bad_jump};
ghost use Rattle.rules_by_index.specs.Near.{words_of, jump_words, real_items, jump_items, ModelIndexed};

use index::{mark_word, row_lanes};
use lent::clear::clear_lanes;
use model::stored::{Jump, Model, Range, jump_at};
use word::flat::word_at;

// Adds the words of a range of the terms table to item j.
fn mark_range(index: &mut [u64], row: usize, n: usize, j: usize, t_words: &[u64], range: Range)
    requires { (64 * n ≤ length index.old) × (row ≤ 64) × (j < row * 64) × (range.start ≤ range.end) × (word_lanes * range.end ≤ length t_words.now) }
    ensures { Marks row n j (words_of t_words.now range) index.old index.new }
{
    for i in range.start..range.end {
        let w = word_at(t_words, i);
        mark_word(index, row, n, j, w);
    }
}

// Adds the words of a jump or a pair, whose ranges lie inside a terms table of so many places.
fn mark_jump(
    index: &mut [u64],
    row: usize,
    n: usize,
    j: usize,
    jump: Jump,
    t_words: &[u64],
    places: usize,
)
    requires { (64 * n ≤ length index.old) × (row ≤ 64) × (j < row * 64) × (bad_jump places jump ≡ false) × (word_lanes * places ≤ length t_words.now) }
    ensures { Marks row n j (jump_words t_words.now jump) index.old index.new }
{
    match jump {
        Jump::Pauli { rate: _, term } => {
            let w = word_at(t_words, term);
            mark_word(index, row, n, j, w);
        }
        Jump::General {
            rate: _,
            terms,
            product: _,
        } => {
            mark_range(index, row, n, j, t_words, terms);
        }
        Jump::Pair {
            left,
            right,
            factors: _,
            product: _,
        } => {
            mark_range(index, row, n, j, t_words, left);
            mark_range(index, row, n, j, t_words, right);
        }
    }
}

// The index of the Hamiltonian terms.
pub fn index_reals(index: &mut [u64], n: usize, h_words: &[u64], count: usize)
    requires { (64 * n ≤ length index.old) × (count ≤ 4096) × (word_lanes * count ≤ length h_words.now) }
    ensures { Indexed (row_lanes count) n (real_items h_words.now count) index.new }
{
    let row = row_lanes(count);
    clear_lanes(index);
    for i in 0..count {
        let h = word_at(h_words, i);
        mark_word(index, row, n, i, h);
    }
}

// The index of the jumps and pairs.
pub fn index_jumps(
    index: &mut [u64],
    n: usize,
    count: usize,
    jumps: &[u64],
    rates: &[f64],
    t_words: &[u64],
    places: usize,
)
    requires { (64 * n ≤ length index.old) × (count ≤ 4096) × (8 * count ≤ length jumps.now) × (count ≤ length rates.now) × (word_lanes * places ≤ length t_words.now) × ((j : ℕ) → j < count → bad_jump places (jump_at jumps.now rates.now j) ≡ false) }
    ensures { Indexed (row_lanes count) n (jump_items jumps.now rates.now t_words.now count) index.new }
{
    let row = row_lanes(count);
    clear_lanes(index);
    for j in 0..count {
        let jump = jump_at(jumps, rates, j);
        mark_jump(index, row, n, j, jump, t_words, places);
    }
}

// The index of a model for the actions on so many words: none is made for no words, which read none.
pub fn index_model(
    h_index: &mut [u64],
    j_index: &mut [u64],
    m: Model,
    h_words: &[u64],
    jumps: &[u64],
    rates: &[f64],
    t_words: &[u64],
    words: usize,
)
    requires { 0 < words → (64 * m.qubits ≤ length h_index.old) × (64 * m.qubits ≤ length j_index.old) × (m.hamiltonian ≤ 4096) × (m.jumps ≤ 4096) × (word_lanes * m.hamiltonian ≤ length h_words.now) × (8 * m.jumps ≤ length jumps.now) × (m.jumps ≤ length rates.now) × (word_lanes * m.terms ≤ length t_words.now) × ((j : ℕ) → j < m.jumps → bad_jump m.terms (jump_at jumps.now rates.now j) ≡ false) }
    ensures { 0 < words → (t : ModelTables) → (t.h_words ≡ h_words.now) → (t.jumps ≡ jumps.now) → (t.rates ≡ rates.now) → (t.t_words ≡ t_words.now) → ModelIndexed m t h_index.new j_index.new }
{
    if words == 0 {
        return;
    }
    let n = m.qubits;
    let reals = m.hamiltonian;
    let count = m.jumps;
    let places = m.terms;
    index_reals(h_index, n, h_words, reals);
    index_jumps(j_index, n, count, jumps, rates, t_words, places);
}
