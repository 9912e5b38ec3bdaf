// SPDX-FileCopyrightText: 2026 The PPVM Authors
// SPDX-License-Identifier: Apache-2.0

// All that a model that passed its test adds for a word p, by the items alone that share a qubit with p:
// the Hamiltonian terms, then the jumps, then the pairs, each in their order. Items that share none add
// nothing, so this is what `rules` puts.
ghost use Rattle.std.specs.Prelude.{◌≡◌, false, [], ◌++◌, map, ℕ, ◌*◌, ◌≤◌, ◌<◌, length};
ghost use Rattle.word.specs.Flat.{word_lanes};
ghost use Rattle.word.specs.Register.{reaches};
ghost use Rattle.number.specs.Floats.{floats};
ghost use Rattle.gksl.specs.Rules.{terms_over};
ghost use Rattle.gksl.specs.Words.{pauli};
ghost use Rattle.index.specs.Visit.{flagged, AllBelow};
ghost use Rattle.model.specs.Stored.{ModelTables, jump_at};
ghost use Rattle.model.specs.Tested.{test_model, bad_jump};
ghost use Rattle.rule_terms.specs.Adds.{real_at, jump_adds, pair_adds, gather_jumps, rules_stored};
ghost use Rattle.rules_by_index.specs.Near.{pair_met, ModelIndexed};
ghost use Rattle.rule_terms.specs.Sums.{SumsRoom, PutsAll};
ghost use Rattle.model.specs.Between.{model_tables};

use index::{row_lanes, start, step, union_rows};
use model::stored::{Jump, Model, jump_at};
use rule_terms::accumulate::put_hamiltonian;
use rules_by_scan::items::put_jump;
use rules_by_scan::pairs::put_pair_entry;
use sums::sums::find_at;
use word::flat::word_at;
use word::word::Word;

// The Hamiltonian terms at the set bits of a mask, to no sums yet.
fn put_reals_near(
    lanes: &mut [u64],
    sums: &mut [f64],
    room: usize,
    h_words: &[u64],
    h_coeffs: &[f64],
    count: usize,
    mask: &[u64],
    row: usize,
    p: Word,
) -> Option<usize>
    requires { SumsRoom room 0 lanes.old sums.old × (word_lanes * count ≤ length h_words.now) × (count ≤ length h_coeffs.now) × (64 ≤ length mask.now) × (0 < row) × (row ≤ 64) × AllBelow count (flagged row mask.now 0) }
    ensures { (t : ModelTables) → (t.h_words ≡ h_words.now) → (t.h_coeffs ≡ h_coeffs.now) → PutsAll room 0 (terms_over floats pauli (map (real_at t) (flagged row mask.now 0)) p) lanes.old sums.old lanes.new sums.new result }
{
    let mut held = 0;
    let mut c = start(mask, row);
    // By `step`, from one set bit of the mask to the next.
    loop {
        let s = step(mask, row, c);
        let Some((i, d)) = s else {
            return Some(held);
        };
        let h = word_at(h_words, i);
        let x = h_coeffs[i];
        let added = put_hamiltonian(lanes, sums, room, held, h, x, p);
        let Some(m) = added else {
            return None;
        };
        held = m;
        c = d;
    }
}

// The pairs among the entries at the set bits of a mask.
fn put_pairs_near(
    lanes: &mut [u64],
    sums: &mut [f64],
    room: usize,
    len: usize,
    count: usize,
    jumps: &[u64],
    rates: &[f64],
    t_words: &[u64],
    t_numbers: &[f64],
    places: usize,
    mask: &[u64],
    row: usize,
    p: Word,
) -> Option<usize>
    requires { SumsRoom room len lanes.old sums.old × (8 * count ≤ length jumps.now) × (count ≤ length rates.now) × (word_lanes * places ≤ length t_words.now) × (2 * places ≤ length t_numbers.now) × ((j : ℕ) → j < count → bad_jump places (jump_at jumps.now rates.now j) ≡ false) × (64 ≤ length mask.now) × (0 < row) × (row ≤ 64) × AllBelow count (flagged row mask.now 0) }
    ensures { (t : ModelTables) → (t.t_words ≡ t_words.now) → (t.t_numbers ≡ t_numbers.now) → PutsAll room len (gather_jumps (pair_adds p t) (map (jump_at jumps.now rates.now) (flagged row mask.now 0))) lanes.old sums.old lanes.new sums.new result }
{
    let mut held = len;
    let mut c = start(mask, row);
    // By `step`, from one set bit of the mask to the next.
    loop {
        let s = step(mask, row, c);
        let Some((j, d)) = s else {
            return Some(held);
        };
        let jump = jump_at(jumps, rates, j);
        let added = put_pair_entry(lanes, sums, room, held, jump, t_words, t_numbers, places, p);
        let Some(m) = added else {
            return None;
        };
        held = m;
        c = d;
    }
}

// The pairs among them, where there may be any: no walk for none.
fn put_pairs_met(
    lanes: &mut [u64],
    sums: &mut [f64],
    room: usize,
    len: usize,
    count: usize,
    jumps: &[u64],
    rates: &[f64],
    t_words: &[u64],
    t_numbers: &[f64],
    places: usize,
    mask: &[u64],
    row: usize,
    p: Word,
    met: bool,
) -> Option<usize>
    requires { SumsRoom room len lanes.old sums.old × (8 * count ≤ length jumps.now) × (count ≤ length rates.now) × (word_lanes * places ≤ length t_words.now) × (2 * places ≤ length t_numbers.now) × ((j : ℕ) → j < count → bad_jump places (jump_at jumps.now rates.now j) ≡ false) × (64 ≤ length mask.now) × (0 < row) × (row ≤ 64) × AllBelow count (flagged row mask.now 0) × (met ≡ false → (t : ModelTables) → gather_jumps (pair_adds p t) (map (jump_at jumps.now rates.now) (flagged row mask.now 0)) ≡ []) }
    ensures { (t : ModelTables) → (t.t_words ≡ t_words.now) → (t.t_numbers ≡ t_numbers.now) → PutsAll room len (gather_jumps (pair_adds p t) (map (jump_at jumps.now rates.now) (flagged row mask.now 0))) lanes.old sums.old lanes.new sums.new result }
{
    if !met {
        return Some(len);
    }
    put_pairs_near(
        lanes, sums, room, len, count, jumps, rates, t_words, t_numbers, places, mask, row, p,
    )
}

// Whether a pair was met, after one more entry.
fn pair_met(met: bool, jump: Jump) -> bool
    ensures { result ≡ pair_met met jump }
{
    match jump {
        Jump::Pauli { rate: _, term: _ } => met,
        Jump::General {
            rate: _,
            terms: _,
            product: _,
        } => met,
        Jump::Pair {
            left: _,
            right: _,
            factors: _,
            product: _,
        } => true,
    }
}

// The jumps among the entries at the set bits of a mask, then the pairs. p is put again and again, so its
// place is kept from one jump to the next.
fn put_entries_near(
    lanes: &mut [u64],
    sums: &mut [f64],
    room: usize,
    len: usize,
    count: usize,
    jumps: &[u64],
    rates: &[f64],
    t_words: &[u64],
    t_numbers: &[f64],
    places: usize,
    mask: &[u64],
    row: usize,
    p: Word,
) -> Option<usize>
    requires { SumsRoom room len lanes.old sums.old × (8 * count ≤ length jumps.now) × (count ≤ length rates.now) × (word_lanes * places ≤ length t_words.now) × (2 * places ≤ length t_numbers.now) × ((j : ℕ) → j < count → bad_jump places (jump_at jumps.now rates.now j) ≡ false) × (64 ≤ length mask.now) × (0 < row) × (row ≤ 64) × AllBelow count (flagged row mask.now 0) }
    ensures { (t : ModelTables) → (t.t_words ≡ t_words.now) → (t.t_numbers ≡ t_numbers.now) → PutsAll room len (gather_jumps (jump_adds p t) (map (jump_at jumps.now rates.now) (flagged row mask.now 0)) ++ gather_jumps (pair_adds p t) (map (jump_at jumps.now rates.now) (flagged row mask.now 0))) lanes.old sums.old lanes.new sums.new result }
{
    let mut held = len;
    let mut met = false;
    let mut at = 0;
    let mut c = start(mask, row);
    // By `step`, from one set bit of the mask to the next.
    loop {
        let s = step(mask, row, c);
        let Some((j, d)) = s else {
            return put_pairs_met(
                lanes, sums, room, held, count, jumps, rates, t_words, t_numbers, places, mask,
                row, p, met,
            );
        };
        let jump = jump_at(jumps, rates, j);
        at = find_at(lanes, held, at, p);
        let added = put_jump(
            lanes, sums, room, held, at, jump, t_words, t_numbers, places, p,
        );
        let Some(m) = added else {
            return None;
        };
        held = m;
        met = pair_met(met, jump);
        c = d;
    }
}

pub fn put_rules_near(
    lanes: &mut [u64],
    sums: &mut [f64],
    room: usize,
    m: Model,
    h_words: &[u64],
    h_coeffs: &[f64],
    jumps: &[u64],
    rates: &[f64],
    t_words: &[u64],
    t_numbers: &[f64],
    h_index: &[u64],
    j_index: &[u64],
    mask: &mut [u64],
    p: Word,
) -> Option<usize>
    requires { SumsRoom room 0 lanes.old sums.old × (test_model m (model_tables h_words.now h_coeffs.now jumps.now rates.now t_words.now t_numbers.now) ≡ (Ok tt)) × ModelIndexed m (model_tables h_words.now h_coeffs.now jumps.now rates.now t_words.now t_numbers.now) h_index.now j_index.now × (64 * m.qubits ≤ length h_index.now) × (64 * m.qubits ≤ length j_index.now) × (64 ≤ length mask.old) × (reaches p m.qubits ≡ false) }
    ensures { PutsAll room 0 (rules_stored m (model_tables h_words.now h_coeffs.now jumps.now rates.now t_words.now t_numbers.now) p) lanes.old sums.old lanes.new sums.new result }
{
    let n = m.qubits;
    let reals = m.hamiltonian;
    let count = m.jumps;
    let places = m.terms;
    let h_row = row_lanes(reals);
    let j_row = row_lanes(count);
    union_rows(p, h_row, n, h_index, mask);
    let first = put_reals_near(lanes, sums, room, h_words, h_coeffs, reals, mask, h_row, p);
    let Some(held) = first else {
        return None;
    };
    union_rows(p, j_row, n, j_index, mask);
    put_entries_near(
        lanes, sums, room, held, count, jumps, rates, t_words, t_numbers, places, mask, j_row, p,
    )
}
