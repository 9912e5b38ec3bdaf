// SPDX-FileCopyrightText: 2026 The PPVM Authors
// SPDX-License-Identifier: Apache-2.0

// All passes of leakage over the positions of a basis, 4,096 to a pass. Without a position nothing is read, and
// neither an index nor slots are asked for.
ghost use Rattle.std.specs.Prelude.{[], ◌*◌, ◌≤◌, ◌<◌, length};
ghost use Rattle.word.specs.Flat.{word_lanes, words as words_in};
ghost use Rattle.order.specs.Between.{AllBelow};
ghost use Rattle.candidates.specs.Between.{Standing};
ghost use Rattle.model.specs.Between.{model_tables};
ghost use Rattle.passes.specs.Between.{ModelReady, BasisReady, ActionRoom, Stood, Took};
ghost use Rattle.passes.specs.Leaks.{passes, pass_count, touched_at, leaks_at};

use crate::pass::take_pass;
use crate::room::end_pass;
use lent::clear::clear_lanes;
use lent::sizes::smaller;
use model::stored::Model;
use order::places::order_words;
use refusal::Refusal;
use word::flat::WORD_LANES;

pub const PASS_SIZE: usize = 4096;

// Candidates that stand with their slots, after each pass and at the end.
fn take_passes(
    m: Model,
    h_words: &[u64],
    h_coeffs: &[f64],
    jumps: &[u64],
    rates: &[f64],
    t_words: &[u64],
    t_numbers: &[f64],
    h_index: &[u64],
    j_index: &[u64],
    mask: &mut [u64],
    work_words: &mut [u64],
    work_sums: &mut [f64],
    sum_room: usize,
    basis: &[u64],
    coeffs: &[f64],
    heads: &[u64],
    nexts: &[u64],
    protected: &[u64],
    positions: &[u64],
    words: &mut [u64],
    sums: &mut [f64],
    candidate_room: usize,
    room: usize,
    order: &mut [u64],
    work: &mut [u64],
) -> Result<usize, Refusal>
    requires model_ready { 0 < length positions.now → ModelReady m (model_tables h_words.now h_coeffs.now jumps.now rates.now t_words.now t_numbers.now) h_index.now j_index.now mask.old }
    requires basis_ready { 0 < length positions.now → BasisReady m.qubits basis.now coeffs.now heads.now nexts.now protected.now × AllBelow (length coeffs.now) positions.now }
    requires action_room { ActionRoom sum_room work_words.old work_sums.old }
    requires standing { Standing candidate_room 0 words.old sums.old order.old work.old }
    ensures { Stood candidate_room (passes (touched_at m (model_tables h_words.now h_coeffs.now jumps.now rates.now t_words.now t_numbers.now) (words_in basis.now) coeffs.now (words_in protected.now)) (leaks_at m (model_tables h_words.now h_coeffs.now jumps.now rates.now t_words.now t_numbers.now) (words_in basis.now) coeffs.now (words_in protected.now)) sum_room candidate_room room (pass_count (length positions.now)) positions.now []) words.new sums.new order.new work.new result }
{
    let mut held = 0;
    let mut from = 0;
    // By passes: the next begins where this one ends.
    while from < positions.len() {
        let to = smaller(from + PASS_SIZE, positions.len());
        let n = take_pass(
            m,
            h_words,
            h_coeffs,
            jumps,
            rates,
            t_words,
            t_numbers,
            h_index,
            j_index,
            mask,
            work_words,
            work_sums,
            sum_room,
            basis,
            coeffs,
            heads,
            nexts,
            protected,
            &positions[from..to],
            words,
            sums,
            candidate_room,
            held,
            order,
            work,
        )?;
        held = end_pass(words, sums, candidate_room, n, room, order, work)?;
        from = to;
    }
    Ok(held)
}

// The same from an empty table of slots; at the end `order` has the positions of the candidates in word order.
pub fn run_passes(
    m: Model,
    h_words: &[u64],
    h_coeffs: &[f64],
    jumps: &[u64],
    rates: &[f64],
    t_words: &[u64],
    t_numbers: &[f64],
    h_index: &[u64],
    j_index: &[u64],
    mask: &mut [u64],
    work_words: &mut [u64],
    work_sums: &mut [f64],
    sum_room: usize,
    basis: &[u64],
    coeffs: &[f64],
    heads: &[u64],
    nexts: &[u64],
    protected: &[u64],
    positions: &[u64],
    words: &mut [u64],
    sums: &mut [f64],
    candidate_room: usize,
    room: usize,
    order: &mut [u64],
    work: &mut [u64],
) -> Result<usize, Refusal>
    requires model_ready { 0 < length positions.now → ModelReady m (model_tables h_words.now h_coeffs.now jumps.now rates.now t_words.now t_numbers.now) h_index.now j_index.now mask.old }
    requires basis_ready { 0 < length positions.now → BasisReady m.qubits basis.now coeffs.now heads.now nexts.now protected.now × AllBelow (length coeffs.now) positions.now }
    requires action_room { ActionRoom sum_room work_words.old work_sums.old }
    requires candidates_long { (word_lanes * candidate_room ≤ length words.old) × (candidate_room ≤ length sums.old) × (candidate_room ≤ length order.old) × (candidate_room ≤ length work.old) }
    ensures { Took candidate_room (passes (touched_at m (model_tables h_words.now h_coeffs.now jumps.now rates.now t_words.now t_numbers.now) (words_in basis.now) coeffs.now (words_in protected.now)) (leaks_at m (model_tables h_words.now h_coeffs.now jumps.now rates.now t_words.now t_numbers.now) (words_in basis.now) coeffs.now (words_in protected.now)) sum_room candidate_room room (pass_count (length positions.now)) positions.now []) words.new sums.new order.new result }
{
    clear_lanes(order);
    let n = take_passes(
        m,
        h_words,
        h_coeffs,
        jumps,
        rates,
        t_words,
        t_numbers,
        h_index,
        j_index,
        mask,
        work_words,
        work_sums,
        sum_room,
        basis,
        coeffs,
        heads,
        nexts,
        protected,
        positions,
        words,
        sums,
        candidate_room,
        room,
        order,
        work,
    )?;
    order_words(&words[..n * WORD_LANES], &mut order[..n], &mut work[..n]);
    Ok(n)
}
