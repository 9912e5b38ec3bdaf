// SPDX-FileCopyrightText: 2026 The PPVM Authors
// SPDX-License-Identifier: Apache-2.0

// The passes, and then zero in the tables of one action; the candidates and their order are left for the list.
ghost use Rattle.std.specs.Prelude.{◌≡◌, [], ◌<◌, length, replicate};
ghost use Rattle.word.specs.Flat.{words as words_in};
ghost use Rattle.number.specs.Floats.{float0};
ghost use Rattle.order.specs.Between.{AllBelow};
ghost use Rattle.model.specs.Between.{model_tables};
ghost use Rattle.passes.specs.Between.{ModelReady, BasisReady, Took};
ghost use Rattle.passes.specs.Leaks.{passes, pass_count, touched_at, leaks_at};
ghost use Rattle.leakage.specs.Leakages.{action_places, row_places};

use crate::clear::clear_rows;
use crate::places::{action_places, row_places};
use lent::clear::clear_lanes;
use model::stored::Model;
use passes::passes::run_passes;
use refusal::Refusal;

pub fn run_and_clear(
    m: Model,
    h_words: &[u64],
    h_coeffs: &[f64],
    jumps: &[u64],
    rates: &[f64],
    t_words: &[u64],
    t_numbers: &[f64],
    h_index: &[u64],
    j_index: &[u64],
    mask: &mut [u64],
    work_words: &mut [u64],
    work_sums: &mut [f64],
    basis: &[u64],
    coeffs: &[f64],
    heads: &[u64],
    nexts: &[u64],
    protected: &[u64],
    positions: &[u64],
    cand_words: &mut [u64],
    cand_sums: &mut [f64],
    room: usize,
    place_order: &mut [u64],
    place_work: &mut [u64],
) -> Result<usize, Refusal>
    requires model_ready { 0 < length positions.now → ModelReady m (model_tables h_words.now h_coeffs.now jumps.now rates.now t_words.now t_numbers.now) h_index.now j_index.now mask.old }
    requires basis_ready { 0 < length positions.now → BasisReady m.qubits basis.now coeffs.now heads.now nexts.now protected.now × AllBelow (length coeffs.now) positions.now }
    ensures { Took (row_places (length cand_words.old) (length cand_sums.old) (length place_order.old) (length place_work.old)) (passes (touched_at m (model_tables h_words.now h_coeffs.now jumps.now rates.now t_words.now t_numbers.now) (words_in basis.now) coeffs.now (words_in protected.now)) (leaks_at m (model_tables h_words.now h_coeffs.now jumps.now rates.now t_words.now t_numbers.now) (words_in basis.now) coeffs.now (words_in protected.now)) (action_places (length work_words.old) (length work_sums.old)) (row_places (length cand_words.old) (length cand_sums.old) (length place_order.old) (length place_work.old)) room (pass_count (length positions.now)) positions.now []) cand_words.new cand_sums.new place_order.new result × (mask.new ≡ replicate (length mask.old) 0) × (work_words.new ≡ replicate (length work_words.old) 0) × (work_sums.new ≡ replicate (length work_sums.old) float0) }
{
    let sum_room = action_places(work_words.len(), work_sums.len());
    let candidate_room = row_places(
        cand_words.len(),
        cand_sums.len(),
        place_order.len(),
        place_work.len(),
    );
    let taken = run_passes(
        m,
        h_words,
        h_coeffs,
        jumps,
        rates,
        t_words,
        t_numbers,
        h_index,
        j_index,
        mask,
        work_words,
        work_sums,
        sum_room,
        basis,
        coeffs,
        heads,
        nexts,
        protected,
        positions,
        cand_words,
        cand_sums,
        candidate_room,
        room,
        place_order,
        place_work,
    );
    clear_lanes(mask);
    clear_rows(work_words, work_sums);
    taken
}
