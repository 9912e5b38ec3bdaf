// SPDX-FileCopyrightText: 2026 The PPVM Authors
// SPDX-License-Identifier: Apache-2.0

// One pass of leakage: the actions on its positions, and what each adds to the candidates, in their order.
ghost use Rattle.std.specs.Prelude.{length};
ghost use Rattle.word.specs.Flat.{words as words_in};
ghost use Rattle.order.specs.Between.{AllBelow};
ghost use Rattle.candidates.specs.Tables.{candidate_rows};
ghost use Rattle.candidates.specs.Between.{in_word_order, Standing};
ghost use Rattle.model.specs.Between.{model_tables};
ghost use Rattle.passes.specs.Between.{ModelReady, BasisReady, ActionRoom, Stood};
ghost use Rattle.passes.specs.Leaks.{taken_by, touched_at, leaks_at};

use crate::terms::put_terms;
use lent::sizes::SUMS_TABLE;
use model::stored::Model;
use refusal::Refusal;
use rules_by_index::near::put_rules_near;
use word::flat::word_at;

// The number of the table of candidates, as 13 names it.
pub const CANDIDATES_TABLE: usize = 2;

// Candidates held after the positions, one after another; or 13, for an action or for the candidates. `order` and
// `work` are the candidates' slots.
pub fn take_pass(
    m: Model,
    h_words: &[u64],
    h_coeffs: &[f64],
    jumps: &[u64],
    rates: &[f64],
    t_words: &[u64],
    t_numbers: &[f64],
    h_index: &[u64],
    j_index: &[u64],
    mask: &mut [u64],
    work_words: &mut [u64],
    work_sums: &mut [f64],
    sum_room: usize,
    basis: &[u64],
    coeffs: &[f64],
    heads: &[u64],
    nexts: &[u64],
    protected: &[u64],
    positions: &[u64],
    words: &mut [u64],
    sums: &mut [f64],
    room: usize,
    n: usize,
    order: &mut [u64],
    work: &mut [u64],
) -> Result<usize, Refusal>
    requires model_ready { ModelReady m (model_tables h_words.now h_coeffs.now jumps.now rates.now t_words.now t_numbers.now) h_index.now j_index.now mask.old }
    requires basis_ready { BasisReady m.qubits basis.now coeffs.now heads.now nexts.now protected.now × AllBelow (length coeffs.now) positions.now }
    requires action_room { ActionRoom sum_room work_words.old work_sums.old }
    requires standing { Standing room n words.old sums.old order.old work.old }
    ensures { Stood room (taken_by (touched_at m (model_tables h_words.now h_coeffs.now jumps.now rates.now t_words.now t_numbers.now) (words_in basis.now) coeffs.now (words_in protected.now)) (leaks_at m (model_tables h_words.now h_coeffs.now jumps.now rates.now t_words.now t_numbers.now) (words_in basis.now) coeffs.now (words_in protected.now)) sum_room room positions.now (in_word_order (candidate_rows n words.old sums.old))) words.new sums.new order.new work.new result }
{
    let mut held = n;
    for i in 0..positions.len() {
        let p = positions[i] as usize;
        let w = word_at(basis, p);
        let added = put_rules_near(
            work_words, work_sums, sum_room, m, h_words, h_coeffs, jumps, rates, t_words,
            t_numbers, h_index, j_index, mask, w,
        );
        let Some(touched) = added else {
            return Err(Refusal::TableFull {
                table: SUMS_TABLE,
                places: sum_room,
            });
        };
        let c = coeffs[p];
        let put = put_terms(
            work_words, work_sums, touched, c, basis, heads, nexts, protected, words, sums, room,
            held, order, work,
        );
        let Some(stand) = put else {
            return Err(Refusal::TableFull {
                table: CANDIDATES_TABLE,
                places: room,
            });
        };
        held = stand;
    }
    Ok(held)
}
