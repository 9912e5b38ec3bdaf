// SPDX-FileCopyrightText: 2026 The PPVM Authors
// SPDX-License-Identifier: Apache-2.0

// Leakage as a call: tests, what is laid once, the passes, the list; work tables are zero afterwards.
ghost use Rattle.std.specs.Prelude.{◌≡◌};
ghost use Rattle.model.specs.Between.{model_tables};
ghost use Rattle.leakage.specs.Leakages.{work_of, basis_of, leak};

use crate::check::check_leakage;
use crate::clear::{clear_four, clear_rows, clear_three};
use crate::lay::lay_basis;
use crate::listing::list_candidates;
use crate::run::run_and_clear;
use lent::tests::where_any;
use limits::{Limits, word_room};
use model::stored::Model;
use refusal::Refusal;
use rules_by_index::indexed::index_model;
use word::flat::WORD_LANES;

pub fn leakage_with_prune(
    m: Model,
    h_words: &[u64],
    h_coeffs: &[f64],
    jumps: &[u64],
    rates: &[f64],
    t_words: &[u64],
    t_numbers: &[f64],
    words: &[u64],
    coeffs: &[f64],
    len: usize,
    protected: &[u64],
    limits: Limits,
    h_index: &mut [u64],
    j_index: &mut [u64],
    mask: &mut [u64],
    work_words: &mut [u64],
    work_sums: &mut [f64],
    order: &mut [u64],
    heads: &mut [u64],
    nexts: &mut [u64],
    cand_words: &mut [u64],
    cand_sums: &mut [f64],
    place_order: &mut [u64],
    place_work: &mut [u64],
    out_words: &mut [u64],
    out_values: &mut [f64],
) -> Result<usize, Refusal>
    ensures { record { out = record { answer = result; out_words = out_words.new; out_values = out_values.new }; work = work_of h_index.new j_index.new mask.new work_words.new work_sums.new order.new heads.new nexts.new cand_words.new cand_sums.new place_order.new place_work.new } ≡ leak out_words.old out_values.old (work_of h_index.old j_index.old mask.old work_words.old work_sums.old order.old heads.old nexts.old cand_words.old cand_sums.old place_order.old place_work.old) m (model_tables h_words.now h_coeffs.now jumps.now rates.now t_words.now t_numbers.now) (basis_of words.now coeffs.now len protected.now) limits }
{
    check_leakage(
        m,
        h_words,
        h_coeffs,
        jumps,
        rates,
        t_words,
        t_numbers,
        words,
        coeffs,
        len,
        protected,
        limits,
        h_index.len(),
        j_index.len(),
        mask.len(),
        order.len(),
        heads.len(),
        nexts.len(),
    )?;
    let room = word_room(limits, len);
    let both = where_any(len, len + protected.len() / WORD_LANES);
    index_model(h_index, j_index, m, h_words, jumps, rates, t_words, len);
    lay_basis(words, coeffs, len, protected, order, heads, nexts);
    let taken = run_and_clear(
        m,
        h_words,
        h_coeffs,
        jumps,
        rates,
        t_words,
        t_numbers,
        h_index,
        j_index,
        mask,
        work_words,
        work_sums,
        &words[..len * WORD_LANES],
        &coeffs[..len],
        heads,
        &nexts[..both],
        protected,
        &order[..len],
        cand_words,
        cand_sums,
        room,
        place_order,
        place_work,
    );
    let listed = list_candidates(
        taken,
        cand_words,
        cand_sums,
        place_order,
        limits,
        out_words,
        out_values,
    );
    clear_four(h_index, j_index, place_order, place_work);
    clear_three(order, heads, nexts);
    clear_rows(cand_words, cand_sums);
    listed
}
