// SPDX-FileCopyrightText: 2026 The PPVM Authors
// SPDX-License-Identifier: Apache-2.0

// The step.
ghost use Rattle.step_parts.specs.Lent.{work_of};
ghost use Rattle.step.specs.Calls.{step};
ghost use Rattle.step.specs.Exports.{LeavesStep};

use limits::Limits;
use model::stored::Model;
use step::steps::SteppedBasis;

#[unsafe(no_mangle)]
pub extern "C" fn pebblelinen_step(
    model: Model,
    h_words: &[u64],
    h_coeffs: &[f64],
    jumps: &[u64],
    rates: &[f64],
    t_words: &[u64],
    t_numbers: &[f64],
    words: &mut [u64],
    coeffs: &mut [f64],
    len: usize,
    protected: &[u64],
    limits: Limits,
    dt: f64,
    drop_tol: f64,
    h_index: &mut [u64],
    j_index: &mut [u64],
    mask: &mut [u64],
    work_words: &mut [u64],
    work_sums: &mut [f64],
    order: &mut [u64],
    heads: &mut [u64],
    nexts: &mut [u64],
    cand_words: &mut [u64],
    cand_sums: &mut [f64],
    place_order: &mut [u64],
    place_work: &mut [u64],
    list_words: &mut [u64],
    list_values: &mut [f64],
    stage_rows: &mut [u32],
    stage_columns: &mut [u32],
    columns: &mut [u32],
    values: &mut [f64],
    grown_words: &mut [u64],
    start: &mut [f64],
    evolved: &mut [f64],
) -> SteppedBasis
    ensures { LeavesStep (step model (record { h_words = h_words.now; h_coeffs = h_coeffs.now; jumps = jumps.now; rates = rates.now; t_words = t_words.now; t_numbers = t_numbers.now }) words.old coeffs.old len protected.now limits dt drop_tol (work_of h_index.old j_index.old mask.old work_words.old work_sums.old order.old heads.old nexts.old cand_words.old cand_sums.old place_order.old place_work.old list_words.old list_values.old stage_rows.old stage_columns.old columns.old values.old grown_words.old start.old evolved.old)) result words.new coeffs.new (work_of h_index.new j_index.new mask.new work_words.new work_sums.new order.new heads.new nexts.new cand_words.new cand_sums.new place_order.new place_work.new list_words.new list_values.new stage_rows.new stage_columns.new columns.new values.new grown_words.new start.new evolved.new) }
{
    step::steps::pebblelinen_step(
        model,
        h_words,
        h_coeffs,
        jumps,
        rates,
        t_words,
        t_numbers,
        words,
        coeffs,
        len,
        protected,
        limits,
        dt,
        drop_tol,
        h_index,
        j_index,
        mask,
        work_words,
        work_sums,
        order,
        heads,
        nexts,
        cand_words,
        cand_sums,
        place_order,
        place_work,
        list_words,
        list_values,
        stage_rows,
        stage_columns,
        columns,
        values,
        grown_words,
        start,
        evolved,
    )
}
