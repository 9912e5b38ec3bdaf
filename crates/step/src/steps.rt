// SPDX-FileCopyrightText: 2026 The PPVM Authors
// SPDX-License-Identifier: Apache-2.0

// The step: all its parts in one loop, since calls in a row that are lent these tables are beyond what the checker takes.
ghost use Rattle.std.specs.Prelude.{◌≡◌};
ghost use Rattle.step_parts.specs.Lent.{work_of};
ghost use Rattle.step.specs.Calls.{step};
ghost use Rattle.step.specs.Exports.{stepped_of, LeavesStep};

use crate::parts::{add_products, due_part, entries_of, is_hop};
use limits::{Limits, word_limit};
use model::stored::Model;
use refusal::{ACCEPTED, Refusal, Status};
use step_legs::evolve::evolve_after;
use step_legs::hop::hop;
use step_parts::begin::begin_step;
use step_parts::finish::end_step;
use step_parts::places::grown_places;
use step_parts::taken::Step;
use word::flat::WORD_LANES;

// How many entries the basis has, and the number of products; both 0 where the status is a refusal.
#[repr(C)]
#[derive(Drop)]
pub struct SteppedBasis {
    pub status: Status,
    pub entries: usize,
    pub products: usize,
}

impl From<Result<Step, Refusal>> for SteppedBasis {
    ghost from_gives = { λ answer made. made ≡ stepped_of answer };

    fn from(answer: Result<Step, Refusal>) -> SteppedBasis {
        match answer {
            Ok(Step { entries, products }) => SteppedBasis {
                status: ACCEPTED,
                entries,
                products,
            },
            Err(refusal) => SteppedBasis {
                status: Status::from(refusal),
                entries: 0,
                products: 0,
            },
        }
    }
}

pub fn pebblelinen_step(
    model: Model,
    h_words: &[u64],
    h_coeffs: &[f64],
    jumps: &[u64],
    rates: &[f64],
    t_words: &[u64],
    t_numbers: &[f64],
    words: &mut [u64],
    coeffs: &mut [f64],
    len: usize,
    protected: &[u64],
    limits: Limits,
    dt: f64,
    drop_tol: f64,
    h_index: &mut [u64],
    j_index: &mut [u64],
    mask: &mut [u64],
    work_words: &mut [u64],
    work_sums: &mut [f64],
    order: &mut [u64],
    heads: &mut [u64],
    nexts: &mut [u64],
    cand_words: &mut [u64],
    cand_sums: &mut [f64],
    place_order: &mut [u64],
    place_work: &mut [u64],
    list_words: &mut [u64],
    list_values: &mut [f64],
    stage_rows: &mut [u32],
    stage_columns: &mut [u32],
    columns: &mut [u32],
    values: &mut [f64],
    grown_words: &mut [u64],
    start: &mut [f64],
    evolved: &mut [f64],
) -> SteppedBasis
    ensures { LeavesStep (step model (record { h_words = h_words.now; h_coeffs = h_coeffs.now; jumps = jumps.now; rates = rates.now; t_words = t_words.now; t_numbers = t_numbers.now }) words.old coeffs.old len protected.now limits dt drop_tol (work_of h_index.old j_index.old mask.old work_words.old work_sums.old order.old heads.old nexts.old cand_words.old cand_sums.old place_order.old place_work.old list_words.old list_values.old stage_rows.old stage_columns.old columns.old values.old grown_words.old start.old evolved.old)) result words.new coeffs.new (work_of h_index.new j_index.new mask.new work_words.new work_sums.new order.new heads.new nexts.new cand_words.new cand_sums.new place_order.new place_work.new list_words.new list_values.new stage_rows.new stage_columns.new columns.new values.new grown_words.new start.new evolved.new) }
{
    let places = grown_places(
        words.len(),
        coeffs.len(),
        grown_words.len(),
        start.len(),
        evolved.len(),
        order.len(),
        heads.len(),
        nexts.len(),
        place_order.len(),
        cand_sums.len(),
        list_values.len(),
        work_sums.len(),
        protected.len() / WORD_LANES,
    );
    let limit = word_limit(limits);
    let mut taken = Ok(Step {
        entries: len,
        products: 0,
    });
    let mut hopped = Ok(len);
    let mut part = 0;
    while part < 6 {
        let due = due_part(part, taken, limit);
        if due == 0 {
            let tests = begin_step(
                model,
                h_words,
                h_coeffs,
                jumps,
                rates,
                t_words,
                t_numbers,
                words,
                coeffs,
                len,
                protected,
                limits,
                dt,
                drop_tol,
                h_index.len(),
                j_index.len(),
                mask.len(),
                order.len(),
                heads,
                nexts,
                place_order.len(),
                cand_sums.len(),
                list_values.len(),
                work_sums.len(),
                grown_words,
                start,
                evolved,
            );
            if let Err(refusal) = tests {
                return SteppedBasis::from(Err(refusal));
            }
            part = due + 1;
            continue;
        }
        if due == 5 {
            taken = end_step(
                taken,
                model.qubits,
                protected,
                drop_tol,
                limits.max_basis,
                words,
                coeffs,
                grown_words,
                start,
                evolved,
                order,
                heads,
                nexts,
                place_order,
                stage_rows,
                stage_columns,
                columns,
                values,
            );
            part = due + 1;
            continue;
        }
        let entries = entries_of(taken);
        let hops = is_hop(due);
        if hops {
            hopped = hop(
                model,
                h_words,
                h_coeffs,
                jumps,
                rates,
                t_words,
                t_numbers,
                protected,
                limits,
                places,
                entries,
                evolved,
                h_index,
                j_index,
                mask,
                work_words,
                work_sums,
                order,
                heads,
                nexts,
                cand_words,
                cand_sums,
                place_order,
                place_work,
                list_words,
                list_values,
                grown_words,
                start,
            );
            part = due + 1;
            continue;
        }
        let always = due == 2;
        let done = evolve_after(
            hopped,
            model,
            h_words,
            h_coeffs,
            jumps,
            rates,
            t_words,
            t_numbers,
            dt,
            drop_tol,
            places,
            always,
            entries,
            grown_words,
            start,
            h_index,
            j_index,
            mask,
            work_words,
            work_sums,
            heads,
            nexts,
            cand_sums,
            place_order,
            list_values,
            stage_rows,
            stage_columns,
            columns,
            values,
            evolved,
        );
        taken = add_products(taken, done);
        part = due + 1;
    }
    SteppedBasis::from(taken)
}
