// SPDX-FileCopyrightText: 2026 The PPVM Authors
// SPDX-License-Identifier: Apache-2.0

// The action of a lent model on words.
ghost use Rattle.action.specs.Acts.{act};
ghost use Rattle.action.specs.Counts.{count_places};
ghost use Rattle.pebblelinen.specs.Actions.{LeavesList, LeavesCount};

use model::stored::Model;
use pebblelinen::actions::{CountedPlaces, ListedWords};
use word::word::Word;

#[unsafe(no_mangle)]
pub extern "C" fn pebblelinen_compute_action_terms(
    model: Model,
    h_words: &[u64],
    h_coeffs: &[f64],
    jumps: &[u64],
    rates: &[f64],
    t_words: &[u64],
    t_numbers: &[f64],
    p: Word,
    work_words: &mut [u64],
    work_sums: &mut [f64],
    out_words: &mut [u64],
    out_values: &mut [f64],
) -> ListedWords
    ensures { LeavesList (act out_words.old out_values.old work_words.old work_sums.old model (record { h_words = h_words.now; h_coeffs = h_coeffs.now; jumps = jumps.now; rates = rates.now; t_words = t_words.now; t_numbers = t_numbers.now }) p) result out_words.new out_values.new work_words.new work_sums.new }
{
    pebblelinen::actions::pebblelinen_compute_action_terms(
        model, h_words, h_coeffs, jumps, rates, t_words, t_numbers, p, work_words, work_sums,
        out_words, out_values,
    )
}

#[unsafe(no_mangle)]
pub extern "C" fn pebblelinen_count_action_terms(
    model: Model,
    h_words: &[u64],
    h_coeffs: &[f64],
    jumps: &[u64],
    rates: &[f64],
    t_words: &[u64],
    t_numbers: &[f64],
    words: &[u64],
    h_index: &mut [u64],
    j_index: &mut [u64],
    mask: &mut [u64],
    work_words: &mut [u64],
    work_sums: &mut [f64],
) -> CountedPlaces
    ensures { LeavesCount (count_places h_index.old j_index.old mask.old work_words.old work_sums.old model (record { h_words = h_words.now; h_coeffs = h_coeffs.now; jumps = jumps.now; rates = rates.now; t_words = t_words.now; t_numbers = t_numbers.now }) words.now) result h_index.new j_index.new mask.new work_words.new work_sums.new }
{
    pebblelinen::actions::pebblelinen_count_action_terms(
        model, h_words, h_coeffs, jumps, rates, t_words, t_numbers, words, h_index, j_index, mask,
        work_words, work_sums,
    )
}
