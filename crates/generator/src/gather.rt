// SPDX-FileCopyrightText: 2026 The PPVM Authors
// SPDX-License-Identifier: Apache-2.0

// The entries of all columns, staged, with the index of the model made before, where there is a column, and
// cleared after.
ghost use Rattle.std.specs.Prelude.{◌≡◌, ◌/◌, ◌<◌, length, replicate};
ghost use Rattle.word.specs.Flat.{words as words_in, word_lanes};
ghost use Rattle.number.specs.Floats.{float0};
ghost use Rattle.model.specs.Between.{model_tables};
ghost use Rattle.columns.specs.Between.{BasisReady, StageRoom, Stages};
ghost use Rattle.generator.specs.Between.{ModelLent};
ghost use Rattle.action.specs.Acts.{sum_places};
ghost use Rattle.columns.specs.Columns.{generator_of, generator_room};

use columns::stage::stage_columns as stage_all;
use lent::clear::{clear_lanes, clear_numbers};
use lent::sizes::smaller;
use model::stored::Model;
use refusal::Refusal;
use rules_by_index::indexed::index_model;
use word::flat::WORD_LANES;

pub fn gather(
    m: Model,
    h_words: &[u64],
    h_coeffs: &[f64],
    jumps: &[u64],
    rates: &[f64],
    t_words: &[u64],
    t_numbers: &[f64],
    basis: &[u64],
    heads: &[u64],
    nexts: &[u64],
    h_index: &mut [u64],
    j_index: &mut [u64],
    mask: &mut [u64],
    work_words: &mut [u64],
    work_sums: &mut [f64],
    stage_rows: &mut [u32],
    stage_columns: &mut [u32],
    stage_values: &mut [f64],
    entry_room: usize,
) -> Result<usize, Refusal>
    requires { (0 < length basis.now / word_lanes → ModelLent m (model_tables h_words.now h_coeffs.now jumps.now rates.now t_words.now t_numbers.now) h_index.old j_index.old mask.old) × BasisReady m.qubits basis.now heads.now nexts.now × StageRoom entry_room stage_rows.old stage_columns.old stage_values.old }
    ensures { Stages (generator_room m (model_tables h_words.now h_coeffs.now jumps.now rates.now t_words.now t_numbers.now) (words_in basis.now) (sum_places work_words.old work_sums.old) entry_room) (generator_of m (model_tables h_words.now h_coeffs.now jumps.now rates.now t_words.now t_numbers.now) (words_in basis.now)) stage_rows.new stage_columns.new stage_values.new result × (h_index.new ≡ replicate (length h_index.old) 0) × (j_index.new ≡ replicate (length j_index.old) 0) × (mask.new ≡ replicate (length mask.old) 0) × (work_words.new ≡ replicate (length work_words.old) 0) × (work_sums.new ≡ replicate (length work_sums.old) float0) }
{
    let count = basis.len() / WORD_LANES;
    index_model(h_index, j_index, m, h_words, jumps, rates, t_words, count);
    let sum_room = smaller(work_words.len() / WORD_LANES, work_sums.len() / 2);
    let staged = stage_all(
        m,
        h_words,
        h_coeffs,
        jumps,
        rates,
        t_words,
        t_numbers,
        basis,
        heads,
        nexts,
        h_index,
        j_index,
        mask,
        work_words,
        work_sums,
        sum_room,
        stage_rows,
        stage_columns,
        stage_values,
        entry_room,
    );
    clear_lanes(h_index);
    clear_lanes(j_index);
    clear_lanes(mask);
    clear_lanes(work_words);
    clear_numbers(work_sums);
    staged
}
