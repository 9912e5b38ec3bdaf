// SPDX-FileCopyrightText: 2026 The PPVM Authors
// SPDX-License-Identifier: Apache-2.0

// All columns in position order, staged: an out table must stay as it was where a later column finds no
// room, so that entries cannot be written there at once.
ghost use Rattle.std.specs.Prelude.{◌/◌, ◌<◌, length};
ghost use Rattle.word.specs.Flat.{words, word_lanes};
ghost use Rattle.model.specs.Between.{model_tables};
ghost use Rattle.columns.specs.Between.{ModelReady, BasisReady, SumRoom, StageRoom, Stages};
ghost use Rattle.columns.specs.Columns.{generator_of, generator_room};

use crate::terms::stage_terms;
use lent::sizes::{LIST_TABLE, SUMS_TABLE};
use model::stored::Model;
use refusal::Refusal;
use rules_by_index::near::put_rules_near;
use word::flat::{WORD_LANES, word_at};

// How many entries are staged; 13 at the first column that finds no room.
pub fn stage_columns(
    m: Model,
    h_words: &[u64],
    h_coeffs: &[f64],
    jumps: &[u64],
    rates: &[f64],
    t_words: &[u64],
    t_numbers: &[f64],
    basis: &[u64],
    heads: &[u64],
    nexts: &[u64],
    h_index: &[u64],
    j_index: &[u64],
    mask: &mut [u64],
    work_words: &mut [u64],
    work_sums: &mut [f64],
    sum_room: usize,
    rows: &mut [u32],
    columns: &mut [u32],
    values: &mut [f64],
    entry_room: usize,
) -> Result<usize, Refusal>
    requires { (0 < length basis.now / word_lanes → ModelReady m (model_tables h_words.now h_coeffs.now jumps.now rates.now t_words.now t_numbers.now) h_index.now j_index.now mask.old) × BasisReady m.qubits basis.now heads.now nexts.now × SumRoom sum_room work_words.old work_sums.old × StageRoom entry_room rows.old columns.old values.old }
    ensures { Stages (generator_room m (model_tables h_words.now h_coeffs.now jumps.now rates.now t_words.now t_numbers.now) (words basis.now) sum_room entry_room) (generator_of m (model_tables h_words.now h_coeffs.now jumps.now rates.now t_words.now t_numbers.now) (words basis.now)) rows.new columns.new values.new result }
{
    let len = basis.len() / WORD_LANES;
    let mut end = 0;
    for c in 0..len {
        let p = word_at(basis, c);
        let added = put_rules_near(
            work_words, work_sums, sum_room, m, h_words, h_coeffs, jumps, rates, t_words,
            t_numbers, h_index, j_index, mask, p,
        );
        let Some(touched) = added else {
            return Err(Refusal::TableFull {
                table: SUMS_TABLE,
                places: sum_room,
            });
        };
        let laid = stage_terms(
            work_words, work_sums, touched, basis, heads, nexts, c, rows, columns, values,
            entry_room, end,
        );
        let Some(n) = laid else {
            return Err(Refusal::TableFull {
                table: LIST_TABLE,
                places: entry_room,
            });
        };
        end = n;
    }
    Ok(end)
}
