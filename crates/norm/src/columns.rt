// SPDX-FileCopyrightText: 2026 The PPVM Authors
// SPDX-License-Identifier: Apache-2.0

// Raw and diagonal of each column of the generator: one action for each basis word. The model is tested
// and indexed once, before, and the slots of the basis are laid.
ghost use Rattle.std.specs.Prelude.{take};
ghost use Rattle.word.specs.Flat.{words as words_in};
ghost use Rattle.model.specs.Between.{model_tables};
ghost use Rattle.norm.specs.Between.{ColumnRoom, Fills};

use column_norm::column::{diagonal_of, raw_of};
use lent::sizes::SUMS_TABLE;
use model::stored::Model;
use refusal::Refusal;
use rules_by_index::near::put_rules_near;
use word::flat::word_at;

pub fn fill_columns(
    m: Model,
    h_words: &[u64],
    h_coeffs: &[f64],
    jumps: &[u64],
    rates: &[f64],
    t_words: &[u64],
    t_numbers: &[f64],
    words: &[u64],
    len: usize,
    heads: &[u64],
    nexts: &[u64],
    h_index: &[u64],
    j_index: &[u64],
    mask: &mut [u64],
    work_words: &mut [u64],
    work_sums: &mut [f64],
    room: usize,
    raws: &mut [f64],
    diags: &mut [f64],
) -> Result<(), Refusal>
    requires { ColumnRoom m (model_tables h_words.now h_coeffs.now jumps.now rates.now t_words.now t_numbers.now) h_index.now j_index.now mask.old work_words.old work_sums.old room words.now len heads.now nexts.now raws.old diags.old }
    ensures { Fills room m (model_tables h_words.now h_coeffs.now jumps.now rates.now t_words.now t_numbers.now) (take len (words_in words.now)) len raws.new diags.new result }
{
    for k in 0..len {
        let p = word_at(words, k);
        let added = put_rules_near(
            work_words, work_sums, room, m, h_words, h_coeffs, jumps, rates, t_words, t_numbers,
            h_index, j_index, mask, p,
        );
        let Some(count) = added else {
            return Err(Refusal::TableFull {
                table: SUMS_TABLE,
                places: room,
            });
        };
        let raw = raw_of(work_words, work_sums, count, words, len, heads, nexts);
        let diag = diagonal_of(work_words, work_sums, count, p);
        raws[k] = raw;
        diags[k] = diag;
    }
    Ok(())
}
