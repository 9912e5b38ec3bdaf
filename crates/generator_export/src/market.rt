// SPDX-FileCopyrightText: 2026 The PPVM Authors
// SPDX-License-Identifier: Apache-2.0

// The generator as Matrix Market: the tests of the generator, the slots of the basis, the columns staged, then
// the text of what is staged; work tables, the stage among them, are zero afterwards.
ghost use Rattle.std.specs.Prelude.{◌≡◌, ◌/◌, ◌<◌, length};
ghost use Rattle.word.specs.Flat.{words as words_in, word_lanes};
ghost use Rattle.model.specs.Between.{model_tables};
ghost use Rattle.generator.specs.Between.{ModelLent, BasisLent, HeldInside};
ghost use Rattle.generator.specs.Lent.{work_of, distinct};
ghost use Rattle.generator.specs.Generators.{staged_entries};
ghost use Rattle.generator_export.specs.Exports.{entries_text, tested, text_over, export_generator};

use columns::repeat::lay_distinct;
use generator::check::check_generator;
use generator::gather::gather;
use generator::tables::{clear_entries, places_of};
use lent::clear::clear_lanes;
use matrix_market::write::write_entries;
use model::stored::Model;
use refusal::Refusal;
use word::flat::WORD_LANES;

// The text of what is staged; or the refusal at which the columns stopped.
fn write_staged(
    staged: Result<usize, Refusal>,
    stage_rows: &[u32],
    stage_columns: &[u32],
    stage_values: &[f64],
    n: usize,
    text: &mut [u8],
) -> Result<usize, Refusal>
    requires { HeldInside staged stage_rows.now stage_columns.now stage_values.now }
    ensures { record { answer = result; text = text.new } ≡ entries_text n text.old staged (staged_entries staged stage_rows.now stage_columns.now stage_values.now) }
{
    let count = staged?;
    write_entries(stage_rows, stage_columns, stage_values, count, n, text)
}

// The same of a model and a basis that passed their tests but for a word that comes again.
fn market_tested(
    m: Model,
    h_words: &[u64],
    h_coeffs: &[f64],
    jumps: &[u64],
    rates: &[f64],
    t_words: &[u64],
    t_numbers: &[f64],
    basis: &[u64],
    len: usize,
    h_index: &mut [u64],
    j_index: &mut [u64],
    mask: &mut [u64],
    heads: &mut [u64],
    nexts: &mut [u64],
    work_words: &mut [u64],
    work_sums: &mut [f64],
    stage_rows: &mut [u32],
    stage_columns: &mut [u32],
    stage_values: &mut [f64],
    text: &mut [u8],
) -> Result<usize, Refusal>
    requires { (0 < length basis.now / word_lanes → ModelLent m (model_tables h_words.now h_coeffs.now jumps.now rates.now t_words.now t_numbers.now) h_index.old j_index.old mask.old) × BasisLent m.qubits len basis.now heads.old nexts.old }
    ensures { record { out = record { answer = result; text = text.new }; work = (work_of h_index.new j_index.new mask.new heads.new nexts.new work_words.new work_sums.new stage_rows.new stage_columns.new stage_values.new) } ≡ tested text.old (work_of h_index.old j_index.old mask.old heads.old nexts.old work_words.old work_sums.old stage_rows.old stage_columns.old stage_values.old) (distinct (words_in basis.now)) (text_over text.old (work_of h_index.old j_index.old mask.old heads.old nexts.old work_words.old work_sums.old stage_rows.old stage_columns.old stage_values.old) len m (model_tables h_words.now h_coeffs.now jumps.now rates.now t_words.now t_numbers.now) (words_in basis.now)) }
{
    let first = lay_distinct(basis, heads, &mut nexts[..len]);
    if first < len {
        return Err(Refusal::RepeatedBasisWord { position: first });
    }
    let places = places_of(stage_rows, stage_columns, stage_values);
    let staged = gather(
        m,
        h_words,
        h_coeffs,
        jumps,
        rates,
        t_words,
        t_numbers,
        basis,
        heads,
        &nexts[..len],
        h_index,
        j_index,
        mask,
        work_words,
        work_sums,
        stage_rows,
        stage_columns,
        stage_values,
        places,
    );
    clear_lanes(heads);
    clear_lanes(nexts);
    let written = write_staged(staged, stage_rows, stage_columns, stage_values, len, text);
    clear_entries(stage_rows, stage_columns, stage_values);
    written
}

pub fn matrix_market(
    m: Model,
    h_words: &[u64],
    h_coeffs: &[f64],
    jumps: &[u64],
    rates: &[f64],
    t_words: &[u64],
    t_numbers: &[f64],
    words: &[u64],
    len: usize,
    h_index: &mut [u64],
    j_index: &mut [u64],
    mask: &mut [u64],
    heads: &mut [u64],
    nexts: &mut [u64],
    work_words: &mut [u64],
    work_sums: &mut [f64],
    stage_rows: &mut [u32],
    stage_columns: &mut [u32],
    stage_values: &mut [f64],
    text: &mut [u8],
) -> Result<usize, Refusal>
    ensures { record { out = record { answer = result; text = text.new }; work = (work_of h_index.new j_index.new mask.new heads.new nexts.new work_words.new work_sums.new stage_rows.new stage_columns.new stage_values.new) } ≡ export_generator text.old (work_of h_index.old j_index.old mask.old heads.old nexts.old work_words.old work_sums.old stage_rows.old stage_columns.old stage_values.old) m (model_tables h_words.now h_coeffs.now jumps.now rates.now t_words.now t_numbers.now) words.now len }
{
    check_generator(
        m,
        h_words,
        h_coeffs,
        jumps,
        rates,
        t_words,
        t_numbers,
        words,
        len,
        h_index.len(),
        j_index.len(),
        mask.len(),
        heads.len(),
        nexts.len(),
    )?;
    market_tested(
        m,
        h_words,
        h_coeffs,
        jumps,
        rates,
        t_words,
        t_numbers,
        &words[..len * WORD_LANES],
        len,
        h_index,
        j_index,
        mask,
        heads,
        nexts,
        work_words,
        work_sums,
        stage_rows,
        stage_columns,
        stage_values,
        text,
    )
}
