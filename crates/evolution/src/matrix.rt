// SPDX-FileCopyrightText: 2026 The PPVM Authors
// SPDX-License-Identifier: Apache-2.0

// The generator of a tested model over a basis with its slots, by rows, and its unshifted norm, which is read
// off the entries while they stand column by column.
ghost use Rattle.std.specs.Prelude.{◌≡◌, ◌/◌, ◌≤◌, ◌<◌, length, take, replicate};
ghost use Rattle.word.specs.Flat.{words as words_in, word_lanes};
ghost use Rattle.model.specs.Between.{model_tables};
ghost use Rattle.generator.specs.Between.{ModelLent, HeldRows};
ghost use Rattle.generator.specs.Lent.{work_of};
ghost use Rattle.generator.specs.Generators.{by_rows, staged_entries};
ghost use Rattle.evolution.specs.Between.{SlotsReady, count_of, NormRead, StageHeld, Builds};

use generator::csr::list_rows;
use generator::gather::gather;
use generator::tables::{clear_entries, places_of};
use lent::clear::clear_lanes;
use lent::sizes::smaller;
use model::stored::Model;
use raw_norm::largest_raw;
use refusal::Refusal;

// How many entries the matrix has, and its norm.
#[derive(Clone, Copy)]
pub struct Built {
    pub count: usize,
    pub norm: f64,
}

// What is staged, with its norm.
fn with_norm(
    staged: Result<usize, Refusal>,
    stage_columns: &[u32],
    stage_values: &[f64],
    n: usize,
) -> Result<Built, Refusal>
    requires { StageHeld staged stage_columns.now stage_values.now }
    ensures { (count_of result ≡ staged) × NormRead result stage_columns.now stage_values.now n }
{
    let count = staged?;
    let norm = largest_raw(&stage_columns[..count], &stage_values[..count], n);
    Ok(Built { count, norm })
}

// What is staged, by rows, and its norm. The work table is zero afterwards.
fn list_normed(
    staged: Result<usize, Refusal>,
    stage_rows: &[u32],
    stage_columns: &[u32],
    stage_values: &[f64],
    n: usize,
    work: &mut [u64],
    offsets: &mut [u64],
    columns: &mut [u32],
    values: &mut [f64],
) -> Result<Built, Refusal>
    requires { HeldRows n staged stage_rows.now stage_columns.now stage_values.now columns.old values.old × (n ≤ length work.old) × (0 < n → n < length offsets.old) }
    ensures { (record { answer = count_of result; offsets = offsets.new; columns = columns.new; values = values.new } ≡ by_rows n offsets.old columns.old values.old staged (staged_entries staged stage_rows.now stage_columns.now stage_values.now)) × (work.new ≡ replicate (length work.old) 0) × NormRead result stage_columns.now stage_values.now n }
{
    // No places for where rows start: these are the rows of no words.
    if offsets.len() <= n {
        clear_lanes(work);
        return with_norm(staged, stage_columns, stage_values, n);
    }
    let listed = list_rows(
        staged,
        stage_rows,
        stage_columns,
        stage_values,
        n,
        work,
        offsets,
        columns,
        values,
    );
    with_norm(listed, stage_columns, stage_values, n)
}

pub fn build_matrix(
    m: Model,
    h_words: &[u64],
    h_coeffs: &[f64],
    jumps: &[u64],
    rates: &[f64],
    t_words: &[u64],
    t_numbers: &[f64],
    basis: &[u64],
    len: usize,
    h_index: &mut [u64],
    j_index: &mut [u64],
    mask: &mut [u64],
    heads: &mut [u64],
    nexts: &mut [u64],
    work_words: &mut [u64],
    work_sums: &mut [f64],
    stage_rows: &mut [u32],
    stage_columns: &mut [u32],
    stage_values: &mut [f64],
    offsets: &mut [u64],
    columns: &mut [u32],
    values: &mut [f64],
) -> Result<Built, Refusal>
    requires { (0 < length basis.now / word_lanes → ModelLent m (model_tables h_words.now h_coeffs.now jumps.now rates.now t_words.now t_numbers.now) h_index.old j_index.old mask.old) × SlotsReady m.qubits len basis.now heads.old nexts.old × (0 < len → len < length offsets.old) }
    ensures { Builds m (model_tables h_words.now h_coeffs.now jumps.now rates.now t_words.now t_numbers.now) (words_in basis.now) len (work_of h_index.old j_index.old mask.old heads.old nexts.old work_words.old work_sums.old stage_rows.old stage_columns.old stage_values.old) offsets.old columns.old values.old result (work_of h_index.new j_index.new mask.new heads.new nexts.new work_words.new work_sums.new stage_rows.new stage_columns.new stage_values.new) offsets.new columns.new values.new }
{
    let stage = places_of(stage_rows, stage_columns, stage_values);
    let out = smaller(columns.len(), values.len());
    let places = smaller(stage, out);
    let staged = gather(
        m,
        h_words,
        h_coeffs,
        jumps,
        rates,
        t_words,
        t_numbers,
        basis,
        heads,
        &nexts[..len],
        h_index,
        j_index,
        mask,
        work_words,
        work_sums,
        stage_rows,
        stage_columns,
        stage_values,
        places,
    );
    clear_lanes(nexts);
    let built = list_normed(
        staged,
        stage_rows,
        stage_columns,
        stage_values,
        len,
        heads,
        offsets,
        columns,
        values,
    );
    clear_entries(stage_rows, stage_columns, stage_values);
    built
}
