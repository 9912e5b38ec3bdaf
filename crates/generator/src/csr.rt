// SPDX-FileCopyrightText: 2026 The PPVM Authors
// SPDX-License-Identifier: Apache-2.0

// The matrix by rows of a lent model over a lent basis: the generator's entries with ascending columns in
// every row, and where each row starts.
ghost use Rattle.std.specs.Prelude.{◌≡◌, ◌/◌, ◌≤◌, ◌<◌, length, replicate};
ghost use Rattle.word.specs.Flat.{words as words_in, word_lanes};
ghost use Rattle.model.specs.Between.{model_tables};
ghost use Rattle.generator.specs.Between.{ModelLent, BasisLent, HeldRows};
ghost use Rattle.generator.specs.Lent.{work_of, distinct};
ghost use Rattle.generator.specs.Generators.{by_rows, csr_tested, csr_over, build_csr, staged_entries};

use crate::check::check_csr;
use crate::gather::gather;
use crate::tables::{clear_entries, places_of};
use columns::repeat::lay_distinct;
use csr_build::sort_rows;
use lent::clear::clear_lanes;
use lent::sizes::smaller;
use model::stored::Model;
use refusal::Refusal;
use word::flat::WORD_LANES;

// What is staged, by rows; or the refusal at which the columns stopped. The work table is zero
// afterwards.
pub fn list_rows(
    staged: Result<usize, Refusal>,
    stage_rows: &[u32],
    stage_columns: &[u32],
    stage_values: &[f64],
    n: usize,
    work: &mut [u64],
    offsets: &mut [u64],
    columns: &mut [u32],
    values: &mut [f64],
) -> Result<usize, Refusal>
    requires { HeldRows n staged stage_rows.now stage_columns.now stage_values.now columns.old values.old × (n ≤ length work.old) × (n < length offsets.old) }
    ensures { (record { answer = result; offsets = offsets.new; columns = columns.new; values = values.new } ≡ by_rows n offsets.old columns.old values.old staged (staged_entries staged stage_rows.now stage_columns.now stage_values.now)) × (work.new ≡ replicate (length work.old) 0) }
{
    let Ok(count) = staged else {
        clear_lanes(work);
        return staged;
    };
    sort_rows(
        stage_rows,
        stage_columns,
        stage_values,
        count,
        n,
        work,
        offsets,
        columns,
        values,
    );
    staged
}

// The same of a model and a basis that passed their tests but for a word that comes again.
fn csr_tested(
    m: Model,
    h_words: &[u64],
    h_coeffs: &[f64],
    jumps: &[u64],
    rates: &[f64],
    t_words: &[u64],
    t_numbers: &[f64],
    basis: &[u64],
    len: usize,
    h_index: &mut [u64],
    j_index: &mut [u64],
    mask: &mut [u64],
    heads: &mut [u64],
    nexts: &mut [u64],
    work_words: &mut [u64],
    work_sums: &mut [f64],
    stage_rows: &mut [u32],
    stage_columns: &mut [u32],
    stage_values: &mut [f64],
    offsets: &mut [u64],
    columns: &mut [u32],
    values: &mut [f64],
) -> Result<usize, Refusal>
    requires { (0 < length basis.now / word_lanes → ModelLent m (model_tables h_words.now h_coeffs.now jumps.now rates.now t_words.now t_numbers.now) h_index.old j_index.old mask.old) × BasisLent m.qubits len basis.now heads.old nexts.old × (len < length offsets.old) }
    ensures { record { out = record { answer = result; offsets = offsets.new; columns = columns.new; values = values.new }; work = (work_of h_index.new j_index.new mask.new heads.new nexts.new work_words.new work_sums.new stage_rows.new stage_columns.new stage_values.new) } ≡ csr_tested offsets.old columns.old values.old (work_of h_index.old j_index.old mask.old heads.old nexts.old work_words.old work_sums.old stage_rows.old stage_columns.old stage_values.old) (distinct (words_in basis.now)) (csr_over offsets.old columns.old values.old (work_of h_index.old j_index.old mask.old heads.old nexts.old work_words.old work_sums.old stage_rows.old stage_columns.old stage_values.old) len m (model_tables h_words.now h_coeffs.now jumps.now rates.now t_words.now t_numbers.now) (words_in basis.now)) }
{
    let first = lay_distinct(basis, heads, &mut nexts[..len]);
    if first < len {
        return Err(Refusal::RepeatedBasisWord { position: first });
    }
    let stage = places_of(stage_rows, stage_columns, stage_values);
    let out = smaller(columns.len(), values.len());
    let places = smaller(stage, out);
    let staged = gather(
        m,
        h_words,
        h_coeffs,
        jumps,
        rates,
        t_words,
        t_numbers,
        basis,
        heads,
        &nexts[..len],
        h_index,
        j_index,
        mask,
        work_words,
        work_sums,
        stage_rows,
        stage_columns,
        stage_values,
        places,
    );
    clear_lanes(nexts);
    let listed = list_rows(
        staged,
        stage_rows,
        stage_columns,
        stage_values,
        len,
        heads,
        offsets,
        columns,
        values,
    );
    clear_entries(stage_rows, stage_columns, stage_values);
    listed
}

pub fn build_csr(
    m: Model,
    h_words: &[u64],
    h_coeffs: &[f64],
    jumps: &[u64],
    rates: &[f64],
    t_words: &[u64],
    t_numbers: &[f64],
    words: &[u64],
    len: usize,
    h_index: &mut [u64],
    j_index: &mut [u64],
    mask: &mut [u64],
    heads: &mut [u64],
    nexts: &mut [u64],
    work_words: &mut [u64],
    work_sums: &mut [f64],
    stage_rows: &mut [u32],
    stage_columns: &mut [u32],
    stage_values: &mut [f64],
    offsets: &mut [u64],
    columns: &mut [u32],
    values: &mut [f64],
) -> Result<usize, Refusal>
    ensures { record { out = record { answer = result; offsets = offsets.new; columns = columns.new; values = values.new }; work = (work_of h_index.new j_index.new mask.new heads.new nexts.new work_words.new work_sums.new stage_rows.new stage_columns.new stage_values.new) } ≡ build_csr offsets.old columns.old values.old (work_of h_index.old j_index.old mask.old heads.old nexts.old work_words.old work_sums.old stage_rows.old stage_columns.old stage_values.old) m (model_tables h_words.now h_coeffs.now jumps.now rates.now t_words.now t_numbers.now) words.now len }
{
    check_csr(
        m,
        h_words,
        h_coeffs,
        jumps,
        rates,
        t_words,
        t_numbers,
        words,
        len,
        h_index.len(),
        j_index.len(),
        mask.len(),
        heads.len(),
        nexts.len(),
        offsets.len(),
    )?;
    csr_tested(
        m,
        h_words,
        h_coeffs,
        jumps,
        rates,
        t_words,
        t_numbers,
        &words[..len * WORD_LANES],
        len,
        h_index,
        j_index,
        mask,
        heads,
        nexts,
        work_words,
        work_sums,
        stage_rows,
        stage_columns,
        stage_values,
        offsets,
        columns,
        values,
    )
}
