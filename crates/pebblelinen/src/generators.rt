// SPDX-FileCopyrightText: 2026 The PPVM Authors
// SPDX-License-Identifier: Apache-2.0

// The generator of a lent model over a lent basis, the same matrix by rows, and the lengths of their work tables.
ghost use Rattle.std.specs.Prelude.{◌≡◌};
ghost use Rattle.generator.specs.Lent.{work_of};
ghost use Rattle.generator.specs.Generators.{generate, build_csr};
ghost use Rattle.pebblelinen.specs.Generators.{LeavesGenerator, LeavesCsr, generator_sizes};

use crate::actions::ListedWords;
use crate::leakages::MAX_PLACES;
use action::words::ROW_LANES;
use lent::sizes::smaller;
use lent::tests::where_any;
use lent::words::MAX_WORDS;
use model::stored::Model;
use word::flat::WORD_LANES;
use word::word::MAX_QUBITS;

// A row and a column each of 65,536.
pub const MAX_ENTRIES: usize = 4_294_967_296;

pub fn pebblelinen_generator(
    model: Model,
    h_words: &[u64],
    h_coeffs: &[f64],
    jumps: &[u64],
    rates: &[f64],
    t_words: &[u64],
    t_numbers: &[f64],
    words: &[u64],
    len: usize,
    h_index: &mut [u64],
    j_index: &mut [u64],
    mask: &mut [u64],
    heads: &mut [u64],
    nexts: &mut [u64],
    work_words: &mut [u64],
    work_sums: &mut [f64],
    stage_rows: &mut [u32],
    stage_columns: &mut [u32],
    stage_values: &mut [f64],
    rows: &mut [u32],
    columns: &mut [u32],
    values: &mut [f64],
) -> ListedWords
    ensures { LeavesGenerator (generate rows.old columns.old values.old (work_of h_index.old j_index.old mask.old heads.old nexts.old work_words.old work_sums.old stage_rows.old stage_columns.old stage_values.old) model (record { h_words = h_words.now; h_coeffs = h_coeffs.now; jumps = jumps.now; rates = rates.now; t_words = t_words.now; t_numbers = t_numbers.now }) words.now len) result rows.new columns.new values.new (work_of h_index.new j_index.new mask.new heads.new nexts.new work_words.new work_sums.new stage_rows.new stage_columns.new stage_values.new) }
{
    ListedWords::from(generator::generator::generator(
        model,
        h_words,
        h_coeffs,
        jumps,
        rates,
        t_words,
        t_numbers,
        words,
        len,
        h_index,
        j_index,
        mask,
        heads,
        nexts,
        work_words,
        work_sums,
        stage_rows,
        stage_columns,
        stage_values,
        rows,
        columns,
        values,
    ))
}

pub fn pebblelinen_build_csr(
    model: Model,
    h_words: &[u64],
    h_coeffs: &[f64],
    jumps: &[u64],
    rates: &[f64],
    t_words: &[u64],
    t_numbers: &[f64],
    words: &[u64],
    len: usize,
    h_index: &mut [u64],
    j_index: &mut [u64],
    mask: &mut [u64],
    heads: &mut [u64],
    nexts: &mut [u64],
    work_words: &mut [u64],
    work_sums: &mut [f64],
    stage_rows: &mut [u32],
    stage_columns: &mut [u32],
    stage_values: &mut [f64],
    offsets: &mut [u64],
    columns: &mut [u32],
    values: &mut [f64],
) -> ListedWords
    ensures { LeavesCsr (build_csr offsets.old columns.old values.old (work_of h_index.old j_index.old mask.old heads.old nexts.old work_words.old work_sums.old stage_rows.old stage_columns.old stage_values.old) model (record { h_words = h_words.now; h_coeffs = h_coeffs.now; jumps = jumps.now; rates = rates.now; t_words = t_words.now; t_numbers = t_numbers.now }) words.now len) result offsets.new columns.new values.new (work_of h_index.new j_index.new mask.new heads.new nexts.new work_words.new work_sums.new stage_rows.new stage_columns.new stage_values.new) }
{
    ListedWords::from(generator::csr::build_csr(
        model,
        h_words,
        h_coeffs,
        jumps,
        rates,
        t_words,
        t_numbers,
        words,
        len,
        h_index,
        j_index,
        mask,
        heads,
        nexts,
        work_words,
        work_sums,
        stage_rows,
        stage_columns,
        stage_values,
        offsets,
        columns,
        values,
    ))
}

// The lengths of the work tables.
#[repr(C)]
#[derive(Drop)]
pub struct GeneratorSizes {
    pub h_index: usize,
    pub j_index: usize,
    pub mask: usize,
    pub heads: usize,
    pub nexts: usize,
    pub work_words: usize,
    pub work_sums: usize,
    pub stage_rows: usize,
    pub stage_columns: usize,
    pub stage_values: usize,
}

pub fn pebblelinen_generator_sizes(
    qubits: usize,
    words: usize,
    touched: usize,
    entries: usize,
) -> GeneratorSizes
    ensures { result ≡ generator_sizes qubits words touched entries }
{
    let rows = where_any(words, ROW_LANES * smaller(qubits, MAX_QUBITS));
    let row = where_any(words, ROW_LANES);
    let b = smaller(words, MAX_WORDS);
    let t = smaller(touched, MAX_PLACES);
    let e = smaller(entries, MAX_ENTRIES);
    GeneratorSizes {
        h_index: rows,
        j_index: rows,
        mask: row,
        heads: 2 * b,
        nexts: b,
        work_words: WORD_LANES * t,
        work_sums: 2 * t,
        stage_rows: e,
        stage_columns: e,
        stage_values: e,
    }
}
