// SPDX-FileCopyrightText: 2026 The PPVM Authors
// SPDX-License-Identifier: Apache-2.0

// The lengths of the work tables of a step.
ghost use Rattle.std.specs.Prelude.{◌≡◌};
ghost use Rattle.step.specs.Exports.{step_sizes};

use action::words::ROW_LANES;
use lent::sizes::{larger, smaller};
use lent::tests::where_any;
use lent::words::MAX_WORDS;
use word::flat::WORD_LANES;
use word::word::MAX_QUBITS;

// More places than any table of sums, candidates or entries is lent.
const MAX_PLACES: usize = 4_294_967_295;

#[repr(C)]
#[derive(Drop)]
pub struct StepSizes {
    pub h_index: usize,
    pub j_index: usize,
    pub mask: usize,
    pub work_words: usize,
    pub work_sums: usize,
    pub order: usize,
    pub heads: usize,
    pub nexts: usize,
    pub cand_words: usize,
    pub cand_sums: usize,
    pub place_order: usize,
    pub place_work: usize,
    pub list_words: usize,
    pub list_values: usize,
    pub stage_rows: usize,
    pub stage_columns: usize,
    pub columns: usize,
    pub values: usize,
    pub grown_words: usize,
    pub start: usize,
    pub evolved: usize,
}

pub fn pebblelinen_step_sizes(
    qubits: usize,
    words: usize,
    protected: usize,
    touched: usize,
    candidates: usize,
    entries: usize,
) -> StepSizes
    ensures { result ≡ step_sizes qubits words protected touched candidates entries }
{
    let rows = where_any(words, ROW_LANES * smaller(qubits, MAX_QUBITS));
    let row = where_any(words, ROW_LANES);
    let n = smaller(words, MAX_WORDS);
    let p = smaller(where_any(words, protected), MAX_WORDS);
    let t = smaller(touched, MAX_PLACES);
    let c = smaller(candidates, MAX_PLACES);
    let e = smaller(entries, MAX_PLACES);
    let starts = where_any(n, n + 1);
    StepSizes {
        h_index: rows,
        j_index: rows,
        mask: row,
        work_words: WORD_LANES * t,
        work_sums: larger(2 * t, n),
        order: n,
        heads: 2 * (n + p),
        nexts: n + p,
        cand_words: WORD_LANES * c,
        cand_sums: larger(larger(c, e), n),
        place_order: larger(2 * c, starts),
        place_work: c,
        list_words: WORD_LANES * n,
        list_values: n,
        stage_rows: e,
        stage_columns: e,
        columns: e,
        values: e,
        grown_words: WORD_LANES * n,
        start: n,
        evolved: n,
    }
}
