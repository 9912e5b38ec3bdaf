// SPDX-FileCopyrightText: 2026 The PPVM Authors
// SPDX-License-Identifier: Apache-2.0

// Leakage out of a lent basis, and the lengths of its work tables.
ghost use Rattle.std.specs.Prelude.{◌≡◌};
ghost use Rattle.leakage.specs.Leakages.{work_of, basis_of, leak};
ghost use Rattle.pebblelinen.specs.Leakages.{LeavesLeakage, leakage_sizes};

use crate::actions::ListedWords;
use action::words::ROW_LANES;
use lent::sizes::smaller;
use lent::tests::where_any;
use lent::words::MAX_WORDS;
use limits::Limits;
use model::stored::Model;
use word::flat::WORD_LANES;
use word::word::MAX_QUBITS;

// More places than any table of sums or candidates is lent.
pub const MAX_PLACES: usize = 4_294_967_295;

pub fn pebblelinen_leakage_with_prune(
    model: Model,
    h_words: &[u64],
    h_coeffs: &[f64],
    jumps: &[u64],
    rates: &[f64],
    t_words: &[u64],
    t_numbers: &[f64],
    words: &[u64],
    coeffs: &[f64],
    len: usize,
    protected: &[u64],
    limits: Limits,
    h_index: &mut [u64],
    j_index: &mut [u64],
    mask: &mut [u64],
    work_words: &mut [u64],
    work_sums: &mut [f64],
    order: &mut [u64],
    heads: &mut [u64],
    nexts: &mut [u64],
    cand_words: &mut [u64],
    cand_sums: &mut [f64],
    place_order: &mut [u64],
    place_work: &mut [u64],
    out_words: &mut [u64],
    out_values: &mut [f64],
) -> ListedWords
    ensures { LeavesLeakage (leak out_words.old out_values.old (work_of h_index.old j_index.old mask.old work_words.old work_sums.old order.old heads.old nexts.old cand_words.old cand_sums.old place_order.old place_work.old) model (record { h_words = h_words.now; h_coeffs = h_coeffs.now; jumps = jumps.now; rates = rates.now; t_words = t_words.now; t_numbers = t_numbers.now }) (basis_of words.now coeffs.now len protected.now) limits) result out_words.new out_values.new (work_of h_index.new j_index.new mask.new work_words.new work_sums.new order.new heads.new nexts.new cand_words.new cand_sums.new place_order.new place_work.new) }
{
    ListedWords::from(leakage::leak::leakage_with_prune(
        model,
        h_words,
        h_coeffs,
        jumps,
        rates,
        t_words,
        t_numbers,
        words,
        coeffs,
        len,
        protected,
        limits,
        h_index,
        j_index,
        mask,
        work_words,
        work_sums,
        order,
        heads,
        nexts,
        cand_words,
        cand_sums,
        place_order,
        place_work,
        out_words,
        out_values,
    ))
}

// The lengths of the work tables.
#[repr(C)]
#[derive(Drop)]
pub struct LeakageSizes {
    pub h_index: usize,
    pub j_index: usize,
    pub mask: usize,
    pub work_words: usize,
    pub work_sums: usize,
    pub order: usize,
    pub heads: usize,
    pub nexts: usize,
    pub cand_words: usize,
    pub cand_sums: usize,
    pub place_order: usize,
    pub place_work: usize,
}

pub fn pebblelinen_leakage_sizes(
    qubits: usize,
    entries: usize,
    protected: usize,
    touched: usize,
    candidates: usize,
) -> LeakageSizes
    ensures { result ≡ leakage_sizes qubits entries protected touched candidates }
{
    let rows = where_any(entries, ROW_LANES * smaller(qubits, MAX_QUBITS));
    let row = where_any(entries, ROW_LANES);
    let e = smaller(entries, MAX_WORDS);
    let p = smaller(where_any(entries, protected), MAX_WORDS);
    let t = smaller(touched, MAX_PLACES);
    let c = smaller(candidates, MAX_PLACES);
    LeakageSizes {
        h_index: rows,
        j_index: rows,
        mask: row,
        work_words: WORD_LANES * t,
        work_sums: 2 * t,
        order: e,
        heads: 2 * (e + p),
        nexts: e + p,
        cand_words: WORD_LANES * c,
        cand_sums: c,
        place_order: 2 * c,
        place_work: c,
    }
}
