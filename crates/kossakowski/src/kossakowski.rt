// SPDX-FileCopyrightText: 2026 The PPVM Authors
// SPDX-License-Identifier: Apache-2.0

// Adding a matrix K over operators to a model that stands.
//
// Nothing that is lent may change where an item is refused or the terms find no room. So everything
// is tested first; then the operators are read into the work table, the pairs' terms counted there,
// and only then is anything stored.
ghost use Rattle.std.specs.Prelude.{◌≡◌};
ghost use Rattle.k_matrix.specs.Added.{add};
ghost use Rattle.k_matrix.specs.Work.{matrix_answer};

use crate::check::check_matrix;
use crate::pairs::{count_terms, store_pairs};
use k_matrix::matrix::{count_pairs, largest_square};
use lent::clear::{clear_lanes, clear_numbers};
use lent::sizes::smaller;
use model::stored::Model;
use model_build::jumps::read_operator;
use model_build::spec::TERMS_TABLE;
use model_build::store::store_terms;
use operator_product::product::SUM_PLACES;
use refusal::Refusal;
use word::flat::WORD_LANES;

// Adds a matrix that was tested. Without operators there is nothing to add and no work place to use.
fn compile_matrix(
    m: Model,
    texts: &[u8],
    lengths: &[u64],
    counts: &[u64],
    numbers: &[f64],
    k: &[f64],
    h_words: &[u64],
    h_coeffs: &[f64],
    jumps: &mut [u64],
    rates: &mut [f64],
    t_words: &mut [u64],
    t_numbers: &mut [f64],
    work_words: &mut [u64],
    work_numbers: &mut [f64],
) -> Result<Model, Refusal>
    requires { matrix_answer m (record { texts = texts.now; lengths = lengths.now; counts = counts.now; numbers = numbers.now; k = k.now }) (record { h_words = h_words.now; h_coeffs = h_coeffs.now; jumps = jumps.old; rates = rates.old; t_words = t_words.old; t_numbers = t_numbers.old }) work_words.old work_numbers.old ≡ Ok tt }
    ensures { record { answer = result; tables = record { h_words = h_words.now; h_coeffs = h_coeffs.now; jumps = jumps.new; rates = rates.new; t_words = t_words.new; t_numbers = t_numbers.new }; work_words = work_words.new; work_numbers = work_numbers.new } ≡ add m (record { texts = texts.entry.now; lengths = lengths.now; counts = counts.now; numbers = numbers.now; k = k.now }) (record { h_words = h_words.now; h_coeffs = h_coeffs.now; jumps = jumps.old; rates = rates.old; t_words = t_words.old; t_numbers = t_numbers.old }) work_words.old work_numbers.old }
{
    if counts.len() == 0 {
        clear_lanes(work_words);
        clear_numbers(work_numbers);
        return Ok(m);
    }
    let own = lengths.len();
    let from = m.terms;
    let first = m.jumps;
    let largest = largest_square(k);
    read_operator(texts, lengths, numbers, m.qubits, work_words, work_numbers);
    let pairs = count_pairs(k, counts.len(), largest);
    let kept = count_terms(k, counts, largest, work_words, work_numbers);
    let at = from + own;
    let terms = at + kept;
    let places = smaller(t_words.len() / WORD_LANES, t_numbers.len() / 2);
    if places < terms {
        clear_lanes(work_words);
        clear_numbers(work_numbers);
        return Err(Refusal::TableFull {
            table: TERMS_TABLE,
            places,
        });
    }
    store_terms(
        work_words,
        work_numbers,
        SUM_PLACES,
        SUM_PLACES + own,
        t_words,
        t_numbers,
        from,
    );
    store_pairs(
        k,
        counts,
        largest,
        from,
        first,
        at,
        work_words,
        work_numbers,
        jumps,
        rates,
        t_words,
        t_numbers,
    );
    clear_lanes(work_words);
    clear_numbers(work_numbers);
    Ok(Model {
        qubits: m.qubits,
        hamiltonian: m.hamiltonian,
        jumps: first + pairs,
        terms,
    })
}

// Adds a matrix to a model: texts and terms stand one after another, by the lengths of the texts and
// the count of each operator, and K row by row; a refusal changes nothing but for 13, after which the
// work tables are zero.
pub fn add_kossakowski(
    m: Model,
    texts: &[u8],
    lengths: &[u64],
    counts: &[u64],
    numbers: &[f64],
    k: &[f64],
    h_words: &[u64],
    h_coeffs: &[f64],
    jumps: &mut [u64],
    rates: &mut [f64],
    t_words: &mut [u64],
    t_numbers: &mut [f64],
    work_words: &mut [u64],
    work_numbers: &mut [f64],
) -> Result<Model, Refusal>
    ensures { record { answer = result; tables = record { h_words = h_words.now; h_coeffs = h_coeffs.now; jumps = jumps.new; rates = rates.new; t_words = t_words.new; t_numbers = t_numbers.new }; work_words = work_words.new; work_numbers = work_numbers.new } ≡ add m (record { texts = texts.entry.now; lengths = lengths.now; counts = counts.now; numbers = numbers.now; k = k.now }) (record { h_words = h_words.now; h_coeffs = h_coeffs.now; jumps = jumps.old; rates = rates.old; t_words = t_words.old; t_numbers = t_numbers.old }) work_words.old work_numbers.old }
{
    check_matrix(
        m,
        texts,
        lengths,
        counts,
        numbers,
        k,
        h_words,
        h_coeffs,
        jumps,
        rates,
        t_words,
        t_numbers,
        work_words,
        work_numbers,
    )?;
    compile_matrix(
        m,
        texts,
        lengths,
        counts,
        numbers,
        k,
        h_words,
        h_coeffs,
        jumps,
        rates,
        t_words,
        t_numbers,
        work_words,
        work_numbers,
    )
}
