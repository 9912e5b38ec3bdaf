// SPDX-FileCopyrightText: 2026 The PPVM Authors
// SPDX-License-Identifier: Apache-2.0

// Building a model from texts and numbers.
//
// Nothing that is lent may change where an item is refused or the terms find no room. So the items
// are read to test them and again to store them, and in between to count the compiled terms where
// the terms table may be too short.
ghost use Rattle.std.specs.Prelude.{◌≡◌};
ghost use Rattle.model_build.specs.Built.{build};
ghost use Rattle.model_build.specs.Checked.{given_answer};

use crate::check::check_given;
use crate::compile::{jumps_fit, store_jumps};
use crate::items::sum_of;
use crate::take::store_hamiltonian;
use lent::clear::{clear_lanes, clear_numbers};
use lent::sizes::smaller;
use model::stored::Model;
use refusal::Refusal;
use word::flat::WORD_LANES;

// The terms table, as 13 names it.
pub const TERMS_TABLE: usize = 4;

// Builds a model from what was tested.
fn compile_given(
    texts: &[u8],
    lengths: &[u64],
    h_numbers: &[f64],
    given: &[f64],
    counts: &[u64],
    numbers: &[f64],
    n_qubits: usize,
    h_words: &mut [u64],
    h_coeffs: &mut [f64],
    jumps: &mut [u64],
    rates: &mut [f64],
    t_words: &mut [u64],
    t_numbers: &mut [f64],
    work_words: &mut [u64],
    work_numbers: &mut [f64],
) -> Result<Model, Refusal>
    requires { given_answer n_qubits (record { texts = texts.now; lengths = lengths.now; h_numbers = h_numbers.now; rates = given.now; counts = counts.now; numbers = numbers.now }) (record { h_words = h_words.old; h_coeffs = h_coeffs.old; jumps = jumps.old; rates = rates.old; t_words = t_words.old; t_numbers = t_numbers.old }) work_words.old work_numbers.old ≡ Ok tt }
    ensures { record { answer = result; tables = record { h_words = h_words.new; h_coeffs = h_coeffs.new; jumps = jumps.new; rates = rates.new; t_words = t_words.new; t_numbers = t_numbers.new }; work_words = work_words.new; work_numbers = work_numbers.new } ≡ build n_qubits (record { texts = texts.entry.now; lengths = lengths.now; h_numbers = h_numbers.now; rates = given.now; counts = counts.now; numbers = numbers.now }) (record { h_words = h_words.old; h_coeffs = h_coeffs.old; jumps = jumps.old; rates = rates.old; t_words = t_words.old; t_numbers = t_numbers.old }) work_words.old work_numbers.old }
{
    let h = h_numbers.len();
    let own = &lengths[0..h];
    let rest = &lengths[h..];
    let at = sum_of(own);
    let after = &texts[at..];
    let places = smaller(t_words.len() / WORD_LANES, t_numbers.len() / 2);
    if !jumps_fit(
        after,
        rest,
        counts,
        numbers,
        n_qubits,
        places,
        work_words,
        work_numbers,
    ) {
        clear_lanes(work_words);
        clear_numbers(work_numbers);
        return Err(Refusal::TableFull {
            table: TERMS_TABLE,
            places,
        });
    }
    store_hamiltonian(texts, own, h_numbers, n_qubits, h_words, h_coeffs);
    let terms = store_jumps(
        after,
        rest,
        given,
        counts,
        numbers,
        n_qubits,
        work_words,
        work_numbers,
        jumps,
        rates,
        t_words,
        t_numbers,
    );
    clear_lanes(work_words);
    clear_numbers(work_numbers);
    Ok(Model {
        qubits: n_qubits,
        hamiltonian: h,
        jumps: given.len(),
        terms,
    })
}

// Builds a model: texts and terms stand one after another, by the lengths of the texts and the count
// of each jump; a refusal changes nothing but for 13, after which the work tables are zero.
pub fn build_model(
    texts: &[u8],
    lengths: &[u64],
    h_numbers: &[f64],
    given: &[f64],
    counts: &[u64],
    numbers: &[f64],
    n_qubits: usize,
    h_words: &mut [u64],
    h_coeffs: &mut [f64],
    jumps: &mut [u64],
    rates: &mut [f64],
    t_words: &mut [u64],
    t_numbers: &mut [f64],
    work_words: &mut [u64],
    work_numbers: &mut [f64],
) -> Result<Model, Refusal>
    ensures { record { answer = result; tables = record { h_words = h_words.new; h_coeffs = h_coeffs.new; jumps = jumps.new; rates = rates.new; t_words = t_words.new; t_numbers = t_numbers.new }; work_words = work_words.new; work_numbers = work_numbers.new } ≡ build n_qubits (record { texts = texts.entry.now; lengths = lengths.now; h_numbers = h_numbers.now; rates = given.now; counts = counts.now; numbers = numbers.now }) (record { h_words = h_words.old; h_coeffs = h_coeffs.old; jumps = jumps.old; rates = rates.old; t_words = t_words.old; t_numbers = t_numbers.old }) work_words.old work_numbers.old }
{
    check_given(
        texts,
        lengths,
        h_numbers,
        given,
        counts,
        numbers,
        n_qubits,
        h_words,
        h_coeffs,
        jumps,
        rates,
        work_words,
        work_numbers,
    )?;
    compile_given(
        texts,
        lengths,
        h_numbers,
        given,
        counts,
        numbers,
        n_qubits,
        h_words,
        h_coeffs,
        jumps,
        rates,
        t_words,
        t_numbers,
        work_words,
        work_numbers,
    )
}
