// SPDX-FileCopyrightText: 2026 The PPVM Authors
// SPDX-License-Identifier: Apache-2.0

// The beginning of a step: its tests, and the copy of the given basis where they are passed.
ghost use Rattle.std.specs.Prelude.{◌≡◌, length, take};
ghost use Rattle.refusal.specs.declared.Refusal.{Refusal};
ghost use Rattle.word.specs.Flat.{words as words_in};
ghost use Rattle.model.specs.Between.{model_tables};
ghost use Rattle.step_parts.specs.Lent.{step_tests};

use crate::check::check_step;
use crate::copy::copy_given;
use limits::Limits;
use model::stored::Model;
use refusal::Refusal;

pub fn begin_step(
    m: Model,
    h_words: &[u64],
    h_coeffs: &[f64],
    jumps: &[u64],
    rates: &[f64],
    t_words: &[u64],
    t_numbers: &[f64],
    words: &[u64],
    coeffs: &[f64],
    len: usize,
    protected: &[u64],
    limits: Limits,
    dt: f64,
    drop_tol: f64,
    h_index: usize,
    j_index: usize,
    mask: usize,
    order: usize,
    heads: &mut [u64],
    nexts: &mut [u64],
    place_order: usize,
    cand_sums: usize,
    list_values: usize,
    work_sums: usize,
    grown_words: &mut [u64],
    start: &mut [f64],
    evolved: &mut [f64],
) -> Result<(), Refusal>
    ensures { (result ≡ step_tests m (model_tables h_words.now h_coeffs.now jumps.now rates.now t_words.now t_numbers.now) words.now coeffs.now len protected.now limits dt drop_tol h_index j_index mask order (length heads.old) (length nexts.old) place_order cand_sums list_values work_sums (length grown_words.old) (length start.old) (length evolved.old)) × ((q : Refusal) → result ≡ Err q → (heads.new ≡ heads.old) × (nexts.new ≡ nexts.old) × (grown_words.new ≡ grown_words.old) × (start.new ≡ start.old) × (evolved.new ≡ evolved.old)) × (result ≡ (Ok tt) → (take len (words_in grown_words.new) ≡ take len (words_in words.now)) × (take len start.new ≡ take len coeffs.now) × (take len evolved.new ≡ take len coeffs.now)) }
{
    check_step(
        m,
        h_words,
        h_coeffs,
        jumps,
        rates,
        t_words,
        t_numbers,
        words,
        coeffs,
        len,
        protected,
        limits,
        dt,
        drop_tol,
        h_index,
        j_index,
        mask,
        order,
        heads,
        nexts,
        place_order,
        cand_sums,
        list_values,
        work_sums,
        grown_words.len(),
        start.len(),
        evolved.len(),
    )?;
    copy_given(words, coeffs, len, grown_words, start, evolved);
    Ok(())
}
