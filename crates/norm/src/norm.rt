// SPDX-FileCopyrightText: 2026 The PPVM Authors
// SPDX-License-Identifier: Apache-2.0

// The largest column norm of the generator over a lent basis, its diagonal shifted by the mean mu.
ghost use Rattle.std.specs.Prelude.{◌≡◌, ◌≤◌, length, take, replicate};
ghost use Rattle.word.specs.Flat.{words as words_in};
ghost use Rattle.number.specs.Floats.{float0};
ghost use Rattle.model.specs.Between.{model_tables};
ghost use Rattle.norm.specs.Between.{Fills, norm_from};
ghost use Rattle.column_norm.specs.Between.{BasisSlots};
ghost use Rattle.action.specs.Acts.{sum_places};
ghost use Rattle.norm.specs.Norms.{work_of, zeroed, norm_tests, norm_course, norming};

use crate::check::check_norm;
use crate::columns::fill_columns;
use column_norm::basis::lay_basis;
use column_norm::norms::{largest_column, mean};
use lent::clear::{clear_lanes, clear_numbers};
use lent::sizes::smaller;
use model::stored::Model;
use refusal::Refusal;
use rules_by_index::indexed::index_model;
use word::flat::WORD_LANES;

// The mean diagonal and the largest column norm.
#[derive(Clone, Copy)]
pub struct Normed {
    pub mu: f64,
    pub norm: f64,
}

// The mean diagonal and the largest norm of the first `len` columns, where they were filled.
fn norm_of(
    filled: Result<(), Refusal>,
    raws: &[f64],
    diags: &[f64],
    len: usize,
) -> Result<Normed, Refusal>
    requires { (len ≤ length raws.now) × (len ≤ length diags.now) × (len ≤ 65536) }
    ensures { result ≡ norm_from filled (take len raws.now) (take len diags.now) }
{
    filled?;
    let mu = mean(diags, len);
    let norm = largest_column(raws, diags, len, mu);
    Ok(Normed { mu, norm })
}

// Raw and diagonal of each column, and then zero in what only they use.
fn fill_and_clear(
    m: Model,
    h_words: &[u64],
    h_coeffs: &[f64],
    jumps: &[u64],
    rates: &[f64],
    t_words: &[u64],
    t_numbers: &[f64],
    words: &[u64],
    len: usize,
    heads: &[u64],
    nexts: &[u64],
    h_index: &mut [u64],
    j_index: &mut [u64],
    mask: &mut [u64],
    work_words: &mut [u64],
    work_sums: &mut [f64],
    raws: &mut [f64],
    diags: &mut [f64],
) -> Result<(), Refusal>
    requires { (norm_tests m (model_tables h_words.now h_coeffs.now jumps.now rates.now t_words.now t_numbers.now) words.now len (length h_index.old) (length j_index.old) (length mask.old) (length heads.now) (length nexts.now) (length raws.old) (length diags.old) ≡ (Ok tt)) × BasisSlots words.now len heads.now nexts.now }
    ensures { Fills (sum_places work_words.old work_sums.old) m (model_tables h_words.now h_coeffs.now jumps.now rates.now t_words.now t_numbers.now) (take len (words_in words.now)) len raws.new diags.new result × (h_index.new ≡ replicate (length h_index.old) 0) × (j_index.new ≡ replicate (length j_index.old) 0) × (mask.new ≡ replicate (length mask.old) 0) × (work_words.new ≡ replicate (length work_words.old) 0) × (work_sums.new ≡ replicate (length work_sums.old) float0) }
{
    index_model(h_index, j_index, m, h_words, jumps, rates, t_words, len);
    let room = smaller(work_words.len() / WORD_LANES, work_sums.len() / 2);
    let filled = fill_columns(
        m, h_words, h_coeffs, jumps, rates, t_words, t_numbers, words, len, heads, nexts, h_index,
        j_index, mask, work_words, work_sums, room, raws, diags,
    );
    clear_lanes(h_index);
    clear_lanes(j_index);
    clear_lanes(mask);
    clear_lanes(work_words);
    clear_numbers(work_sums);
    filled
}

// The same with the slots of the basis laid before, and zero after.
fn fill_slotted(
    m: Model,
    h_words: &[u64],
    h_coeffs: &[f64],
    jumps: &[u64],
    rates: &[f64],
    t_words: &[u64],
    t_numbers: &[f64],
    words: &[u64],
    len: usize,
    h_index: &mut [u64],
    j_index: &mut [u64],
    mask: &mut [u64],
    heads: &mut [u64],
    nexts: &mut [u64],
    work_words: &mut [u64],
    work_sums: &mut [f64],
    raws: &mut [f64],
    diags: &mut [f64],
) -> Result<(), Refusal>
    requires { norm_tests m (model_tables h_words.now h_coeffs.now jumps.now rates.now t_words.now t_numbers.now) words.now len (length h_index.old) (length j_index.old) (length mask.old) (length heads.old) (length nexts.old) (length raws.old) (length diags.old) ≡ Ok tt }
    ensures { Fills (sum_places work_words.old work_sums.old) m (model_tables h_words.now h_coeffs.now jumps.now rates.now t_words.now t_numbers.now) (take len (words_in words.now)) len raws.new diags.new result × (h_index.new ≡ replicate (length h_index.old) 0) × (j_index.new ≡ replicate (length j_index.old) 0) × (mask.new ≡ replicate (length mask.old) 0) × (heads.new ≡ replicate (length heads.old) 0) × (nexts.new ≡ replicate (length nexts.old) 0) × (work_words.new ≡ replicate (length work_words.old) 0) × (work_sums.new ≡ replicate (length work_sums.old) float0) }
{
    lay_basis(words, len, heads, nexts);
    let filled = fill_and_clear(
        m, h_words, h_coeffs, jumps, rates, t_words, t_numbers, words, len, heads, nexts, h_index,
        j_index, mask, work_words, work_sums, raws, diags,
    );
    clear_lanes(heads);
    clear_lanes(nexts);
    filled
}

// The norm over a model and a basis that passed their tests.
pub fn norm_tested(
    m: Model,
    h_words: &[u64],
    h_coeffs: &[f64],
    jumps: &[u64],
    rates: &[f64],
    t_words: &[u64],
    t_numbers: &[f64],
    words: &[u64],
    len: usize,
    h_index: &mut [u64],
    j_index: &mut [u64],
    mask: &mut [u64],
    heads: &mut [u64],
    nexts: &mut [u64],
    work_words: &mut [u64],
    work_sums: &mut [f64],
    raws: &mut [f64],
    diags: &mut [f64],
) -> Result<Normed, Refusal>
    requires { norm_tests m (model_tables h_words.now h_coeffs.now jumps.now rates.now t_words.now t_numbers.now) words.now len (length h_index.old) (length j_index.old) (length mask.old) (length heads.old) (length nexts.old) (length raws.old) (length diags.old) ≡ Ok tt }
    ensures { (result ≡ norm_course (work_of h_index.old j_index.old mask.old heads.old nexts.old work_words.old work_sums.old raws.old diags.old) m (model_tables h_words.now h_coeffs.now jumps.now rates.now t_words.now t_numbers.now) words.now len) × (work_of h_index.new j_index.new mask.new heads.new nexts.new work_words.new work_sums.new raws.new diags.new ≡ zeroed (work_of h_index.old j_index.old mask.old heads.old nexts.old work_words.old work_sums.old raws.old diags.old)) }
{
    let filled = fill_slotted(
        m, h_words, h_coeffs, jumps, rates, t_words, t_numbers, words, len, h_index, j_index, mask,
        heads, nexts, work_words, work_sums, raws, diags,
    );
    let normed = norm_of(filled, raws, diags, len);
    clear_numbers(raws);
    clear_numbers(diags);
    normed
}

pub fn norm(
    m: Model,
    h_words: &[u64],
    h_coeffs: &[f64],
    jumps: &[u64],
    rates: &[f64],
    t_words: &[u64],
    t_numbers: &[f64],
    words: &[u64],
    len: usize,
    h_index: &mut [u64],
    j_index: &mut [u64],
    mask: &mut [u64],
    heads: &mut [u64],
    nexts: &mut [u64],
    work_words: &mut [u64],
    work_sums: &mut [f64],
    raws: &mut [f64],
    diags: &mut [f64],
) -> Result<Normed, Refusal>
    ensures { record { answer = result; work = work_of h_index.new j_index.new mask.new heads.new nexts.new work_words.new work_sums.new raws.new diags.new } ≡ norming (work_of h_index.old j_index.old mask.old heads.old nexts.old work_words.old work_sums.old raws.old diags.old) m (model_tables h_words.now h_coeffs.now jumps.now rates.now t_words.now t_numbers.now) words.now len }
{
    check_norm(
        m,
        h_words,
        h_coeffs,
        jumps,
        rates,
        t_words,
        t_numbers,
        words,
        len,
        h_index.len(),
        j_index.len(),
        mask.len(),
        heads.len(),
        nexts.len(),
        raws.len(),
        diags.len(),
    )?;
    norm_tested(
        m, h_words, h_coeffs, jumps, rates, t_words, t_numbers, words, len, h_index, j_index, mask,
        heads, nexts, work_words, work_sums, raws, diags,
    )
}
