// SPDX-FileCopyrightText: 2026 The PPVM Authors
// SPDX-License-Identifier: Apache-2.0

// The grown basis evolved by one time step, from the numbers that it starts from.
ghost use Rattle.std.specs.Prelude.{◌≡◌, true, false, not, ◌&&◌, List, ℕ, ◌≤◌, eqb, length, take, replicate};
ghost use Rattle.word.specs.Flat.{words as words_in};
ghost use Rattle.word.specs.declared.word.Word.{Word};
ghost use Rattle.number.specs.Floats.{float0, is_finite};
ghost use Rattle.model.specs.Between.{model_tables};
ghost use Rattle.model.specs.Tested.{test_model};
ghost use Rattle.step_laws.specs.Steps.{Places, evolution};
ghost use Rattle.step_laws.specs.Passing.{AreFinite, GoodWords};
ghost use Rattle.step_parts.specs.Between.{EvolveLong, EvolvePlaces, EvolvesTo};
ghost use Rattle.step_legs.specs.Between.{step_from, Follows};

use evolution::evolve::evolve_and_clear;
use evolution::matrix::build_matrix;
use model::stored::Model;
use refusal::Refusal;
use slots::lay_slots;
use step_parts::taken::Step;
use word::flat::WORD_LANES;

// So many products over so many words, or the refusal.
fn step_of(numbers: Result<usize, Refusal>, entries: usize) -> Result<Step, Refusal>
    ensures { result ≡ step_from entries numbers }
{
    match numbers {
        Ok(products) => Ok(Step { entries, products }),
        Err(refusal) => Err(refusal),
    }
}

// What passed the tests of an evolution, so that none is asked for again. Where rows start stands in place_order. In cand_sums stand the
// values while they are staged, then the numbers of a stage, in list_values its terms, and in work_sums, after the sums of an
// action, a product.
fn evolve_grown(
    m: Model,
    h_words: &[u64],
    h_coeffs: &[f64],
    jumps: &[u64],
    rates: &[f64],
    t_words: &[u64],
    t_numbers: &[f64],
    dt: f64,
    drop_tol: f64,
    places: usize,
    len: usize,
    grown_words: &[u64],
    start: &[f64],
    h_index: &mut [u64],
    j_index: &mut [u64],
    mask: &mut [u64],
    work_words: &mut [u64],
    work_sums: &mut [f64],
    heads: &mut [u64],
    nexts: &mut [u64],
    cand_sums: &mut [f64],
    place_order: &mut [u64],
    list_values: &mut [f64],
    stage_rows: &mut [u32],
    stage_columns: &mut [u32],
    columns: &mut [u32],
    values: &mut [f64],
    evolved: &mut [f64],
) -> Result<Step, Refusal>
    requires tested { (test_model m (model_tables h_words.now h_coeffs.now jumps.now rates.now t_words.now t_numbers.now) ≡ (Ok tt)) × (is_finite dt ≡ true) × (is_finite drop_tol ≡ true) }
    requires long { EvolveLong m.qubits places len h_index.old j_index.old mask.old heads.old nexts.old place_order.old grown_words.now cand_sums.old list_values.old work_sums.old start.now evolved.old }
    requires good_words { GoodWords m.qubits (take len (words_in grown_words.now)) × AreFinite (take len start.now) × (len ≤ places) }
    ensures { ((p : Places) (protected : List Word) → EvolvePlaces p work_words.old work_sums.old stage_rows.old stage_columns.old cand_sums.old columns.old values.old → EvolvesTo (evolution m (model_tables h_words.now h_coeffs.now jumps.now rates.now t_words.now t_numbers.now) protected dt p drop_tol (take len (words_in grown_words.now)) (take len start.now)) len result evolved.new) × (h_index.new ≡ replicate (length h_index.old) 0) × (j_index.new ≡ replicate (length j_index.old) 0) × (mask.new ≡ replicate (length mask.old) 0) × (work_words.new ≡ replicate (length work_words.old) 0) × (work_sums.new ≡ replicate (length work_sums.old) float0) × (heads.new ≡ replicate (length heads.old) 0) × (nexts.new ≡ replicate (length nexts.old) 0) × (cand_sums.new ≡ replicate (length cand_sums.old) float0) × (place_order.new ≡ replicate (length place_order.old) 0) × (list_values.new ≡ replicate (length list_values.old) float0) }
{
    let basis = &grown_words[..len * WORD_LANES];
    lay_slots(basis, heads, &mut nexts[..len]);
    let built = build_matrix(
        m,
        h_words,
        h_coeffs,
        jumps,
        rates,
        t_words,
        t_numbers,
        basis,
        len,
        h_index,
        j_index,
        mask,
        heads,
        nexts,
        work_words,
        work_sums,
        stage_rows,
        stage_columns,
        cand_sums,
        place_order,
        columns,
        values,
    );
    let numbers = evolve_and_clear(
        built,
        len,
        place_order,
        columns,
        values,
        &start[..len],
        dt,
        drop_tol,
        cand_sums,
        list_values,
        work_sums,
        evolved,
    );
    step_of(numbers, len)
}

// Where it is not to evolve always, a hop that no word entered is all.
fn ends_there(always: bool, len: usize, count: usize) -> bool
    ensures { result ≡ (not always && eqb count len) }
{
    if always {
        return false;
    }
    count == len
}

// What follows a hop from a basis of len words.
pub fn evolve_after(
    hopped: Result<usize, Refusal>,
    m: Model,
    h_words: &[u64],
    h_coeffs: &[f64],
    jumps: &[u64],
    rates: &[f64],
    t_words: &[u64],
    t_numbers: &[f64],
    dt: f64,
    drop_tol: f64,
    places: usize,
    always: bool,
    len: usize,
    grown_words: &[u64],
    start: &[f64],
    h_index: &mut [u64],
    j_index: &mut [u64],
    mask: &mut [u64],
    work_words: &mut [u64],
    work_sums: &mut [f64],
    heads: &mut [u64],
    nexts: &mut [u64],
    cand_sums: &mut [f64],
    place_order: &mut [u64],
    list_values: &mut [f64],
    stage_rows: &mut [u32],
    stage_columns: &mut [u32],
    columns: &mut [u32],
    values: &mut [f64],
    evolved: &mut [f64],
) -> Result<Step, Refusal>
    requires tested { (test_model m (model_tables h_words.now h_coeffs.now jumps.now rates.now t_words.now t_numbers.now) ≡ (Ok tt)) × (is_finite dt ≡ true) × (is_finite drop_tol ≡ true) }
    requires long { (k : ℕ) → hopped ≡ Ok k → EvolveLong m.qubits places k h_index.old j_index.old mask.old heads.old nexts.old place_order.old grown_words.now cand_sums.old list_values.old work_sums.old start.now evolved.old × GoodWords m.qubits (take k (words_in grown_words.now)) × AreFinite (take k start.now) × (k ≤ places) }
    requires cleared { (h_index.old ≡ replicate (length h_index.old) 0) × (j_index.old ≡ replicate (length j_index.old) 0) × (mask.old ≡ replicate (length mask.old) 0) × (work_words.old ≡ replicate (length work_words.old) 0) × (work_sums.old ≡ replicate (length work_sums.old) float0) × (heads.old ≡ replicate (length heads.old) 0) × (nexts.old ≡ replicate (length nexts.old) 0) × (cand_sums.old ≡ replicate (length cand_sums.old) float0) × (place_order.old ≡ replicate (length place_order.old) 0) × (list_values.old ≡ replicate (length list_values.old) float0) }
    ensures { Follows hopped always len result evolved.old evolved.new × ((p : Places) (protected : List Word) (k : ℕ) → EvolvePlaces p work_words.old work_sums.old stage_rows.old stage_columns.old cand_sums.old columns.old values.old → hopped ≡ Ok k → (not always && eqb k len) ≡ false → EvolvesTo (evolution m (model_tables h_words.now h_coeffs.now jumps.now rates.now t_words.now t_numbers.now) protected dt p drop_tol (take k (words_in grown_words.now)) (take k start.now)) k result evolved.new) × (h_index.new ≡ replicate (length h_index.old) 0) × (j_index.new ≡ replicate (length j_index.old) 0) × (mask.new ≡ replicate (length mask.old) 0) × (work_words.new ≡ replicate (length work_words.old) 0) × (work_sums.new ≡ replicate (length work_sums.old) float0) × (heads.new ≡ replicate (length heads.old) 0) × (nexts.new ≡ replicate (length nexts.old) 0) × (cand_sums.new ≡ replicate (length cand_sums.old) float0) × (place_order.new ≡ replicate (length place_order.old) 0) × (list_values.new ≡ replicate (length list_values.old) float0) }
{
    match hopped {
        Ok(count) => {
            let all = ends_there(always, len, count);
            if all {
                return Ok(Step {
                    entries: count,
                    products: 0,
                });
            }
            evolve_grown(
                m,
                h_words,
                h_coeffs,
                jumps,
                rates,
                t_words,
                t_numbers,
                dt,
                drop_tol,
                places,
                count,
                grown_words,
                start,
                h_index,
                j_index,
                mask,
                work_words,
                work_sums,
                heads,
                nexts,
                cand_sums,
                place_order,
                list_values,
                stage_rows,
                stage_columns,
                columns,
                values,
                evolved,
            )
        }
        Err(refusal) => Err(refusal),
    }
}
