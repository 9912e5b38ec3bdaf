// SPDX-FileCopyrightText: 2026 The PPVM Authors
// SPDX-License-Identifier: Apache-2.0

// A hop: the words that leak from the basis, listed, and those that find room appended to it.
ghost use Rattle.std.specs.Prelude.{◌≡◌, ℕ, ◌*◌, ◌/◌, ◌≤◌, Float, length, take, replicate};
ghost use Rattle.word.specs.Flat.{words as words_in, word_lanes};
ghost use Rattle.number.specs.Floats.{float0};
ghost use Rattle.model.specs.Between.{model_tables};
ghost use Rattle.limits.specs.Defaults.{limit_of, tau_of};
ghost use Rattle.step_laws.specs.Steps.{Places, hop as hop_of};
ghost use Rattle.step_parts.specs.Between.{Given, HopLong, Holds, HopPlaces, Hops, shared, none};
ghost use Rattle.step_legs.specs.Between.{Enters};

use leakage::leak::leakage_with_prune;
use lent::clear::{clear_lanes, clear_numbers};
use limits::{Limits, word_limit};
use model::stored::Model;
use refusal::Refusal;
use truncate::admit::add_leakage_capped;
use word::flat::WORD_LANES;

// What a leakage listed, appended to the basis in tables of so many places, or its refusal; the list is cleared.
fn enter_listed(
    leaked: Result<usize, Refusal>,
    n: usize,
    limit: usize,
    places: usize,
    len: usize,
    cand_words: &mut [u64],
    place_order: &mut [u64],
    place_work: &mut [u64],
    list_words: &mut [u64],
    list_values: &mut [f64],
    grown_words: &mut [u64],
    start: &mut [f64],
) -> Result<usize, Refusal>
    requires { ((k : ℕ) → leaked ≡ Ok k → (word_lanes * k ≤ length list_words.old) × (k ≤ length list_values.old)) × (word_lanes * places ≤ length grown_words.old) × (places ≤ length start.old) }
    ensures { Enters leaked n limit places len cand_words.old place_order.old place_work.old list_words.old list_values.old grown_words.old start.old result cand_words.new place_order.new place_work.new grown_words.new start.new × (list_words.new ≡ replicate (length list_words.old) 0) × (list_values.new ≡ replicate (length list_values.old) float0) }
{
    match leaked {
        Ok(count) => {
            let entered = add_leakage_capped(
                n,
                &mut grown_words[..places * WORD_LANES],
                &mut start[..places],
                len,
                &list_words[..count * WORD_LANES],
                &list_values[..count],
                limit,
                place_order,
                place_work,
                cand_words,
            );
            clear_lanes(list_words);
            clear_numbers(list_values);
            entered
        }
        Err(refusal) => {
            clear_lanes(list_words);
            clear_numbers(list_values);
            Err(refusal)
        }
    }
}

// From the numbers that the basis has: how many words it comes to.
pub fn hop(
    m: Model,
    h_words: &[u64],
    h_coeffs: &[f64],
    jumps: &[u64],
    rates: &[f64],
    t_words: &[u64],
    t_numbers: &[f64],
    protected: &[u64],
    limits: Limits,
    places: usize,
    len: usize,
    evolved: &[f64],
    h_index: &mut [u64],
    j_index: &mut [u64],
    mask: &mut [u64],
    work_words: &mut [u64],
    work_sums: &mut [f64],
    order: &mut [u64],
    heads: &mut [u64],
    nexts: &mut [u64],
    cand_words: &mut [u64],
    cand_sums: &mut [f64],
    place_order: &mut [u64],
    place_work: &mut [u64],
    list_words: &mut [u64],
    list_values: &mut [f64],
    grown_words: &mut [u64],
    start: &mut [f64],
) -> Result<usize, Refusal>
    requires given { Given m (model_tables h_words.now h_coeffs.now jumps.now rates.now t_words.now t_numbers.now) protected.now limits }
    requires long { HopLong m.qubits (length protected.now / word_lanes) places len h_index.old j_index.old mask.old order.old heads.old nexts.old grown_words.old start.old evolved.now }
    requires holds { Holds m.qubits places len grown_words.old start.old evolved.now }
    ensures { ((p : Places) (dt : Float) → HopPlaces p places work_words.old work_sums.old cand_words.old cand_sums.old place_order.old place_work.old list_words.old list_values.old → Hops (hop_of m (model_tables h_words.now h_coeffs.now jumps.now rates.now t_words.now t_numbers.now) (words_in protected.now) dt p (limit_of limits) (tau_of limits) (take len (words_in grown_words.old)) (take len evolved.now)) m.qubits places len grown_words.old start.old result grown_words.new start.new) × (shared h_index.new j_index.new mask.new work_words.new work_sums.new order.new heads.new nexts.new cand_words.new cand_sums.new place_order.new place_work.new list_words.new list_values.new ≡ none (shared h_index.old j_index.old mask.old work_words.old work_sums.old order.old heads.old nexts.old cand_words.old cand_sums.old place_order.old place_work.old list_words.old list_values.old)) }
{
    let leaked = leakage_with_prune(
        m,
        h_words,
        h_coeffs,
        jumps,
        rates,
        t_words,
        t_numbers,
        grown_words,
        evolved,
        len,
        protected,
        limits,
        h_index,
        j_index,
        mask,
        work_words,
        work_sums,
        order,
        heads,
        nexts,
        cand_words,
        cand_sums,
        place_order,
        place_work,
        list_words,
        list_values,
    );
    let limit = word_limit(limits);
    enter_listed(
        leaked,
        m.qubits,
        limit,
        places,
        len,
        cand_words,
        place_order,
        place_work,
        list_words,
        list_values,
        grown_words,
        start,
    )
}
