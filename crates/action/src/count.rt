// SPDX-FileCopyrightText: 2026 The PPVM Authors
// SPDX-License-Identifier: Apache-2.0

// How many places the actions of a lent model on many words need. The model is tested once and its index
// built once; each action then visits only the items that share a qubit with its word.
ghost use Rattle.std.specs.Prelude.{◌≡◌, ◌*◌, ◌/◌, ◌≤◌, ◌<◌, length};
ghost use Rattle.word.specs.Flat.{words, word_lanes};
ghost use Rattle.model.specs.Between.{model_tables};
ghost use Rattle.lent.specs.Between.{AllInside};
ghost use Rattle.model.specs.Tested.{test_model};
ghost use Rattle.rules_by_index.specs.Near.{ModelIndexed};
ghost use Rattle.action.specs.Counts.{touched_by, listed_by, words_tests, count_places, most_places};

use crate::list::count_listed;
use crate::words::check_words;
use lent::clear::{clear_lanes, clear_numbers};
use lent::sizes::{SUMS_TABLE, larger, smaller};
use model::stored::Model;
use refusal::Refusal;
use rules_by_index::indexed::index_model;
use rules_by_index::near::put_rules_near;
use word::flat::{WORD_LANES, word_at};

// The most words that one action touches, and the most that one lists.
#[derive(Clone, Copy)]
pub struct Counted {
    pub touched: usize,
    pub listed: usize,
}

// The same of a model that passed its test, with its index where there is a word, and a table of sums of
// so many places.
fn most_places(
    m: Model,
    h_words: &[u64],
    h_coeffs: &[f64],
    jumps: &[u64],
    rates: &[f64],
    t_words: &[u64],
    t_numbers: &[f64],
    list: &[u64],
    h_index: &[u64],
    j_index: &[u64],
    mask: &mut [u64],
    work_words: &mut [u64],
    work_sums: &mut [f64],
    room: usize,
) -> Result<Counted, Refusal>
    requires { (test_model m (model_tables h_words.now h_coeffs.now jumps.now rates.now t_words.now t_numbers.now) ≡ (Ok tt)) × (0 < length list.now / word_lanes → ModelIndexed m (model_tables h_words.now h_coeffs.now jumps.now rates.now t_words.now t_numbers.now) h_index.now j_index.now × (64 * m.qubits ≤ length h_index.now) × (64 * m.qubits ≤ length j_index.now) × (64 ≤ length mask.old)) × (word_lanes * room ≤ length work_words.old) × (2 * room ≤ length work_sums.old) × AllInside list.now m.qubits }
    ensures { result ≡ most_places room (touched_by m (model_tables h_words.now h_coeffs.now jumps.now rates.now t_words.now t_numbers.now)) (listed_by m (model_tables h_words.now h_coeffs.now jumps.now rates.now t_words.now t_numbers.now)) (words list.now) }
{
    let count = list.len() / WORD_LANES;
    let mut touched = 0;
    let mut listed = 0;
    for k in 0..count {
        let p = word_at(list, k);
        let Some(len) = put_rules_near(
            work_words, work_sums, room, m, h_words, h_coeffs, jumps, rates, t_words, t_numbers,
            h_index, j_index, mask, p,
        ) else {
            return Err(Refusal::TableFull {
                table: SUMS_TABLE,
                places: room,
            });
        };
        let entries = count_listed(work_words, work_sums, len);
        touched = larger(touched, len);
        listed = larger(listed, entries);
    }
    Ok(Counted { touched, listed })
}

// The same with the index built, and the work tables zero afterwards.
fn count_tested(
    m: Model,
    h_words: &[u64],
    h_coeffs: &[f64],
    jumps: &[u64],
    rates: &[f64],
    t_words: &[u64],
    t_numbers: &[f64],
    list: &[u64],
    h_index: &mut [u64],
    j_index: &mut [u64],
    mask: &mut [u64],
    work_words: &mut [u64],
    work_sums: &mut [f64],
) -> Result<Counted, Refusal>
    requires { words_tests m (model_tables h_words.now h_coeffs.now jumps.now rates.now t_words.now t_numbers.now) list.now (length h_index.old) (length j_index.old) (length mask.old) ≡ Ok tt }
    ensures { record { answer = result; h_index = h_index.new; j_index = j_index.new; mask = mask.new; work_words = work_words.new; work_sums = work_sums.new } ≡ count_places h_index.old j_index.old mask.old work_words.old work_sums.old m (model_tables h_words.now h_coeffs.now jumps.now rates.now t_words.now t_numbers.now) list.now }
{
    let count = list.len() / WORD_LANES;
    index_model(h_index, j_index, m, h_words, jumps, rates, t_words, count);
    let room = smaller(work_words.len() / WORD_LANES, work_sums.len() / 2);
    let counted = most_places(
        m, h_words, h_coeffs, jumps, rates, t_words, t_numbers, list, h_index, j_index, mask,
        work_words, work_sums, room,
    );
    clear_lanes(h_index);
    clear_lanes(j_index);
    clear_lanes(mask);
    clear_lanes(work_words);
    clear_numbers(work_sums);
    counted
}

pub fn count_action_terms(
    m: Model,
    h_words: &[u64],
    h_coeffs: &[f64],
    jumps: &[u64],
    rates: &[f64],
    t_words: &[u64],
    t_numbers: &[f64],
    list: &[u64],
    h_index: &mut [u64],
    j_index: &mut [u64],
    mask: &mut [u64],
    work_words: &mut [u64],
    work_sums: &mut [f64],
) -> Result<Counted, Refusal>
    ensures { record { answer = result; h_index = h_index.new; j_index = j_index.new; mask = mask.new; work_words = work_words.new; work_sums = work_sums.new } ≡ count_places h_index.old j_index.old mask.old work_words.old work_sums.old m (model_tables h_words.now h_coeffs.now jumps.now rates.now t_words.now t_numbers.now) list.now }
{
    check_words(
        m,
        h_words,
        h_coeffs,
        jumps,
        rates,
        t_words,
        t_numbers,
        list,
        h_index.len(),
        j_index.len(),
        mask.len(),
    )?;
    count_tested(
        m, h_words, h_coeffs, jumps, rates, t_words, t_numbers, list, h_index, j_index, mask,
        work_words, work_sums,
    )
}
