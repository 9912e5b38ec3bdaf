// SPDX-FileCopyrightText: 2026 The PPVM Authors
// SPDX-License-Identifier: Apache-2.0

// The action of a lent model on a word: the model is tested, its rules are put to a table of sums, and
// the words whose real part is not 0 are listed.
ghost use Rattle.std.specs.Prelude.{◌≡◌};
ghost use Rattle.model.specs.Between.{model_tables};
ghost use Rattle.model.specs.Tested.{test_model};
ghost use Rattle.action.specs.Acts.{act};

use crate::list::{count_listed, list_sums};
use lent::clear::{clear_lanes, clear_numbers};
use lent::sizes::{LIST_TABLE, SUMS_TABLE, smaller};
use model::stored::Model;
use model::test::test_model;
use refusal::Refusal;
use rules_by_scan::rules::put_rules;
use word::flat::WORD_LANES;
use word::word::{Word, reaches_beyond};

// The same of a model that passed its test.
fn act_tested(
    m: Model,
    h_words: &[u64],
    h_coeffs: &[f64],
    jumps: &[u64],
    rates: &[f64],
    t_words: &[u64],
    t_numbers: &[f64],
    p: Word,
    work_words: &mut [u64],
    work_sums: &mut [f64],
    out_words: &mut [u64],
    out_values: &mut [f64],
) -> Result<usize, Refusal>
    requires { test_model m (model_tables h_words.now h_coeffs.now jumps.now rates.now t_words.now t_numbers.now) ≡ Ok tt }
    ensures { record { answer = result; out_words = out_words.new; out_values = out_values.new; work_words = work_words.new; work_sums = work_sums.new } ≡ act out_words.old out_values.old work_words.old work_sums.old m (model_tables h_words.now h_coeffs.now jumps.now rates.now t_words.now t_numbers.now) p }
{
    let n = m.qubits;
    if reaches_beyond(p, n) {
        return Err(Refusal::WordOutsideRegister { position: 0 });
    }
    let room = smaller(work_words.len() / WORD_LANES, work_sums.len() / 2);
    let Some(len) = put_rules(
        work_words, work_sums, room, m, h_words, h_coeffs, jumps, rates, t_words, t_numbers, p,
    ) else {
        clear_lanes(work_words);
        clear_numbers(work_sums);
        return Err(Refusal::TableFull {
            table: SUMS_TABLE,
            places: room,
        });
    };
    let count = count_listed(work_words, work_sums, len);
    let places = smaller(out_words.len() / WORD_LANES, out_values.len());
    if places < count {
        clear_lanes(work_words);
        clear_numbers(work_sums);
        return Err(Refusal::TableFull {
            table: LIST_TABLE,
            places,
        });
    }
    list_sums(work_words, work_sums, len, out_words, out_values);
    clear_lanes(work_words);
    clear_numbers(work_sums);
    Ok(count)
}

pub fn compute_action_terms(
    m: Model,
    h_words: &[u64],
    h_coeffs: &[f64],
    jumps: &[u64],
    rates: &[f64],
    t_words: &[u64],
    t_numbers: &[f64],
    p: Word,
    work_words: &mut [u64],
    work_sums: &mut [f64],
    out_words: &mut [u64],
    out_values: &mut [f64],
) -> Result<usize, Refusal>
    ensures { record { answer = result; out_words = out_words.new; out_values = out_values.new; work_words = work_words.new; work_sums = work_sums.new } ≡ act out_words.old out_values.old work_words.old work_sums.old m (model_tables h_words.now h_coeffs.now jumps.now rates.now t_words.now t_numbers.now) p }
{
    test_model(m, h_words, h_coeffs, jumps, rates, t_words, t_numbers)?;
    act_tested(
        m, h_words, h_coeffs, jumps, rates, t_words, t_numbers, p, work_words, work_sums,
        out_words, out_values,
    )
}
