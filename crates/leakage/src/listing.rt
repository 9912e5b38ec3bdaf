// SPDX-FileCopyrightText: 2026 The PPVM Authors
// SPDX-License-Identifier: Apache-2.0

// The list after the last pass.
ghost use Rattle.std.specs.Prelude.{◌≡◌};
ghost use Rattle.lent.specs.Read.{got};
ghost use Rattle.passes.specs.Between.{rows_at, Placed};
ghost use Rattle.leakage.specs.Between.{HeldInside, step_rows};
ghost use Rattle.leakage.specs.Leakages.{listing};
ghost use Rattle.limits.specs.Defaults.{tau_of};

use lent::sizes::{LIST_TABLE, smaller};
use limits::{Limits, threshold};
use passes::list::{count_above, list_above};
use refusal::Refusal;
use word::flat::WORD_LANES;

// The candidates above a threshold, listed in the order of positions given: how many, or 13.
fn list_held(
    words: &[u64],
    sums: &[f64],
    order: &[u64],
    tau_add: f64,
    out_words: &mut [u64],
    out_values: &mut [f64],
) -> Result<usize, Refusal>
    requires { Placed words.now sums.now order.now }
    ensures { record { answer = result; out_words = out_words.new; out_values = out_values.new } ≡ listing tau_add out_words.old out_values.old (got (rows_at words.now sums.now order.now)) }
{
    let count = count_above(words, sums, order, tau_add);
    let places = smaller(out_words.len() / WORD_LANES, out_values.len());
    if places < count {
        return Err(Refusal::TableFull {
            table: LIST_TABLE,
            places,
        });
    }
    list_above(words, sums, order, tau_add, out_words, out_values);
    Ok(count)
}

// What a step held, listed; or the refusal at which the passes stopped.
pub fn list_candidates(
    taken: Result<usize, Refusal>,
    words: &[u64],
    sums: &[f64],
    order: &[u64],
    limits: Limits,
    out_words: &mut [u64],
    out_values: &mut [f64],
) -> Result<usize, Refusal>
    requires { HeldInside taken words.now sums.now order.now }
    ensures { record { answer = result; out_words = out_words.new; out_values = out_values.new } ≡ listing (tau_of limits) out_words.old out_values.old (step_rows taken words.now sums.now order.now) }
{
    let n = taken?;
    let tau_add = threshold(limits);
    list_held(words, sums, &order[..n], tau_add, out_words, out_values)
}
