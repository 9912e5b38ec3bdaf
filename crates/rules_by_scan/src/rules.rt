// SPDX-FileCopyrightText: 2026 The PPVM Authors
// SPDX-License-Identifier: Apache-2.0

// All that a model that passed its test adds for a word p, put to a table of sums that starts empty:
// the Hamiltonian terms, then the jumps, then the pairs.
ghost use Rattle.std.specs.Prelude.{◌≡◌};
ghost use Rattle.model.specs.Between.{model_tables};
ghost use Rattle.model.specs.Tested.{test_model};
ghost use Rattle.rule_terms.specs.Adds.{rules_stored};
ghost use Rattle.rule_terms.specs.Sums.{SumsRoom, PutsAll};

use crate::items::{put_jumps, put_reals};
use crate::pairs::put_pairs;
use model::stored::Model;
use word::word::Word;

pub fn put_rules(
    lanes: &mut [u64],
    sums: &mut [f64],
    room: usize,
    m: Model,
    h_words: &[u64],
    h_coeffs: &[f64],
    jumps: &[u64],
    rates: &[f64],
    t_words: &[u64],
    t_numbers: &[f64],
    p: Word,
) -> Option<usize>
    requires { SumsRoom room 0 lanes.old sums.old × (test_model m (model_tables h_words.now h_coeffs.now jumps.now rates.now t_words.now t_numbers.now) ≡ (Ok tt)) }
    ensures { PutsAll room 0 (rules_stored m (model_tables h_words.now h_coeffs.now jumps.now rates.now t_words.now t_numbers.now) p) lanes.old sums.old lanes.new sums.new result }
{
    let reals = m.hamiltonian;
    let count = m.jumps;
    let places = m.terms;
    let first = put_reals(lanes, sums, room, h_words, h_coeffs, reals, p);
    let Some(held) = first else {
        return None;
    };
    let second = put_jumps(
        lanes, sums, room, held, count, jumps, rates, t_words, t_numbers, places, p,
    );
    let Some(more) = second else {
        return None;
    };
    put_pairs(
        lanes, sums, room, more, count, jumps, rates, t_words, t_numbers, places, p,
    )
}
