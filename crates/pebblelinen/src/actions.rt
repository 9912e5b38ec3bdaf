// SPDX-FileCopyrightText: 2026 The PPVM Authors
// SPDX-License-Identifier: Apache-2.0

// The action of a lent model on words.
ghost use Rattle.std.specs.Prelude.{◌≡◌};
ghost use Rattle.action.specs.Acts.{act};
ghost use Rattle.action.specs.Counts.{count_places};
ghost use Rattle.pebblelinen.specs.Actions.{listed_of, LeavesList, counted_of, LeavesCount};

use action::count::Counted;
use model::stored::Model;
use refusal::{ACCEPTED, Refusal, Status};
use word::word::Word;

// How many words are listed; 0 where the status is a refusal.
#[repr(C)]
#[derive(Drop)]
pub struct ListedWords {
    pub status: Status,
    pub count: usize,
}

impl From<Result<usize, Refusal>> for ListedWords {
    ghost from_gives = { λ answer made. made ≡ listed_of answer };

    fn from(answer: Result<usize, Refusal>) -> ListedWords {
        match answer {
            Ok(count) => ListedWords {
                status: ACCEPTED,
                count,
            },
            Err(refusal) => ListedWords {
                status: Status::from(refusal),
                count: 0,
            },
        }
    }
}

pub fn pebblelinen_compute_action_terms(
    model: Model,
    h_words: &[u64],
    h_coeffs: &[f64],
    jumps: &[u64],
    rates: &[f64],
    t_words: &[u64],
    t_numbers: &[f64],
    p: Word,
    work_words: &mut [u64],
    work_sums: &mut [f64],
    out_words: &mut [u64],
    out_values: &mut [f64],
) -> ListedWords
    ensures { LeavesList (act out_words.old out_values.old work_words.old work_sums.old model (record { h_words = h_words.now; h_coeffs = h_coeffs.now; jumps = jumps.now; rates = rates.now; t_words = t_words.now; t_numbers = t_numbers.now }) p) result out_words.new out_values.new work_words.new work_sums.new }
{
    ListedWords::from(action::act::compute_action_terms(
        model, h_words, h_coeffs, jumps, rates, t_words, t_numbers, p, work_words, work_sums,
        out_words, out_values,
    ))
}

// The most words that one action touches and the most that one lists; 0 where the status is a refusal.
#[repr(C)]
#[derive(Drop)]
pub struct CountedPlaces {
    pub status: Status,
    pub touched: usize,
    pub listed: usize,
}

impl From<Result<Counted, Refusal>> for CountedPlaces {
    ghost from_gives = { λ answer made. made ≡ counted_of answer };

    fn from(answer: Result<Counted, Refusal>) -> CountedPlaces {
        match answer {
            Ok(Counted { touched, listed }) => CountedPlaces {
                status: ACCEPTED,
                touched,
                listed,
            },
            Err(refusal) => CountedPlaces {
                status: Status::from(refusal),
                touched: 0,
                listed: 0,
            },
        }
    }
}

pub fn pebblelinen_count_action_terms(
    model: Model,
    h_words: &[u64],
    h_coeffs: &[f64],
    jumps: &[u64],
    rates: &[f64],
    t_words: &[u64],
    t_numbers: &[f64],
    words: &[u64],
    h_index: &mut [u64],
    j_index: &mut [u64],
    mask: &mut [u64],
    work_words: &mut [u64],
    work_sums: &mut [f64],
) -> CountedPlaces
    ensures { LeavesCount (count_places h_index.old j_index.old mask.old work_words.old work_sums.old model (record { h_words = h_words.now; h_coeffs = h_coeffs.now; jumps = jumps.now; rates = rates.now; t_words = t_words.now; t_numbers = t_numbers.now }) words.now) result h_index.new j_index.new mask.new work_words.new work_sums.new }
{
    CountedPlaces::from(action::count::count_action_terms(
        model, h_words, h_coeffs, jumps, rates, t_words, t_numbers, words, h_index, j_index, mask,
        work_words, work_sums,
    ))
}
