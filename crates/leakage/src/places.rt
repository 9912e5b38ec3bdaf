// SPDX-FileCopyrightText: 2026 The PPVM Authors
// SPDX-License-Identifier: Apache-2.0

// The places of the tables that 13 names, from the lengths of the lent ones.
ghost use Rattle.std.specs.Prelude.{◌≡◌};
ghost use Rattle.leakage.specs.Leakages.{action_places, row_places};

use lent::sizes::smaller;
use word::flat::WORD_LANES;

// Table 1: those of the shorter table that holds the words of one action.
pub fn action_places(work_words: usize, work_sums: usize) -> usize
    ensures { result ≡ action_places work_words work_sums }
{
    smaller(work_words / WORD_LANES, work_sums / 2)
}

// Table 2: those of the shortest table that holds candidates.
pub fn row_places(
    cand_words: usize,
    cand_sums: usize,
    place_order: usize,
    place_work: usize,
) -> usize
    ensures { result ≡ row_places cand_words cand_sums place_order place_work }
{
    let rows = smaller(cand_words / WORD_LANES, cand_sums);
    let places = smaller(place_order, place_work);
    smaller(rows, places)
}
