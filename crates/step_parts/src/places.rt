// SPDX-FileCopyrightText: 2026 The PPVM Authors
// SPDX-License-Identifier: Apache-2.0

// How far the basis of a step may grow: the places of the shortest table with one for each of its positions.
ghost use Rattle.std.specs.Prelude.{◌≡◌};
ghost use Rattle.step_parts.specs.Lent.{grown_places};

use lent::sizes::{room_left, smaller};
use word::flat::WORD_LANES;

// By the lengths of the tables, beside count protected words.
pub fn grown_places(
    words: usize,
    coeffs: usize,
    grown_words: usize,
    start: usize,
    evolved: usize,
    order: usize,
    heads: usize,
    nexts: usize,
    place_order: usize,
    cand_sums: usize,
    list_values: usize,
    work_sums: usize,
    count: usize,
) -> usize
    ensures { result ≡ grown_places words coeffs grown_words start evolved order heads nexts place_order cand_sums list_values work_sums count }
{
    let lent = smaller(words / WORD_LANES, coeffs);
    let copied = smaller(smaller(grown_words / WORD_LANES, start), evolved);
    let slots = smaller(order, room_left(heads, count));
    let rows = smaller(room_left(nexts, count), room_left(place_order, 1));
    let numbers = smaller(smaller(cand_sums, list_values), work_sums);
    smaller(
        smaller(lent, copied),
        smaller(smaller(slots, rows), numbers),
    )
}
