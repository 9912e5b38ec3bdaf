// SPDX-FileCopyrightText: 2026 The PPVM Authors
// SPDX-License-Identifier: Apache-2.0

// The room rule on rows that stand in any order. Every row is held against the one that is found as the last to stay,
// and those that stay are counted: so nothing rests on the search.
ghost use Rattle.std.specs.Prelude.{◌≡◌, ◌*◌, ◌≤◌, ◌<◌, length};
ghost use Rattle.word.specs.Flat.{word_lanes, words as words_in};
ghost use Rattle.order.specs.Between.{AreFinite};
ghost use Rattle.candidates.specs.Tables.{rows};
ghost use Rattle.candidates.specs.Between.{in_word_order, CutTo};

use crate::beside::{count_beside, retain_beside};
use crate::pivot::{find_pivot, pivot_by_order};
use word::flat::word_at;

// By an order of all rows.
fn keep_by_order(
    words: &mut [u64],
    sums: &mut [f64],
    room: usize,
    order: &mut [u64],
    work: &mut [u64],
) -> usize
    requires { (length words.old ≡ word_lanes * length sums.old) × (length order.old ≡ length sums.old) × (length work.old ≡ length sums.old) × (0 < room) × (room ≤ length sums.old) × AreFinite sums.old × (length (in_word_order (rows (words_in words.old) sums.old)) ≡ length sums.old) }
    ensures { CutTo room (words_in words.old) sums.old result words.new sums.new }
{
    let q = pivot_by_order(words, sums, room, order, work);
    let w = word_at(words, q);
    let y = sums[q];
    retain_beside(words, sums, w, y)
}

// Keeps the `room` largest, ties to the lower word: how many stay.
pub fn keep_largest(
    words: &mut [u64],
    sums: &mut [f64],
    room: usize,
    order: &mut [u64],
    work: &mut [u64],
) -> usize
    requires { (length words.old ≡ word_lanes * length sums.old) × (length order.old ≡ length sums.old) × (length work.old ≡ length sums.old) × (0 < room) × (room ≤ length sums.old) × AreFinite sums.old × (length (in_word_order (rows (words_in words.old) sums.old)) ≡ length sums.old) }
    ensures { CutTo room (words_in words.old) sums.old result words.new sums.new }
{
    let q = find_pivot(words, sums, room, order, work);
    let v = word_at(words, q);
    let x = sums[q];
    let taken = count_beside(words, sums, v, x);
    if taken == room {
        return retain_beside(words, sums, v, x);
    }
    keep_by_order(words, sums, room, order, work)
}
