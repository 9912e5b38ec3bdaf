// SPDX-FileCopyrightText: 2026 The PPVM Authors
// SPDX-License-Identifier: Apache-2.0

// A pass's end: every sum is finite, and the largest candidates stay, as many as there is room for. They stand in the
// order in which they came, before and after.
ghost use Rattle.std.specs.Prelude.{◌≡◌, ◌<◌, ◌≤◌, length};
ghost use Rattle.candidates.specs.Tables.{candidate_rows};
ghost use Rattle.candidates.specs.Between.{in_word_order, Standing};
ghost use Rattle.passes.specs.Leaks.{largest, ended};
ghost use Rattle.passes.specs.Between.{FiniteRows, Stood};

use candidates::bad::place_of_bad;
use candidates::cut::keep_largest;
use lent::numbers::first_not_finite;
use refusal::Refusal;
use slots::lay_slots;
use word::flat::WORD_LANES;

// The room rule on more candidates than there is room for: how many stay. With room for none nothing is looked for.
fn cut_rows(
    words: &mut [u64],
    sums: &mut [f64],
    n: usize,
    room: usize,
    order: &mut [u64],
    work: &mut [u64],
) -> usize
    requires { Standing n n words.old sums.old order.old work.old × (room < n) × FiniteRows (in_word_order (candidate_rows n words.old sums.old)) }
    ensures { (result ≤ n) × (in_word_order (candidate_rows result words.new sums.new) ≡ largest room (in_word_order (candidate_rows n words.old sums.old))) × (length (in_word_order (candidate_rows result words.new sums.new)) ≡ result) }
{
    if room == 0 {
        return 0;
    }
    keep_largest(
        &mut words[..n * WORD_LANES],
        &mut sums[..n],
        room,
        &mut order[..n],
        &mut work[..n],
    )
}

// And their slots are laid again.
fn cut(
    words: &mut [u64],
    sums: &mut [f64],
    places: usize,
    n: usize,
    room: usize,
    order: &mut [u64],
    work: &mut [u64],
) -> usize
    requires { Standing places n words.old sums.old order.old work.old × (room < n) × FiniteRows (in_word_order (candidate_rows n words.old sums.old)) }
    ensures { Standing places result words.new sums.new order.new work.new × (in_word_order (candidate_rows result words.new sums.new) ≡ largest room (in_word_order (candidate_rows n words.old sums.old))) }
{
    let held = cut_rows(words, sums, n, room, order, work);
    lay_slots(&words[..held * WORD_LANES], order, &mut work[..held]);
    held
}

// 14, then the room rule; of so many places n candidates stand. Word order decides only which sum is the first
// that is not finite, and which candidates stay.
pub fn end_pass(
    words: &mut [u64],
    sums: &mut [f64],
    places: usize,
    n: usize,
    room: usize,
    order: &mut [u64],
    work: &mut [u64],
) -> Result<usize, Refusal>
    requires { Standing places n words.old sums.old order.old work.old }
    ensures { Stood places (ended room (in_word_order (candidate_rows n words.old sums.old))) words.new sums.new order.new work.new result }
{
    let bad = first_not_finite(sums, n);
    if bad < n {
        let position = place_of_bad(&words[..n * WORD_LANES], &sums[..n], bad);
        return Err(Refusal::SumNotFinite { position });
    }
    if n <= room {
        return Ok(n);
    }
    let held = cut(words, sums, places, n, room, order, work);
    Ok(held)
}
