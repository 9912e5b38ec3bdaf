// SPDX-FileCopyrightText: 2026 The PPVM Authors
// SPDX-License-Identifier: Apache-2.0

// The first basis word that comes again, and the slots of a basis whose words differ. Slots find a
// repeated word quickly, but they overwrite heads and nexts, which a refusal must leave as they were. So
// they are laid first where both tables are zero and can be cleared again; where they are not, every
// word is compared with all before it, and the slots are laid once none came again.
ghost use Rattle.std.specs.Prelude.{◌≡◌, true, ◌&&◌, ◌*◌, ◌≤◌, ◌<◌, length};
ghost use Rattle.word.specs.Flat.{words, word_lanes};
ghost use Rattle.slots.specs.Between.{Slotted};
ghost use Rattle.columns.specs.Repeats.{repeats_at, first_repeat};
ghost use Rattle.columns.specs.Between.{all_zero, LaysDistinct};

use lent::clear::clear_lanes;
use slots::{lay_slots, place_before};
use word::flat::{WORD_LANES, word_at};
use word::word::same_word;

fn all_zero(t: &[u64]) -> bool
    ensures { result ≡ all_zero t.now }
{
    t.iter().all(|x| *x == 0)
}

fn both_zero(a: &[u64], b: &[u64]) -> bool
    ensures { result ≡ (all_zero a.now && all_zero b.now) }
{
    let first = all_zero(a);
    if !first {
        return false;
    }
    all_zero(b)
}

// Whether the word at k stood at a smaller position.
fn stood_before(lanes: &[u64], k: usize) -> bool
    requires { k < length (words lanes.now) }
    ensures { result ≡ repeats_at (words lanes.now) k }
{
    let w = word_at(lanes, k);
    for i in 0..k {
        let v = word_at(lanes, i);
        if same_word(v, w) {
            return true;
        }
    }
    false
}

fn search_plainly(lanes: &[u64]) -> usize
    ensures { result ≡ first_repeat (words lanes.now) }
{
    let count = lanes.len() / WORD_LANES;
    for k in 0..count {
        if stood_before(lanes, k) {
            return k;
        }
    }
    count
}

fn search_slots(lanes: &[u64], heads: &[u64], nexts: &[u64]) -> usize
    requires { Slotted (words lanes.now) heads.now nexts.now }
    ensures { result ≡ first_repeat (words lanes.now) }
{
    let count = nexts.len();
    for i in 0..count {
        let place = place_before(lanes, heads, nexts, i);
        if place != 0 {
            return i;
        }
    }
    count
}

// From tables that are zero.
fn lay_first(lanes: &[u64], heads: &mut [u64], nexts: &mut [u64]) -> usize
    requires { (word_lanes * length nexts.old ≡ length lanes.now) × (length nexts.old ≤ length heads.old) × ((all_zero heads.old && all_zero nexts.old) ≡ true) }
    ensures { LaysDistinct (words lanes.now) heads.old nexts.old heads.new nexts.new result }
{
    lay_slots(lanes, heads, nexts);
    let first = search_slots(lanes, heads, nexts);
    if first < nexts.len() {
        clear_lanes(heads);
        clear_lanes(nexts);
        return first;
    }
    first
}

// The first position whose word came before, with heads and nexts as they were; or the number of words,
// with the slots laid.
pub fn lay_distinct(lanes: &[u64], heads: &mut [u64], nexts: &mut [u64]) -> usize
    requires { (word_lanes * length nexts.old ≡ length lanes.now) × (length nexts.old ≤ length heads.old) }
    ensures { LaysDistinct (words lanes.now) heads.old nexts.old heads.new nexts.new result }
{
    let zero = both_zero(heads, nexts);
    if zero {
        return lay_first(lanes, heads, nexts);
    }
    let first = search_plainly(lanes);
    if first < nexts.len() {
        return first;
    }
    lay_slots(lanes, heads, nexts);
    first
}
