// SPDX-FileCopyrightText: 2026 The PPVM Authors
// SPDX-License-Identifier: Apache-2.0

// Where a word stands in a flat list of words, by chains of places whose words have the same slot. More
// slots than words keep the chains short; the answers do not depend on their number.
#![tactic(auto)]

ghost use Rattle.std.specs.Prelude.{◌≡◌, List, [], ◌∷◌, ◌++◌, ◌+◌, ◌*◌, ◌≤◌, ◌<◌, length, get_or, take};
ghost use Rattle.word.specs.Word.{identity};
ghost use Rattle.word.specs.Flat.{word_lanes, words};
ghost use Rattle.order.specs.Places.{is_among};
ghost use Rattle.slots.specs.Slots.{last_of};
ghost use Rattle.slots.specs.Between.{slot_of, Slotted};

use lent::clear::clear_lanes;
use word::flat::{WORD_LANES, word_at};
use word::hash::word_hash;
use word::word::{Word, same_word};

// A list of so few words takes so many slots: enough for short chains, and a number that is known here,
// so that finding a slot takes no division.
const FEW: usize = 256;

const FEW_SLOTS: usize = 4_096;

// How many of so many places are taken as slots for so many words.
pub fn slots_for(places: usize, count: usize) -> usize
    requires { count ≤ places }
    ensures { (count ≤ result) × (result ≤ places) }
{
    if FEW < count {
        return places;
    }
    if places < FEW_SLOTS {
        return places;
    }
    FEW_SLOTS
}

// The slot of a word.
fn slot_of(w: Word, slots: usize) -> usize
    requires { 0 < slots }
    ensures { result ≡ slot_of slots w }
{
    let h = word_hash(w) as usize;
    if slots == FEW_SLOTS {
        return h % FEW_SLOTS;
    }
    h % slots
}

// Lays the chains of all words of a list; a place of nexts for each word, and at least as many slots.
pub fn lay_slots(lanes: &[u64], heads: &mut [u64], nexts: &mut [u64])
    requires { (word_lanes * length nexts.old ≡ length lanes.now) × (length nexts.old ≤ length heads.old) }
    ensures { Slotted (words lanes.now) heads.new nexts.new }
{
    clear_lanes(heads);
    let slots = heads.len();
    for i in 0..nexts.len() {
        let w = word_at(lanes, i);
        let s = slot_of(w, slots);
        nexts[i] = heads[s];
        heads[s] = i as u64 + 1;
    }
}

// The word at a place of two lists, the second behind the first.
fn word_of_both(first: &[u64], second: &[u64], i: usize) -> Word
    requires { i < length (words first.now) + length (words second.now) }
    ensures { result ≡ get_or (words first.now ++ words second.now) i identity }
{
    let count = first.len() / WORD_LANES;
    if i < count {
        return word_at(first, i);
    }
    word_at(second, i - count)
}

// Lays the chains of all words of two lists, the second behind the first.
pub fn lay_slots_of_both(first: &[u64], second: &[u64], heads: &mut [u64], nexts: &mut [u64])
    requires { (length nexts.old ≡ length (words first.now) + length (words second.now)) × (length nexts.old ≤ length heads.old) }
    ensures { Slotted (words first.now ++ words second.now) heads.new nexts.new }
{
    clear_lanes(heads);
    let slots = heads.len();
    for k in 0..nexts.len() {
        let w = word_of_both(first, second, k);
        let s = slot_of(w, slots);
        nexts[k] = heads[s];
        heads[s] = k as u64 + 1;
    }
}

// Links the chain of a word that comes to stand behind n others.
pub fn add_slot(heads: &mut [u64], nexts: &mut [u64], n: usize, w: Word)
    requires { (n < length heads.old) × (n < length nexts.old) }
    ensures { (ws : List Word) → length ws ≡ n → Slotted ws heads.old (take n nexts.old) → Slotted (ws ++ (w ∷ [])) heads.new (take (n + 1) nexts.new) }
{
    let s = slot_of(w, heads.len());
    nexts[n] = heads[s];
    heads[s] = n as u64 + 1;
}

// One more than the last place of w, or 0.
pub fn last_place(lanes: &[u64], heads: &[u64], nexts: &[u64], w: Word) -> usize
    requires { Slotted (words lanes.now) heads.now nexts.now }
    ensures { result ≡ last_of w (words lanes.now) (length (words lanes.now)) }
{
    let slots = heads.len();
    if slots == 0 {
        return 0;
    }
    let s = slot_of(w, slots);
    let mut at = heads[s] as usize;
    // Along the chain of the slot.
    while 0 < at {
        let v = word_at(lanes, at - 1);
        if same_word(v, w) {
            return at;
        }
        at = nexts[at - 1] as usize;
    }
    0
}

// One more than the last place before i of the word at i, or 0.
pub fn place_before(lanes: &[u64], heads: &[u64], nexts: &[u64], i: usize) -> usize
    requires { Slotted (words lanes.now) heads.now nexts.now × (i < length (words lanes.now)) }
    ensures { result ≡ last_of (get_or (words lanes.now) i identity) (words lanes.now) i }
{
    let w = word_at(lanes, i);
    let mut at = nexts[i] as usize;
    // Along the chain of the slot.
    while 0 < at {
        let v = word_at(lanes, at - 1);
        if same_word(v, w) {
            return at;
        }
        at = nexts[at - 1] as usize;
    }
    0
}

// Whether w is one of the words.
pub fn has_word(lanes: &[u64], heads: &[u64], nexts: &[u64], w: Word) -> bool
    requires { Slotted (words lanes.now) heads.now nexts.now }
    ensures { result ≡ is_among w (words lanes.now) }
{
    let at = last_place(lanes, heads, nexts, w);
    at != 0
}

// Whether w is one of the words of two lists, whose chains were laid one behind the other.
pub fn has_word_in_both(
    first: &[u64],
    second: &[u64],
    heads: &[u64],
    nexts: &[u64],
    w: Word,
) -> bool
    requires { Slotted (words first.now ++ words second.now) heads.now nexts.now }
    ensures { result ≡ is_among w (words first.now ++ words second.now) }
{
    let slots = heads.len();
    if slots == 0 {
        return false;
    }
    let s = slot_of(w, slots);
    let mut at = heads[s] as usize;
    // Along the chain of the slot.
    while 0 < at {
        let v = word_of_both(first, second, at - 1);
        if same_word(v, w) {
            return true;
        }
        at = nexts[at - 1] as usize;
    }
    false
}
