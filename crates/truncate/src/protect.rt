// SPDX-FileCopyrightText: 2026 The PPVM Authors
// SPDX-License-Identifier: Apache-2.0

// Which entries of a lent basis are protected.
ghost use Rattle.std.specs.Prelude.{◌≡◌, ◌*◌, ◌/◌, ◌≤◌, length};
ghost use Rattle.word.specs.Flat.{words, word_lanes};
ghost use Rattle.order.specs.Between.{AllBelow};
ghost use Rattle.slots.specs.Between.{Slotted};
ghost use Rattle.order.specs.Places.{is_among};
ghost use Rattle.truncate.specs.Marks.{protected_at, marked, reflagged, Reach};

use keep::flags::lay_unflagged;
use slots::{has_word, lay_slots, slots_for};
use word::flat::{WORD_LANES, word_at};
use word::word::{Word, covers_word, identity_word, joined};

// The bits of all protected words.
fn reach_of(protected: &[u64]) -> Word
    ensures { Reach result (words protected.now) }
{
    let count = protected.len() / WORD_LANES;
    let mut reach = identity_word();
    for k in 0..count {
        let w = word_at(protected, k);
        reach = joined(reach, w);
    }
    reach
}

// Protected words are few, and most words have a bit that none of them has: these are not looked up.
fn flag_word(protected: &[u64], heads: &[u64], nexts: &[u64], reach: Word, w: Word) -> bool
    requires { Slotted (words protected.now) heads.now nexts.now × Reach reach (words protected.now) }
    ensures { result ≡ is_among w (words protected.now) }
{
    covers_word(reach, w) && has_word(protected, heads, nexts, w)
}

fn flag_listed(
    lanes: &[u64],
    protected: &[u64],
    heads: &[u64],
    nexts: &[u64],
    reach: Word,
    list: &[u64],
    flags: &mut [u64],
)
    requires { Slotted (words protected.now) heads.now nexts.now × Reach reach (words protected.now) × (word_lanes * length flags.old ≤ length lanes.now) × AllBelow (length flags.old) list.now }
    ensures { flags.new ≡ reflagged (protected_at (words protected.now) (words lanes.now)) list.now flags.old }
{
    for i in 0..list.len() {
        let p = list[i] as usize;
        let w = word_at(lanes, p);
        flags[p] = u64::from(flag_word(protected, heads, nexts, reach, w));
    }
}

// Flags the protected ones of the positions listed, and takes the flag of the others.
fn mark_listed(
    lanes: &[u64],
    protected: &[u64],
    heads: &mut [u64],
    nexts: &mut [u64],
    list: &[u64],
    flags: &mut [u64],
)
    requires { (word_lanes * length nexts.old ≡ length protected.now) × (length nexts.old ≤ length heads.old) × (word_lanes * length flags.old ≤ length lanes.now) × AllBelow (length flags.old) list.now }
    ensures { flags.new ≡ reflagged (protected_at (words protected.now) (words lanes.now)) list.now flags.old }
{
    lay_slots(protected, heads, nexts);
    let reach = reach_of(protected);
    flag_listed(lanes, protected, heads, nexts, reach, list, flags);
}

// Flags the protected ones of the words that are not flagged yet. `list` is for their positions, and
// the other two tables, with a place for each protected word, to find words.
pub fn mark_protected(
    lanes: &[u64],
    protected: &[u64],
    order: &mut [u64],
    work: &mut [u64],
    list: &mut [u64],
    flags: &mut [u64],
)
    requires { (length protected.now / word_lanes * word_lanes ≡ length protected.now) × (length protected.now / word_lanes ≤ length order.old) × (length protected.now / word_lanes ≤ length work.old) × (length flags.old ≤ length list.old) × (word_lanes * length flags.old ≤ length lanes.now) }
    ensures { flags.new ≡ marked (words protected.now) (words lanes.now) flags.old }
{
    let count = protected.len() / WORD_LANES;
    let slots = slots_for(order.len(), count);
    let listed = lay_unflagged(flags, list);
    mark_listed(
        lanes,
        protected,
        &mut order[..slots],
        &mut work[..count],
        &list[..listed],
        flags,
    );
}
