// SPDX-FileCopyrightText: 2026 The PPVM Authors
// SPDX-License-Identifier: Apache-2.0

// The entries of one column, from the sums of one action.
ghost use Rattle.std.specs.Prelude.{◌++◌, ◌*◌, ◌≤◌, ◌<◌, length};
ghost use Rattle.word.specs.Flat.{words, word_lanes};
ghost use Rattle.slots.specs.Between.{Slotted};
ghost use Rattle.sums.specs.Sums.{sum_rows};
ghost use Rattle.action.specs.Acts.{listed};
ghost use Rattle.columns.specs.Entries.{staged};
ghost use Rattle.columns.specs.Columns.{column_entries};
ghost use Rattle.columns.specs.Between.{StageRoom, Lays};

use model::term::term_at;
use number::scalar::is_zero;
use slots::last_place;

// Lays an entry for each of the first `touched` sums that is listed and whose word is in the basis,
// behind the `count` entries that stand: how many stand then, or that there is no room.
pub fn stage_terms(
    sum_words: &[u64],
    sums: &[f64],
    touched: usize,
    basis: &[u64],
    heads: &[u64],
    nexts: &[u64],
    column: usize,
    rows: &mut [u32],
    columns: &mut [u32],
    values: &mut [f64],
    room: usize,
    count: usize,
) -> Option<usize>
    requires { (word_lanes * touched ≤ length sum_words.now) × (2 * touched ≤ length sums.now) × Slotted (words basis.now) heads.now nexts.now × (length (words basis.now) < 4294967296) × (column < 4294967296) × StageRoom room rows.old columns.old values.old × (count ≤ room) }
    ensures { Lays room (staged count rows.old columns.old values.old ++ column_entries (words basis.now) column (listed (sum_rows touched sum_words.now sums.now))) rows.new columns.new values.new result }
{
    let mut end = count;
    for i in 0..touched {
        let t = term_at(sum_words, sums, i);
        let x = t.number.re;
        if is_zero(x) {
            continue;
        }
        let w = t.word;
        let place = last_place(basis, heads, nexts, w);
        if place == 0 {
            continue;
        }
        if end == room {
            return None;
        }
        let row = place - 1;
        rows[end] = row as u32;
        columns[end] = column as u32;
        values[end] = x;
        end += 1;
    }
    Some(end)
}
