// SPDX-FileCopyrightText: 2026 The PPVM Authors
// SPDX-License-Identifier: Apache-2.0

// Which of up to 4,096 items share a qubit with a word, by a row of bits for each qubit. An item is a
// list of words. A row has as many lanes as the items need, at most 64. Both tables are lent: 64 lanes
// for each qubit, of which the rows take the first, one after another, and 64 lanes for the mask.
#![tactic(auto)]

ghost use Rattle.std.specs.Prelude.{◌≡◌, ◌∷◌, [], ℕ, ◌+◌, ◌*◌, ◌<◌, ◌≤◌, min, length, get_or};
ghost use Rattle.std.specs.Int.Bits.{bit_or};
ghost use Rattle.word.specs.Word.{max_qubits};
ghost use Rattle.index.specs.Index.{row_lanes, Marks, United};
ghost use Rattle.index.specs.Visit.{flagged, left, Steps};

use word::word::{MAX_QUBITS, Word, next_qubit};

// The set bits left to visit: those of rest, in lane `lane`, and those of the lanes after it.
#[derive(Drop)]
pub struct Cursor {
    pub lane: usize,
    pub rest: u64,
}

// How many of n qubits a word holds.
fn held_qubits(n: usize) -> usize
    ensures { result ≡ min n max_qubits }
{
    if MAX_QUBITS < n {
        return MAX_QUBITS;
    }
    n
}

// The lanes of a row for so many items.
pub fn row_lanes(items: usize) -> usize
    ensures { result ≡ row_lanes items }
{
    if items == 0 {
        return 1;
    }
    (items - 1) / 64 + 1
}

// Adds the word w to item j, in rows of so many lanes.
pub fn mark_word(index: &mut [u64], row: usize, n: usize, j: usize, w: Word)
    requires { (64 * n ≤ length index.old) × (row ≤ 64) × (j < row * 64) }
    ensures { Marks row n j (w ∷ []) index.old index.new }
{
    let end = held_qubits(n);
    // From qubit to qubit of the word.
    let mut q = next_qubit(w, 0);
    while q < end {
        let at = q * row + j / 64;
        index[at] = index[at] | (1 << (j % 64));
        q = next_qubit(w, q + 1);
    }
}

// The first lanes of a mask, set to 0.
fn clear_row(mask: &mut [u64], row: usize)
    requires { row ≤ length mask.old }
    ensures { (i : ℕ) → i < row → get_or mask.new i 0 ≡ 0 }
{
    mask[..row].fill(0);
}

// A row of the index, from at on, or'd into a mask.
fn or_row(mask: &mut [u64], row: usize, index: &[u64], at: usize)
    requires { (row ≤ length mask.old) × (at + row ≤ length index.now) }
    ensures { (i : ℕ) → i < row → get_or mask.new i 0 ≡ bit_or (get_or mask.old i 0) (get_or index.now (at + i) 0) }
{
    for i in 0..row {
        mask[i] = mask[i] | index[at + i];
    }
}

// The union of the rows of the qubits below n that p acts on, laid into a mask.
pub fn union_rows(p: Word, row: usize, n: usize, index: &[u64], mask: &mut [u64])
    requires { (64 * n ≤ length index.now) × (64 ≤ length mask.old) × (row ≤ 64) }
    ensures { United row n p index.now mask.new }
{
    clear_row(mask, row);
    let end = held_qubits(n);
    // From qubit to qubit of p.
    let mut q = next_qubit(p, 0);
    while q < end {
        or_row(mask, row, index, q * row);
        q = next_qubit(p, q + 1);
    }
}

// All set bits of a mask.
pub fn start(mask: &[u64], row: usize) -> Cursor
    requires { (64 ≤ length mask.now) × (0 < row) }
    ensures { (left row mask.now result ≡ flagged row mask.now 0) × (result.lane < row) }
{
    Cursor {
        lane: 0,
        rest: mask[0],
    }
}

// The first of the set bits that are left, and the others; None where none is.
pub fn step(mask: &[u64], row: usize, c: Cursor) -> Option<(usize, Cursor)>
    requires { (64 ≤ length mask.now) × (row ≤ 64) × (c.lane < row) }
    ensures { Steps row mask.now c result }
{
    let mut lane = c.lane;
    let mut m = c.rest;
    // On to the next lane that has a bit left.
    while m == 0 {
        lane += 1;
        if row <= lane {
            return None;
        }
        m = mask[lane];
    }
    let j = lane * 64 + u64::trailing_zeros(m) as usize;
    let rest = m & (m - 1);
    Some((j, Cursor { lane, rest }))
}
