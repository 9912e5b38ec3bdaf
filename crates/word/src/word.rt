// SPDX-FileCopyrightText: 2026 The PPVM Authors
// SPDX-License-Identifier: Apache-2.0

// The packed Pauli word, its letters, and the order of words.
ghost use Rattle.std.specs.Prelude.{◌≡◌, ℕ, ◌+◌, ◌*◌, ◌<◌, ◌-◌, ◌/◌, ◌^◌, eqb};
ghost use Rattle.word.specs.Word.{max_qubits, bit, letter_at, identity};
ghost use Rattle.word.specs.Register.{reaches, share};
ghost use Rattle.word.specs.Order.{compare_then, compare_lanes, compare, before, same};
ghost use Rattle.word.specs.Steps.{chosen, Put};
ghost use Rattle.word.specs.Between.{NextQubit, DigitsFrom, join, covers};

use std::cmp::Ordering;

// The lanes of a word's x and of its z, and the qubits that they hold, 64 to a lane.
pub const LANES: usize = 4;

pub const MAX_QUBITS: usize = 64 * LANES;

// Qubit q is bit q % 64 of lane q / 64: I has neither bit, X its x bit, Z its z bit, and Y both.
#[repr(C)]
#[derive(Clone, Copy)]
pub struct Word {
    pub x: [u64; LANES],
    pub z: [u64; LANES],
}

// I at every qubit.
pub fn identity_word() -> Word
    ensures { result ≡ identity }
{
    let none = [0; LANES];
    Word { x: none, z: none }
}

// The letter of a qubit, as its code.
pub fn letter(w: Word, q: usize) -> u8
    requires { q < max_qubits }
    ensures { result ≡ letter_at w q }
{
    let i = q / 64;
    let k = q % 64;
    let x = (w.x[i] >> k) % 2;
    let z = (w.z[i] >> k) % 2;
    (x + 2 * z) as u8
}

// A lane with bit k replaced by b.
fn with_bit(lane: u64, k: usize, b: u64) -> u64
    requires { (k < 64) × (b < 2) }
    ensures { (j : ℕ) → j < 64 → bit result j ≡ chosen (eqb j k) b (bit lane j) }
{
    (lane & !(1 << k)) | (b << k)
}

// Replaces the letter at a qubit, where the word stands.
pub fn put_letter(w: &mut Word, q: usize, code: u8)
    requires { (q < max_qubits) × (code < 4) }
    ensures { Put w.old q code w.new }
{
    let lane = q / 64;
    let k = q % 64;
    let l = code as u64;
    w.x[lane] = with_bit(w.x[lane], k, l % 2);
    w.z[lane] = with_bit(w.z[lane], k, l / 2);
}

// A word with the letter at a qubit replaced.
pub fn with_letter(w: Word, q: usize, code: u8) -> Word
    requires { (q < max_qubits) × (code < 4) }
    ensures { Put w q code result }
{
    let mut v = w;
    put_letter(&mut v, q, code);
    v
}

// The first qubit at or after `from` that has a letter other than I, and MAX_QUBITS where there is
// none.
pub fn next_qubit(w: Word, from: usize) -> usize
    ensures { NextQubit w from result }
{
    if MAX_QUBITS <= from {
        return MAX_QUBITS;
    }
    let first = from / 64;
    let rest = (w.x[first] | w.z[first]) >> (from % 64);
    if rest != 0 {
        return from + u64::trailing_zeros(rest) as usize;
    }
    for i in first + 1..LANES {
        let lane = w.x[i] | w.z[i];
        if lane != 0 {
            return i * 64 + u64::trailing_zeros(lane) as usize;
        }
    }
    MAX_QUBITS
}

// The digits at or above qubit n of a lane whose first qubit is `from`.
fn digits_from(from: usize, n: usize) -> u64
    ensures { DigitsFrom from n result }
{
    if n <= from {
        return !0;
    }
    if 64 <= n - from {
        return 0;
    }
    !((1 << (n - from)) - 1)
}

// Whether a word has a letter other than I at or above qubit n. All words of models and bases are asked
// this: the digits are those of the register, and a loop over words finds them once. There are none at
// or above the widest register.
pub fn reaches_beyond(w: Word, n_qubits: usize) -> bool
    ensures { result ≡ reaches w n_qubits }
{
    if MAX_QUBITS <= n_qubits {
        return false;
    }
    let m0 = digits_from(0, n_qubits);
    let m1 = digits_from(64, n_qubits);
    let m2 = digits_from(128, n_qubits);
    let m3 = digits_from(192, n_qubits);
    let x = w.x;
    let z = w.z;
    let s0 = (x[0] | z[0]) & m0;
    let s1 = (x[1] | z[1]) & m1;
    let s2 = (x[2] | z[2]) & m2;
    let s3 = (x[3] | z[3]) & m3;
    s0 | s1 | s2 | s3 != 0
}

// Whether two words share a qubit: one has a letter other than I there, and so has the other.
pub fn shares_qubit(p: Word, q: Word) -> bool
    ensures { result ≡ share p q }
{
    let x = p.x;
    let z = p.z;
    let u = q.x;
    let v = q.z;
    let s0 = (x[0] | z[0]) & (u[0] | v[0]);
    let s1 = (x[1] | z[1]) & (u[1] | v[1]);
    let s2 = (x[2] | z[2]) & (u[2] | v[2]);
    let s3 = (x[3] | z[3]) & (u[3] | v[3]);
    s0 | s1 | s2 | s3 != 0
}

// a against b.
fn compare_numbers(a: u64, b: u64) -> Ordering
    ensures { result ≡ compare_then a b Ordering.Equal }
{
    a.cmp(&b)
}

// The lanes a against the lanes b as numbers. The first difference decides, and nothing is looked at after it.
fn compare_lanes(a: [u64; LANES], b: [u64; LANES]) -> Ordering
    ensures { result ≡ compare_lanes a b Ordering.Equal }
{
    if a[0] != b[0] {
        return compare_numbers(a[0], b[0]);
    }
    if a[1] != b[1] {
        return compare_numbers(a[1], b[1]);
    }
    if a[2] != b[2] {
        return compare_numbers(a[2], b[2]);
    }
    compare_numbers(a[3], b[3])
}

// The order of words: x lanes, then z lanes; the first difference decides.
pub fn compare_words(p: Word, q: Word) -> Ordering
    ensures { result ≡ compare p q }
{
    let px = p.x;
    let qx = q.x;
    if px[0] != qx[0] {
        return compare_numbers(px[0], qx[0]);
    }
    if px[1] != qx[1] {
        return compare_numbers(px[1], qx[1]);
    }
    if px[2] != qx[2] {
        return compare_numbers(px[2], qx[2]);
    }
    if px[3] != qx[3] {
        return compare_numbers(px[3], qx[3]);
    }
    let pz = p.z;
    let qz = q.z;
    compare_lanes(pz, qz)
}

// Whether v goes before w.
pub fn is_before(v: Word, w: Word) -> bool
    ensures { result ≡ before v w }
{
    compare_words(v, w).is_lt()
}

pub fn same_word(p: Word, q: Word) -> bool
    ensures { result ≡ same p q }
{
    let x = p.x;
    let z = p.z;
    let u = q.x;
    let v = q.z;
    let d0 = (x[0] ^ u[0]) | (z[0] ^ v[0]);
    let d1 = (x[1] ^ u[1]) | (z[1] ^ v[1]);
    let d2 = (x[2] ^ u[2]) | (z[2] ^ v[2]);
    let d3 = (x[3] ^ u[3]) | (z[3] ^ v[3]);
    d0 | d1 | d2 | d3 == 0
}

// The bits of both words.
pub fn joined(u: Word, w: Word) -> Word
    ensures { result ≡ join u w }
{
    let a = u.x;
    let b = u.z;
    let x = w.x;
    let z = w.z;
    Word {
        x: [a[0] | x[0], a[1] | x[1], a[2] | x[2], a[3] | x[3]],
        z: [b[0] | z[0], b[1] | z[1], b[2] | z[2], b[3] | z[3]],
    }
}

// Whether u has every bit of w.
pub fn covers_word(u: Word, w: Word) -> bool
    ensures { result ≡ covers u w }
{
    let a = u.x;
    let b = u.z;
    let x = w.x;
    let z = w.z;
    let m0 = (x[0] & !a[0]) | (z[0] & !b[0]);
    let m1 = (x[1] & !a[1]) | (z[1] & !b[1]);
    let m2 = (x[2] & !a[2]) | (z[2] & !b[2]);
    let m3 = (x[3] & !a[3]) | (z[3] & !b[3]);
    m0 | m1 | m2 | m3 == 0
}
