// SPDX-FileCopyrightText: 2026 The PPVM Authors
// SPDX-License-Identifier: Apache-2.0

// Pauli products and commutators on word lanes.
//
// P·Q = i^phase · R, with phase 0 to 3. A product needs its phases only modulo 4, so the phases of
// the qubits are added in two bit planes, 64 counts modulo 4 side by side, and are counted once at
// the end, however many lanes there are.
ghost use Rattle.std.specs.Prelude.{◌≡◌, ◌+◌, ◌*◌, ◌%◌};
ghost use Rattle.word.specs.Product.{product, anti_commute, factor, commutator};
ghost use Rattle.word.specs.Steps.{plane_phase, lane_phase, lane_phase_at};

use crate::word::Word;

// i^phase times a word.
#[repr(C)]
#[derive(Clone, Copy)]
pub struct Phased {
    pub word: Word,
    pub phase: u32,
}

// i times a commutator: eps times a word, eps 0 where the two words commute.
#[repr(C)]
#[derive(Drop)]
pub struct CommProduct {
    pub word: Word,
    pub eps: f64,
}

// 64 counts modulo 4: bit k of `low` and of `high` are the two digits of count k.
#[derive(Drop)]
pub struct Planes {
    pub low: u64,
    pub high: u64,
}

// The counts with the phases of one lane's 64 products added: imag has the bits of the odd phases,
// sign those of the phases 3.
fn add_lane(t: Planes, a: u64, b: u64, c: u64, d: u64) -> Planes
    ensures { plane_phase result ≡ (plane_phase t + lane_phase a b c d) % 4 }
{
    let imag = (a & d) ^ (b & c);
    let sign = imag & (a ^ c ^ b ^ d ^ (a & d));
    Planes {
        low: t.low ^ imag,
        high: t.high ^ (t.low & imag) ^ sign,
    }
}

// The counts with the phases of the lanes from qubit 128 on added. Where the left word has no letter there, as
// words of at most 128 qubits, and most terms of a wide model, have none, there are no phases.
fn add_upper(t: Planes, p: Word, q: Word) -> Planes
    ensures { plane_phase result ≡ (plane_phase t + (lane_phase_at p q 2 + lane_phase_at p q 3)) % 4 }
{
    let x = p.x;
    let z = p.z;
    let u = q.x;
    let v = q.z;
    if (x[2] | z[2]) | (x[3] | z[3]) == 0 {
        return t;
    }
    let third = add_lane(t, x[2], z[2], u[2], v[2]);
    add_lane(third, x[3], z[3], u[3], v[3])
}

fn phase_of(t: Planes) -> u32
    ensures { result ≡ plane_phase t }
{
    (u64::count_ones(t.low) + 2 * u64::count_ones(t.high)) % 4
}

// The product p·q.
pub fn pauli_mul(p: Word, q: Word) -> Phased
    ensures { result ≡ product p q }
{
    let x = p.x;
    let z = p.z;
    let u = q.x;
    let v = q.z;
    let none = Planes { low: 0, high: 0 };
    let first = add_lane(none, x[0], z[0], u[0], v[0]);
    let second = add_lane(first, x[1], z[1], u[1], v[1]);
    let all = add_upper(second, p, q);
    let phase = phase_of(all);
    Phased {
        word: Word {
            x: [x[0] ^ u[0], x[1] ^ u[1], x[2] ^ u[2], x[3] ^ u[3]],
            z: [z[0] ^ v[0], z[1] ^ v[1], z[2] ^ v[2], z[3] ^ v[3]],
        },
        phase,
    }
}

// Whether p and q anticommute: the count of qubits at which their letters do is odd.
pub fn anti_commutes(p: Word, q: Word) -> bool
    ensures { result ≡ anti_commute p q }
{
    let x = p.x;
    let z = p.z;
    let u = q.x;
    let v = q.z;
    let c0 = (x[0] & v[0]) ^ (z[0] & u[0]);
    let c1 = (x[1] & v[1]) ^ (z[1] & u[1]);
    let c2 = (x[2] & v[2]) ^ (z[2] & u[2]);
    let c3 = (x[3] & v[3]) ^ (z[3] & u[3]);
    u64::count_ones(c0 ^ c1 ^ c2 ^ c3) % 2 == 1
}

// The factor of i times a commutator whose product has this phase.
fn eps_of(phase: u32) -> f64
    ensures { result ≡ factor (phase % 4) }
{
    let k = phase % 4;
    if k == 1 {
        return -2.0;
    }
    if k == 3 {
        return 2.0;
    }
    0.0
}

// i (h·p - p·h).
pub fn comm_product(h: Word, p: Word) -> CommProduct
    ensures { result ≡ commutator h p }
{
    let product = pauli_mul(h, p);
    let word = product.word;
    CommProduct {
        word,
        eps: eps_of(product.phase),
    }
}
