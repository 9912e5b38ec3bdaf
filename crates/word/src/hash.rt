// SPDX-FileCopyrightText: 2026 The PPVM Authors
// SPDX-License-Identifier: Apache-2.0

// A number for each word, by which words are spread over slots. Which number is free: words that are
// the same have the same, and few of the others should.
ghost use Rattle.std.specs.Prelude.{◌≡◌, ◌<◌};
ghost use Rattle.word.specs.Hash.{half, lane_hash, upper_hash, word_hash};

use crate::word::Word;

const HALF: u64 = 4_294_967_296;

fn lane_hash(a: u64, b: u64, lane: u64) -> u64
    requires { (a < half) × (b < half) }
    ensures { result ≡ lane_hash a b lane }
{
    ((lane % HALF) * a) ^ ((lane / HALF) * b)
}

// The part of the lanes from qubit 128 on, which most words leave empty.
fn upper_hash(x2: u64, x3: u64, z2: u64, z3: u64) -> u64
    ensures { result ≡ upper_hash x2 x3 z2 z3 }
{
    if (x2 | x3) | (z2 | z3) == 0 {
        return 0;
    }
    let a = lane_hash(0xcc9e_2d51, 0x1b87_3593, x2);
    let b = lane_hash(0x7feb_352d, 0x846c_a68b, x3);
    let c = lane_hash(0x3c6e_f35f, 0x2545_f491, z2);
    let d = lane_hash(0xed5a_d4bb, 0xac4c_1b51, z3);
    (a ^ b) ^ (c ^ d)
}

pub fn word_hash(w: Word) -> u64
    ensures { result ≡ word_hash w }
{
    let x = w.x;
    let z = w.z;
    let x0 = lane_hash(0x9e37_79b1, 0x85eb_ca77, x[0]);
    let x1 = lane_hash(0xc2b2_ae3d, 0x27d4_eb2f, x[1]);
    let z0 = lane_hash(0x1656_67b1, 0xd3a2_646d, z[0]);
    let z1 = lane_hash(0xfd70_46c5, 0xb55a_4f09, z[1]);
    let upper = upper_hash(x[2], x[3], z[2], z[3]);
    let h = ((x0 ^ x1) ^ (z0 ^ z1)) ^ upper;
    let folded = (h ^ (h / HALF)) % HALF;
    folded * 0x9e37_79b1 / 1_048_576
}
