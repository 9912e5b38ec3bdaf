// SPDX-FileCopyrightText: 2026 The PPVM Authors
// SPDX-License-Identifier: Apache-2.0

// What one stored item adds for a word p, put to the sums of a lent table: `room` places, of which the
// first `len` are in use. The answer is how many are in use afterwards, or that there is no room.
ghost use Rattle.std.specs.Prelude.{cond, ◌∷◌, [], ◌%◌};
ghost use Rattle.word.specs.Product.{phase};
ghost use Rattle.word.specs.Register.{share};
ghost use Rattle.number.specs.Floats.{floats};
ghost use Rattle.gksl.specs.Rules.{terms_over, clash_over};
ghost use Rattle.gksl.specs.Words.{pauli};
ghost use Rattle.rule_terms.specs.Sums.{SumsRoom, PutsAll};

use number::scalar::real;
use sums::sums::{put, put_at};
use word::algebra::{anti_commutes, comm_product};
use word::word::Word;

// A Hamiltonian term of word h and number x: x × factor onto h·p, where they share a qubit.
pub fn put_hamiltonian(
    lanes: &mut [u64],
    sums: &mut [f64],
    room: usize,
    len: usize,
    h: Word,
    x: f64,
    p: Word,
) -> Option<usize>
    requires { SumsRoom room len lanes.old sums.old }
    ensures { PutsAll room len (terms_over floats pauli (record { num = x; word = h } ∷ []) p) lanes.old sums.old lanes.new sums.new result }
{
    // Words that share no qubit commute.
    if !anti_commutes(h, p) {
        return Some(len);
    }
    let c = comm_product(h, p);
    let w = c.word;
    put(lanes, sums, room, len, w, real(x * c.eps))
}

// One real term of word w, stored with its rate: −2 × rate onto p where they anticommute. p may stand at
// `at`.
pub fn put_pauli(
    lanes: &mut [u64],
    sums: &mut [f64],
    room: usize,
    len: usize,
    at: usize,
    w: Word,
    rate: f64,
    p: Word,
) -> Option<usize>
    requires { SumsRoom room len lanes.old sums.old }
    ensures { PutsAll room len (cond (share w p) (clash_over floats pauli (phase w p % 2) rate p) []) lanes.old sums.old lanes.new sums.new result }
{
    if !anti_commutes(w, p) {
        return Some(len);
    }
    put_at(lanes, sums, room, len, at, p, real(-2.0 * rate))
}
