// SPDX-FileCopyrightText: 2026 The PPVM Authors
// SPDX-License-Identifier: Apache-2.0

// The tables of a model: Hamiltonian terms (words, coefficients), jumps and pairs (numbers, rates),
// and terms (words, complex numbers), to which the jumps and pairs refer by ranges.
ghost use Rattle.std.specs.Prelude.{◌≡◌, ◌+◌, ◌*◌, ◌<◌, ◌≤◌, length};
ghost use Rattle.model.specs.Stored.{jump_at, entry, lay_entry};

// The qubits of a model's register and the entries of its three tables.
#[repr(C)]
#[derive(Clone, Copy)]
pub struct Model {
    pub qubits: usize,
    pub hamiltonian: usize,
    pub jumps: usize,
    pub terms: usize,
}

// Places of the terms table, from start to before end.
#[derive(Clone, Copy)]
pub struct Range {
    pub start: usize,
    pub end: usize,
}

// An entry of the table of jumps and pairs. A Pauli's word is that of its term; the terms, factors
// and products of the others stand in the terms table too.
#[derive(Clone, Copy)]
pub enum Jump {
    Pauli {
        rate: f64,
        term: usize,
    },
    General {
        rate: f64,
        terms: Range,
        product: Range,
    },
    Pair {
        left: Range,
        right: Range,
        factors: usize,
        product: Range,
    },
}

// The numbers of an entry.
pub const JUMP_NUMBERS: usize = 8;

pub fn jump_at(jumps: &[u64], rates: &[f64], j: usize) -> Jump
    requires { (8 * j + 8 ≤ length jumps.now) × (j < length rates.now) }
    ensures { result ≡ jump_at jumps.now rates.now j }
{
    let at = j * JUMP_NUMBERS;
    let kind = jumps[at];
    let left = Range {
        start: jumps[at + 1] as usize,
        end: jumps[at + 2] as usize,
    };
    let product = Range {
        start: jumps[at + 6] as usize,
        end: jumps[at + 7] as usize,
    };
    if kind == 0 {
        return Jump::Pauli {
            rate: rates[j],
            term: jumps[at + 1] as usize,
        };
    }
    if kind == 1 {
        return Jump::General {
            rate: rates[j],
            terms: left,
            product,
        };
    }
    Jump::Pair {
        left,
        right: Range {
            start: jumps[at + 3] as usize,
            end: jumps[at + 4] as usize,
        },
        factors: jumps[at + 5] as usize,
        product,
    }
}

// Lays an entry's numbers at place j.
pub fn lay_entry(
    jumps: &mut [u64],
    j: usize,
    kind: u64,
    left: Range,
    right: Range,
    factors: usize,
    product: Range,
)
    requires { 8 * j + 8 ≤ length jumps.old }
    ensures { jumps.new ≡ lay_entry jumps.old j (entry kind left right factors product) }
{
    let at = j * JUMP_NUMBERS;
    jumps[at] = kind;
    jumps[at + 1] = left.start as u64;
    jumps[at + 2] = left.end as u64;
    jumps[at + 3] = right.start as u64;
    jumps[at + 4] = right.end as u64;
    jumps[at + 5] = factors as u64;
    jumps[at + 6] = product.start as u64;
    jumps[at + 7] = product.end as u64;
}
