// SPDX-FileCopyrightText: 2026 The PPVM Authors
// SPDX-License-Identifier: Apache-2.0

// Items taken into tables once they are tested.
ghost use Rattle.std.specs.Prelude.{◌≡◌, map};
ghost use Rattle.model_build.specs.Built.{parts, real_items};
ghost use Rattle.model_build.specs.Taken.{word_taken, real_taken, RealsRoom, LaysReals};

use notation::texts::parse_pauli_string;
use word::flat::set_word;
use word::word::{Word, identity_word};

// The word of a text that was tested.
pub fn take_word(text: &[u8], n_qubits: usize) -> Word
    ensures { result ≡ word_taken n_qubits text.now }
{
    let Ok(w) = parse_pauli_string(text, n_qubits) else {
        return identity_word();
    };
    w
}

// Lays the items of a tested Hamiltonian: the word and the number of each at its place.
pub fn store_hamiltonian(
    texts: &[u8],
    lengths: &[u64],
    numbers: &[f64],
    n_qubits: usize,
    h_words: &mut [u64],
    h_coeffs: &mut [f64],
)
    requires { RealsRoom texts.now lengths.now numbers.now h_words.old h_coeffs.old }
    ensures { LaysReals (map (real_taken n_qubits) (real_items (parts lengths.now texts.now) numbers.now)) h_words.old h_coeffs.old h_words.new h_coeffs.new }
{
    let mut at = 0;
    for (i, length) in lengths.iter().enumerate() {
        let k = *length as usize;
        let w = take_word(&texts[at..at + k], n_qubits);
        set_word(h_words, i, w);
        h_coeffs[i] = numbers[i];
        at += k;
    }
}
