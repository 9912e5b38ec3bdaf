// SPDX-FileCopyrightText: 2026 The PPVM Authors
// SPDX-License-Identifier: Apache-2.0

// Words as codes, a number from 0 to 3 for each qubit.
ghost use Rattle.std.specs.Prelude.{◌≡◌};
ghost use Rattle.notation.specs.Codes.{read_codes};
ghost use Rattle.notation.specs.Between.{Wrote};

use refusal::Refusal;
use word::word::{MAX_QUBITS, Word, identity_word, letter, put_letter, reaches_beyond};

// The word of a code for each qubit, qubit 0 first.
pub fn word_from_codes(codes: &[u8]) -> Result<Word, Refusal>
    ensures { result ≡ read_codes codes.now }
{
    let n_qubits = codes.len();
    if MAX_QUBITS < n_qubits {
        return Err(Refusal::TooManyQubits {
            got: n_qubits,
            max: MAX_QUBITS,
        });
    }
    let mut w = identity_word();
    for (q, &code) in codes.iter().enumerate() {
        if 3 < code {
            return Err(Refusal::InvalidPauliCode { code });
        }
        put_letter(&mut w, q, code);
    }
    Ok(w)
}

// Writes a code for each of the first n_qubits qubits; places from n_qubits on stay as they were.
pub fn codes_from_word(w: Word, n_qubits: usize, out: &mut [u8]) -> Result<(), Refusal>
    ensures { Wrote w n_qubits out.old result out.new }
{
    if MAX_QUBITS < n_qubits {
        return Err(Refusal::TooManyQubits {
            got: n_qubits,
            max: MAX_QUBITS,
        });
    }
    if out.len() < n_qubits {
        return Err(Refusal::LengthMismatch {
            needed: n_qubits,
            given: out.len(),
        });
    }
    if reaches_beyond(w, n_qubits) {
        return Err(Refusal::WordOutsideRegister { position: 0 });
    }
    for q in 0..n_qubits {
        out[q] = letter(w, q);
    }
    Ok(())
}
