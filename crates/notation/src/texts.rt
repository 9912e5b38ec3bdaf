// SPDX-FileCopyrightText: 2026 The PPVM Authors
// SPDX-License-Identifier: Apache-2.0

// Reading the text of a word.
ghost use Rattle.std.specs.Prelude.{◌≡◌, ◌≤◌, length};
ghost use Rattle.word.specs.Word.{max_qubits};
ghost use Rattle.notation.specs.Text.{code_of, dropped, read_letters, parse};
ghost use Rattle.notation.specs.Between.{scan_from};

use refusal::Refusal;
use word::word::{MAX_QUBITS, Word, identity_word, put_letter};

// The code of the letter that a byte stands for, and 4 for a byte that is no letter.
fn code_of(byte: u8) -> u8
    ensures { result ≡ code_of byte }
{
    if byte == b'I' {
        return 0;
    }
    if byte == b'X' {
        return 1;
    }
    if byte == b'Z' {
        return 2;
    }
    if byte == b'Y' {
        return 3;
    }
    4
}

// A first look at a text: how many bytes are no underscores, refused at the first byte from 128 up.
fn scan_text(text: &[u8]) -> Result<usize, Refusal>
    ensures { result ≡ scan_from 0 text.now }
{
    let mut place = 0;
    for &byte in text {
        if byte == b'_' {
            continue;
        }
        if 128 <= byte {
            return Err(Refusal::InvalidPauliByte { byte, place });
        }
        place += 1;
    }
    Ok(place)
}

// The word of a text with at most MAX_QUBITS letters. Most letters of a term are I, and leave the word as
// it is.
fn read_letters(text: &[u8]) -> Result<Word, Refusal>
    requires { length (dropped text.now) ≤ max_qubits }
    ensures { result ≡ read_letters (dropped text.now) }
{
    let mut w = identity_word();
    let mut q = 0;
    for i in 0..text.len() {
        let byte = text[i];
        if byte == b'_' {
            continue;
        }
        let code = code_of(byte);
        if 3 < code {
            return Err(Refusal::InvalidPauliByte { byte, place: q });
        }
        if code != 0 {
            put_letter(&mut w, q, code);
        }
        q += 1;
    }
    Ok(w)
}

// The word of a text: `_` bytes are dropped, then exactly n_qubits letters, qubit 0 first.
pub fn parse_pauli_string(text: &[u8], n_qubits: usize) -> Result<Word, Refusal>
    ensures { result ≡ parse n_qubits text.now }
{
    if MAX_QUBITS < n_qubits {
        return Err(Refusal::TooManyQubits {
            got: n_qubits,
            max: MAX_QUBITS,
        });
    }
    let got = scan_text(text)?;
    if got != n_qubits {
        return Err(Refusal::WrongLength {
            expected: n_qubits,
            got,
        });
    }
    read_letters(text)
}
