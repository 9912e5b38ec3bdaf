// SPDX-FileCopyrightText: 2026 The PPVM Authors
// SPDX-License-Identifier: Apache-2.0

// Texts, numbers, words and refusals on standard output.
use refusal::Status;
use word::word::{MAX_QUBITS, Word};

pub fn text(rt: &impl Print, bytes: &[u8]) {
    let _ = rt.write_all(bytes);
}

pub fn number(rt: &impl Print, n: u64) {
    let _ = rt.print(n);
}

// The numbers that the examples list: 0, 0.5, 1 and 3, with their sign.
pub fn value(rt: &impl Print, x: f64) {
    let size = number::scalar::magnitude(x);
    if x < 0.0 {
        text(rt, b"-");
    }
    if size == 0.0 {
        text(rt, b"0");
    } else if size == 0.5 {
        text(rt, b"0.5");
    } else if size == 1.0 {
        text(rt, b"1");
    } else if size == 3.0 {
        text(rt, b"3");
    } else {
        text(rt, b"another number");
    }
}

pub fn end_line(rt: &impl Print) {
    text(rt, b"\n");
}

// Whether a cause has two values, and not one.
fn has_two(cause: u64) -> bool {
    match cause {
        1 | 2 | 3 | 9 | 10 | 13 | 16 => true,
        _ => false,
    }
}

// A refusal by its number, with its values.
pub fn refusal(rt: &impl Print, status: Status) {
    text(rt, b"refusal ");
    number(rt, status.refusal);
    text(rt, b" (");
    number(rt, status.first);
    if has_two(status.refusal) {
        text(rt, b", ");
        number(rt, status.second);
    }
    text(rt, b")");
}

fn letter_of(code: u8) -> u8 {
    match code {
        0 => b'I',
        1 => b'X',
        2 => b'Z',
        3 => b'Y',
        _ => b'?',
    }
}

fn letters(rt: &impl Print, codes: &[u8]) {
    for code in codes {
        text(rt, &[letter_of(*code)]);
    }
}

// The letters of a word's first n_qubits qubits, as its codes give them.
pub fn word(rt: &impl Print, w: Word, n_qubits: usize) {
    let mut codes = [0u8; MAX_QUBITS];
    let status = pebblelinen::words::pebblelinen_codes_from_word(w, n_qubits, &mut codes);
    if status.refusal != 0 {
        refusal(rt, status);
        return;
    }
    // Codes are written for no more qubits than these.
    if n_qubits <= MAX_QUBITS {
        letters(rt, &codes[0..n_qubits]);
    }
}
