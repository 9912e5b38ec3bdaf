// SPDX-FileCopyrightText: 2026 The PPVM Authors
// SPDX-License-Identifier: Apache-2.0

// Texts, codes and products of Pauli words.
use crate::print;
use pebblelinen::words::Parsed;
use word::word::{MAX_QUBITS, Word};

// The word that was read, by its letters, or the refusal.
fn print_parsed(rt: &impl Print, answer: Parsed, n_qubits: usize) {
    let status = answer.status;
    let word = answer.word;
    if status.refusal != 0 {
        print::refusal(rt, status);
    } else {
        print::word(rt, word, n_qubits);
    }
    print::end_line(rt);
}

fn read_text(rt: &impl Print, text: &[u8], n_qubits: usize) {
    print::text(rt, b"text ");
    print::text(rt, text);
    print::text(rt, b" at ");
    print::number(rt, n_qubits as u64);
    print::text(rt, b" qubits: ");
    let answer = pebblelinen::words::pebblelinen_parse_pauli_string(text, n_qubits);
    print_parsed(rt, answer, n_qubits);
}

// A text of one letter I for each qubit.
fn read_identity(rt: &impl Print, text: &[u8]) {
    print::text(rt, b"text of ");
    print::number(rt, text.len() as u64);
    print::text(rt, b" letters I at as many qubits: ");
    let answer = pebblelinen::words::pebblelinen_parse_pauli_string(text, text.len());
    let status = answer.status;
    if status.refusal != 0 {
        print::refusal(rt, status);
    } else {
        print::text(rt, b"accepted");
    }
    print::end_line(rt);
}

fn read_code(rt: &impl Print, code: u8) {
    print::text(rt, b"code ");
    print::number(rt, code as u64);
    print::text(rt, b": ");
    let codes = [code];
    let answer = pebblelinen::words::pebblelinen_word_from_codes(&codes);
    print_parsed(rt, answer, 1);
}

// The product of two texts, each with a letter a qubit.
fn multiply(rt: &impl Print, p: &[u8], q: &[u8]) {
    print::text(rt, p);
    print::text(rt, b" * ");
    print::text(rt, q);
    print::text(rt, b" = i^");
    let left = pebblelinen::words::pebblelinen_parse_pauli_string(p, p.len());
    let right = pebblelinen::words::pebblelinen_parse_pauli_string(q, q.len());
    let product = pebblelinen::words::pebblelinen_pauli_mul(left.word, right.word);
    print::number(rt, product.phase as u64);
    print::text(rt, b" ");
    print::word(rt, product.word, p.len());
    print::end_line(rt);
}

// X at qubit 128, by its codes: its bit is outside a register of 128 qubits, and is never left out.
fn write_qubit_128(rt: &impl Print, n_qubits: usize) {
    print::text(rt, b"the word of x lanes (0, 0, 1, 0) at ");
    print::number(rt, n_qubits as u64);
    print::text(rt, b" qubits: ");
    let w = Word {
        x: [0, 0, 1, 0],
        z: [0, 0, 0, 0],
    };
    let mut codes = [0u8; MAX_QUBITS];
    let status = pebblelinen::words::pebblelinen_codes_from_word(w, n_qubits, &mut codes);
    if status.refusal != 0 {
        print::refusal(rt, status);
    } else {
        print::text(rt, b"accepted");
    }
    print::end_line(rt);
}

// A code as a number to print.
fn wide(code: u8) -> u64 {
    code as u64
}

// X times Z at one qubit of the widest register: the phase, and the code of the product there.
fn multiply_at(rt: &impl Print, q: usize) {
    if MAX_QUBITS <= q {
        return;
    }
    let mut codes = [0u8; MAX_QUBITS];
    codes[q] = 1;
    let left = pebblelinen::words::pebblelinen_word_from_codes(&codes);
    codes[q] = 2;
    let right = pebblelinen::words::pebblelinen_word_from_codes(&codes);
    let product = pebblelinen::words::pebblelinen_pauli_mul(left.word, right.word);
    let status = pebblelinen::words::pebblelinen_codes_from_word(
        product.word,
        MAX_QUBITS,
        &mut codes,
    );
    print::text(rt, b"X * Z, both at qubit ");
    print::number(rt, q as u64);
    print::text(rt, b" of 256: i^");
    print::number(rt, product.phase as u64);
    print::text(rt, b" times a word with code ");
    print::number(rt, wide(codes[q]));
    print::text(rt, b" there");
    if status.refusal != 0 {
        print::refusal(rt, status);
    }
    print::end_line(rt);
}

pub fn run(rt: &impl Print) {
    read_text(rt, b"X_Z", 2);
    read_text(rt, b"X_Z", 3);
    read_text(rt, b"xZ", 2);
    let past_two_lanes = [b'I'; 129];
    read_identity(rt, &past_two_lanes);
    let most = [b'I'; MAX_QUBITS];
    read_identity(rt, &most);
    let more = [b'I'; 257];
    read_identity(rt, &more);
    write_qubit_128(rt, 128);
    write_qubit_128(rt, 129);
    read_code(rt, 3);
    read_code(rt, 4);
    multiply(rt, b"X", b"Z");
    multiply(rt, b"Z", b"X");
    multiply(rt, b"X", b"Y");
    multiply(rt, b"XX", b"ZZ");
    multiply_at(rt, 128);
    multiply_at(rt, 255);
}
