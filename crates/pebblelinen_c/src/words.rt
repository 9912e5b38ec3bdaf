// SPDX-FileCopyrightText: 2026 The PPVM Authors
// SPDX-License-Identifier: Apache-2.0

// Pauli words: texts, codes, products and order.
ghost use Rattle.std.specs.Prelude.{◌≡◌};
ghost use Rattle.notation.specs.Text.{parse};
ghost use Rattle.notation.specs.Codes.{read_codes};
ghost use Rattle.notation.specs.Signs.{sign_of};
ghost use Rattle.word.specs.Product.{product, anti_commute, commutator};
ghost use Rattle.word.specs.Order.{compare, same};
ghost use Rattle.word.specs.Register.{share};
ghost use Rattle.pebblelinen.specs.Words.{parsed_of, Writes, fitting_of};

use pebblelinen::words::{Fitting, Parsed};
use refusal::Status;
use word::algebra::{CommProduct, Phased};
use word::word::Word;

#[unsafe(no_mangle)]
pub extern "C" fn pebblelinen_parse_pauli_string(text: &[u8], n_qubits: usize) -> Parsed
    ensures { result ≡ parsed_of (parse n_qubits text.now) }
{
    pebblelinen::words::pebblelinen_parse_pauli_string(text, n_qubits)
}

#[unsafe(no_mangle)]
pub extern "C" fn pebblelinen_word_from_codes(codes: &[u8]) -> Parsed
    ensures { result ≡ parsed_of (read_codes codes.now) }
{
    pebblelinen::words::pebblelinen_word_from_codes(codes)
}

#[unsafe(no_mangle)]
pub extern "C" fn pebblelinen_codes_from_word(word: Word, n_qubits: usize, out: &mut [u8]) -> Status
    ensures { Writes word n_qubits out.old result out.new }
{
    pebblelinen::words::pebblelinen_codes_from_word(word, n_qubits, out)
}

#[unsafe(no_mangle)]
pub extern "C" fn pebblelinen_pauli_mul(p: Word, q: Word) -> Phased
    ensures { result ≡ product p q }
{
    pebblelinen::words::pebblelinen_pauli_mul(p, q)
}

#[unsafe(no_mangle)]
pub extern "C" fn pebblelinen_anti_commutes(p: Word, q: Word) -> bool
    ensures { result ≡ anti_commute p q }
{
    pebblelinen::words::pebblelinen_anti_commutes(p, q)
}

#[unsafe(no_mangle)]
pub extern "C" fn pebblelinen_comm_product(h: Word, p: Word) -> CommProduct
    ensures { result ≡ commutator h p }
{
    pebblelinen::words::pebblelinen_comm_product(h, p)
}

#[unsafe(no_mangle)]
pub extern "C" fn pebblelinen_compare_words(p: Word, q: Word) -> i32
    ensures { result ≡ sign_of (compare p q) }
{
    pebblelinen::words::pebblelinen_compare_words(p, q)
}

#[unsafe(no_mangle)]
pub extern "C" fn pebblelinen_same_word(p: Word, q: Word) -> bool
    ensures { result ≡ same p q }
{
    pebblelinen::words::pebblelinen_same_word(p, q)
}

#[unsafe(no_mangle)]
pub extern "C" fn pebblelinen_shares_qubit(p: Word, q: Word) -> bool
    ensures { result ≡ share p q }
{
    pebblelinen::words::pebblelinen_shares_qubit(p, q)
}

#[unsafe(no_mangle)]
pub extern "C" fn pebblelinen_fits_register(word: Word, n_qubits: usize) -> Fitting
    ensures { result ≡ fitting_of word n_qubits }
{
    pebblelinen::words::pebblelinen_fits_register(word, n_qubits)
}
