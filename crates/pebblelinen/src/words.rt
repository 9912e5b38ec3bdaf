// SPDX-FileCopyrightText: 2026 The PPVM Authors
// SPDX-License-Identifier: Apache-2.0

// Pauli words: texts, codes, products and order.
ghost use Rattle.std.specs.Prelude.{◌≡◌};
ghost use Rattle.notation.specs.Text.{parse};
ghost use Rattle.notation.specs.Codes.{read_codes};
ghost use Rattle.notation.specs.Signs.{sign_of};
ghost use Rattle.word.specs.Product.{product, anti_commute, commutator};
ghost use Rattle.word.specs.Order.{compare, same};
ghost use Rattle.word.specs.Register.{share};
ghost use Rattle.pebblelinen.specs.Words.{parsed_of, Writes, fitting_of};

use refusal::{ACCEPTED, Refusal, Status};
use word::algebra::{CommProduct, Phased};
use word::word::{MAX_QUBITS, Word};

// A word that was read; the identity where the status is a refusal.
#[repr(C)]
#[derive(Drop)]
pub struct Parsed {
    pub status: Status,
    pub word: Word,
}

impl From<Result<Word, Refusal>> for Parsed {
    ghost from_gives = { λ answer made. made ≡ parsed_of answer };

    fn from(answer: Result<Word, Refusal>) -> Parsed {
        match answer {
            Ok(word) => Parsed {
                status: ACCEPTED,
                word,
            },
            Err(refusal) => Parsed {
                status: Status::from(refusal),
                word: word::word::identity_word(),
            },
        }
    }
}

pub fn pebblelinen_parse_pauli_string(text: &[u8], n_qubits: usize) -> Parsed
    ensures { result ≡ parsed_of (parse n_qubits text.now) }
{
    Parsed::from(notation::texts::parse_pauli_string(text, n_qubits))
}

pub fn pebblelinen_word_from_codes(codes: &[u8]) -> Parsed
    ensures { result ≡ parsed_of (read_codes codes.now) }
{
    Parsed::from(notation::codes::word_from_codes(codes))
}

pub fn pebblelinen_codes_from_word(word: Word, n_qubits: usize, out: &mut [u8]) -> Status
    ensures { Writes word n_qubits out.old result out.new }
{
    Status::from(notation::codes::codes_from_word(word, n_qubits, out))
}

pub fn pebblelinen_pauli_mul(p: Word, q: Word) -> Phased
    ensures { result ≡ product p q }
{
    word::algebra::pauli_mul(p, q)
}

pub fn pebblelinen_anti_commutes(p: Word, q: Word) -> bool
    ensures { result ≡ anti_commute p q }
{
    word::algebra::anti_commutes(p, q)
}

pub fn pebblelinen_comm_product(h: Word, p: Word) -> CommProduct
    ensures { result ≡ commutator h p }
{
    word::algebra::comm_product(h, p)
}

pub fn pebblelinen_compare_words(p: Word, q: Word) -> i32
    ensures { result ≡ sign_of (compare p q) }
{
    notation::signs::sign_of(word::word::compare_words(p, q))
}

pub fn pebblelinen_same_word(p: Word, q: Word) -> bool
    ensures { result ≡ same p q }
{
    word::word::same_word(p, q)
}

pub fn pebblelinen_shares_qubit(p: Word, q: Word) -> bool
    ensures { result ≡ share p q }
{
    word::word::shares_qubit(p, q)
}

// Whether a word has no letter other than I at or above qubit n; false where the status is a refusal.
#[repr(C)]
#[derive(Drop)]
pub struct Fitting {
    pub status: Status,
    pub fits: bool,
}

pub fn pebblelinen_fits_register(word: Word, n_qubits: usize) -> Fitting
    ensures { result ≡ fitting_of word n_qubits }
{
    if MAX_QUBITS < n_qubits {
        return Fitting {
            status: Status::from(Refusal::TooManyQubits {
                got: n_qubits,
                max: MAX_QUBITS,
            }),
            fits: false,
        };
    }
    Fitting {
        status: ACCEPTED,
        fits: !word::word::reaches_beyond(word, n_qubits),
    }
}
