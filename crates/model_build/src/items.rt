// SPDX-FileCopyrightText: 2026 The PPVM Authors
// SPDX-License-Identifier: Apache-2.0

// Testing what a model is built from: lengths that make up a whole, Hamiltonian items, jumps and
// their terms. Texts stand one after another, by their lengths; so do the terms of jumps, by the
// count of each. The first refusal is the answer.
ghost use Rattle.std.specs.Prelude.{◌≡◌, ◌*◌, ◌<◌, ◌≤◌, length};
ghost use Rattle.model_build.specs.Given.{read_parsed, read_real, read_term, read_operator, read_jump};
ghost use Rattle.model_build.specs.Built.{parts, real_items, term_items, jump_items, parts_fit};
ghost use Rattle.sums.specs.Numbers.{complexes};
ghost use Rattle.model_build.specs.Items.{answer_of, read_terms};
ghost use Rattle.lent.specs.Read.{each};
ghost use Rattle.lent.specs.Laid.{total};

use notation::texts::parse_pauli_string;
use number::scalar::in_range;
use refusal::Refusal;

// The terms that an operator may have.
pub const MAX_TERMS: usize = 16;

// Whether parts of these lengths make up a whole of length `have`.
pub fn parts_fit(lengths: &[u64], have: usize) -> Result<(), Refusal>
    ensures { result ≡ parts_fit lengths.now have }
{
    let mut left = have;
    for length in lengths {
        let n = *length as usize;
        if left < n {
            return Err(Refusal::LengthMismatch {
                needed: n,
                given: left,
            });
        }
        left -= n;
    }
    if left != 0 {
        return Err(Refusal::LengthMismatch {
            needed: 0,
            given: left,
        });
    }
    Ok(())
}

// The room that texts or terms of these lengths take together.
pub fn sum_of(lengths: &[u64]) -> usize
    requires { total lengths.now < 18446744073709551616 }
    ensures { result ≡ total lengths.now }
{
    let mut sum: usize = 0;
    for length in lengths {
        sum += *length as usize;
    }
    sum
}

// Hamiltonian item `index`: its text, then its number.
pub fn check_real(text: &[u8], n_qubits: usize, index: usize, x: f64) -> Result<(), Refusal>
    ensures { result ≡ answer_of (read_real n_qubits index (record { text = text.entry.now; number = x })) }
{
    parse_pauli_string(text, n_qubits)?;
    if !in_range(x) {
        return Err(Refusal::NumberOutOfRange { index });
    }
    Ok(())
}

// A term of jump or operator `index`: its text, then its number.
pub fn check_term(
    text: &[u8],
    n_qubits: usize,
    index: usize,
    re: f64,
    im: f64,
) -> Result<(), Refusal>
    ensures { result ≡ answer_of (read_term n_qubits index (record { text = text.entry.now; number = record { re = re; im = im } })) }
{
    parse_pauli_string(text, n_qubits)?;
    if !in_range(re) {
        return Err(Refusal::NumberOutOfRange { index });
    }
    if !in_range(im) {
        return Err(Refusal::NumberOutOfRange { index });
    }
    Ok(())
}

// The items of a Hamiltonian: a text and a number for each.
pub fn check_hamiltonian(
    texts: &[u8],
    lengths: &[u64],
    numbers: &[f64],
    n_qubits: usize,
) -> Result<(), Refusal>
    requires { (length lengths.now ≡ length numbers.now) × (total lengths.now ≤ length texts.now) }
    ensures { result ≡ answer_of (each (read_real n_qubits) 0 (real_items (parts lengths.now texts.now) numbers.now)) }
{
    let mut at = 0;
    for (i, length) in lengths.iter().enumerate() {
        let k = *length as usize;
        check_real(&texts[at..at + k], n_qubits, i, numbers[i])?;
        at += k;
    }
    Ok(())
}

// The terms of jump or operator `index`: a text and two numbers for each.
fn check_terms(
    texts: &[u8],
    lengths: &[u64],
    numbers: &[f64],
    n_qubits: usize,
    index: usize,
) -> Result<(), Refusal>
    requires { (length numbers.now ≡ 2 * length lengths.now) × (total lengths.now ≤ length texts.now) }
    ensures { result ≡ answer_of (read_terms n_qubits index (term_items (parts lengths.now texts.now) (complexes numbers.now))) }
{
    let mut at = 0;
    for (i, length) in lengths.iter().enumerate() {
        let k = *length as usize;
        check_term(
            &texts[at..at + k],
            n_qubits,
            index,
            numbers[2 * i],
            numbers[2 * i + 1],
        )?;
        at += k;
    }
    Ok(())
}

// Jump or operator `index`: from 1 to 16 terms, and each of them.
pub fn check_operator(
    texts: &[u8],
    lengths: &[u64],
    numbers: &[f64],
    n_qubits: usize,
    index: usize,
) -> Result<(), Refusal>
    requires { (length numbers.now ≡ 2 * length lengths.now) × (total lengths.now ≤ length texts.now) }
    ensures { result ≡ answer_of (read_operator n_qubits index (term_items (parts lengths.now texts.now) (complexes numbers.now))) }
{
    let count = lengths.len();
    if count == 0 {
        return Err(Refusal::EmptyLincomb { index });
    }
    if MAX_TERMS < count {
        return Err(Refusal::CountAboveLimit { count });
    }
    check_terms(texts, lengths, numbers, n_qubits, index)
}

// Jump `index`: its rate, then its operator.
fn check_jump(
    texts: &[u8],
    lengths: &[u64],
    numbers: &[f64],
    n_qubits: usize,
    index: usize,
    rate: f64,
) -> Result<(), Refusal>
    requires { (length numbers.now ≡ 2 * length lengths.now) × (total lengths.now ≤ length texts.now) }
    ensures { result ≡ answer_of (read_jump n_qubits index (record { rate = rate; terms = term_items (parts lengths.now texts.now) (complexes numbers.now) })) }
{
    if rate < 0.0 {
        return Err(Refusal::NegativeRate { index });
    }
    if !in_range(rate) {
        return Err(Refusal::NumberOutOfRange { index });
    }
    check_operator(texts, lengths, numbers, n_qubits, index)
}

// The jumps: a rate and a count of terms for each.
pub fn check_jumps(
    texts: &[u8],
    lengths: &[u64],
    rates: &[f64],
    counts: &[u64],
    numbers: &[f64],
    n_qubits: usize,
) -> Result<(), Refusal>
    requires { (length counts.now ≡ length rates.now) × (total counts.now ≡ length lengths.now) × (length numbers.now ≡ 2 * length lengths.now) × (total lengths.now ≤ length texts.now) }
    ensures { result ≡ answer_of (each (read_jump n_qubits) 0 (jump_items rates.now (parts counts.now (term_items (parts lengths.now texts.now) (complexes numbers.now))))) }
{
    let mut at = 0;
    let mut t = 0;
    for (j, count) in counts.iter().enumerate() {
        let k = *count as usize;
        let own = &lengths[t..t + k];
        check_jump(
            &texts[at..],
            own,
            &numbers[2 * t..2 * t + 2 * k],
            n_qubits,
            j,
            rates[j],
        )?;
        at += sum_of(own);
        t += k;
    }
    Ok(())
}
