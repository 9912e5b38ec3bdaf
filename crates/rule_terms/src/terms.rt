// SPDX-FileCopyrightText: 2026 The PPVM Authors
// SPDX-License-Identifier: Apache-2.0

// The terms that the rules make: a sandwich and a factor of a pair with p between their two words, and
// the sign of an anticommutator.
ghost use Rattle.std.specs.Prelude.{◌≡◌, cond, ◌<◌, eqb};
ghost use Rattle.std.specs.Float.Ieee.{neg};
ghost use Rattle.word.specs.Product.{product};
ghost use Rattle.number.specs.Floats.{float1};
ghost use Rattle.model.specs.Between.{onto};
ghost use Rattle.rule_terms.specs.Adds.{folded, doubled};
ghost use Rattle.rule_terms.specs.Steps.{sandwich_from};

use model::term::Term;
use number::scalar::{conj, mul, phase_factor, real};
use word::algebra::{Phased, pauli_mul};
use word::word::Word;

// The conjugate of a's number × b's number × i^phase × rate onto the product of a, p and b, where
// `left` is that of a and p.
pub fn sandwich_term(a: Term, left: Phased, b: Term, rate: f64) -> Term
    requires { left.phase < 4 }
    ensures { onto result ≡ sandwich_from left rate (onto a) (onto b) }
{
    let half = left.word;
    let right = b.word;
    let whole = pauli_mul(half, right);
    let word = whole.word;
    let bare = mul(conj(a.number), b.number);
    let turned = mul(bare, phase_factor(left.phase + whole.phase));
    Term {
        word,
        number: mul(turned, real(rate)),
    }
}

// +1 at phase 0, −1 at phase 2.
pub fn sign_of(phase: u32) -> f64
    ensures { result ≡ cond (eqb phase 0) float1 (neg float1) }
{
    if phase == 0 {
        return 1.0;
    }
    -1.0
}

// A factor f with p between the two words, where ap is the left word times p; twice its real part
// where `double` says so.
pub fn factor_term(ap: Phased, f: Term, double: bool) -> Term
    requires { ap.phase < 4 }
    ensures { (a : Word) → ((p : Word) → (ap ≡ product a p → onto result ≡ cond double (doubled p) (folded p) a (onto f))) }
{
    let left = ap.word;
    let right = f.word;
    let product = pauli_mul(left, right);
    let word = product.word;
    let turns = ap.phase + product.phase;
    let z = mul(f.number, phase_factor(turns));
    if double {
        return Term {
            word,
            number: real(2.0 * z.re),
        };
    }
    Term { word, number: z }
}
