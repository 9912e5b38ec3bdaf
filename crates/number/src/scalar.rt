// SPDX-FileCopyrightText: 2026 The PPVM Authors
// SPDX-License-Identifier: Apache-2.0

// The coefficient scalars: f64, and complex numbers of two f64. Each operation rounds once, in the
// order in which it is written, so that every sum and product is the same bit for bit everywhere.
ghost use Rattle.std.specs.Prelude.{◌≡◌, ◌%◌};
ghost use Rattle.number.specs.Numbers.{add_c, sub_c, neg_c, mul_c, conj_c, real_c, square, unit_c};
ghost use Rattle.number.specs.Floats.{floats, cx, magnitude, is_finite, in_range, bounded};

#[repr(C)]
#[derive(Clone, Copy)]
pub struct Complex {
    pub re: f64,
    pub im: f64,
}

// Coefficients up to this magnitude are as good as 0.
const COEFF_DROP_TOL: f64 = 1e-14;

// The same for an entry of K beside its mirror entry.
const HERMITICITY_TOL: f64 = 1e-10;

// 2^-200 and 2^200, the range of numbers given, and 2^620, the bound of compiled ones.
const LEAST: f64 = 6.223015277861142e-61;

const MOST: f64 = 1.6069380442589903e60;

const MOST_COMPILED: f64 = 4.351082437154956e186;

pub fn add(a: Complex, b: Complex) -> Complex
    ensures { cx result ≡ add_c floats (cx a) (cx b) }
{
    Complex {
        re: a.re + b.re,
        im: a.im + b.im,
    }
}

pub fn sub(a: Complex, b: Complex) -> Complex
    ensures { cx result ≡ sub_c floats (cx a) (cx b) }
{
    Complex {
        re: a.re - b.re,
        im: a.im - b.im,
    }
}

pub fn mul(a: Complex, b: Complex) -> Complex
    ensures { cx result ≡ mul_c floats (cx a) (cx b) }
{
    Complex {
        re: a.re * b.re - a.im * b.im,
        im: a.re * b.im + a.im * b.re,
    }
}

pub fn neg(a: Complex) -> Complex
    ensures { cx result ≡ neg_c floats (cx a) }
{
    Complex {
        re: -a.re,
        im: -a.im,
    }
}

pub fn conj(a: Complex) -> Complex
    ensures { cx result ≡ conj_c floats (cx a) }
{
    Complex {
        re: a.re,
        im: -a.im,
    }
}

// x + 0i.
pub fn real(x: f64) -> Complex
    ensures { cx result ≡ real_c floats x }
{
    Complex { re: x, im: 0.0 }
}

// i^phase.
pub fn phase_factor(phase: u32) -> Complex
    ensures { cx result ≡ unit_c floats (phase % 4) }
{
    let k = phase % 4;
    if k == 0 {
        return Complex { re: 1.0, im: 0.0 };
    }
    if k == 1 {
        return Complex { re: 0.0, im: 1.0 };
    }
    if k == 2 {
        return Complex { re: -1.0, im: 0.0 };
    }
    Complex { re: 0.0, im: -1.0 }
}

// The square of a's magnitude.
pub fn norm_sqr(a: Complex) -> f64
    ensures { result ≡ square floats (cx a) }
{
    a.re * a.re + a.im * a.im
}

// x without its sign.
pub fn magnitude(x: f64) -> f64
    ensures { result ≡ magnitude x }
{
    if x < 0.0 { -x } else { x }
}

// Whether a number with this squared magnitude is as good as 0.
pub fn negligible(square: f64) -> bool
    ensures { result ≡ floats.small square }
{
    square <= COEFF_DROP_TOL * COEFF_DROP_TOL
}

// The same beside the largest squared magnitude.
pub fn negligible_beside(square: f64, largest: f64) -> bool
    ensures { result ≡ floats.slighter square largest }
{
    square <= COEFF_DROP_TOL * COEFF_DROP_TOL * largest
}

pub fn larger(x: f64, y: f64) -> f64
    ensures { result ≡ floats.larger x y }
{
    if x < y { y } else { x }
}

// Whether a difference with this squared magnitude is as good as 0 beside the largest one, or 1.
pub fn near(square: f64, largest: f64) -> bool
    ensures { result ≡ floats.near square largest }
{
    square <= HERMITICITY_TOL * HERMITICITY_TOL * larger(1.0, largest)
}

// Whether a number with this magnitude is as good as 0.
pub fn slight(x: f64) -> bool
    ensures { result ≡ floats.slight x }
{
    magnitude(x) <= COEFF_DROP_TOL
}

pub fn is_zero(x: f64) -> bool
    ensures { result ≡ floats.is_zero x }
{
    x == 0.0
}

// Whether x may stand in a model as given: 0, or from 2^-200 to 2^200 in magnitude.
pub fn in_range(x: f64) -> bool
    ensures { result ≡ in_range x }
{
    if x == 0.0 {
        return true;
    }
    let m = magnitude(x);
    LEAST <= m && m <= MOST
}

// Whether x may stand in a model as compiled: at most 2^620 in magnitude.
pub fn bounded(x: f64) -> bool
    ensures { result ≡ bounded x }
{
    magnitude(x) <= MOST_COMPILED
}

// Whether x is neither a NaN nor an infinity.
pub fn is_finite(x: f64) -> bool
    ensures { result ≡ is_finite x }
{
    magnitude(x) < 1.0 / 0.0
}
