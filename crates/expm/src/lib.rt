// SPDX-FileCopyrightText: 2026 The PPVM Authors
// SPDX-License-Identifier: Apache-2.0

// The Taylor partition of exp(t·A): the degree m and the number of steps s of least cost m·s, by the
// thresholds of Al-Mohy and Higham (2011), refused where it costs more products than the ceiling.
#![tactic(auto)]

ghost use Rattle.std.specs.Prelude.{◌≡◌, ◌<◌, ◌≤◌, length};
ghost use Rattle.expm.specs.Selects.{steps_of, cost, better, degree_by, table_for, rows_from, under_ceiling, chosen};

use refusal::Refusal;

#[derive(Clone, Copy)]
pub struct Degree {
    pub m: u32,
    pub s: u32,
}

// The thresholds of degrees 1 to 30 at double precision (unit roundoff 2^-53), Table A.3.
const THETA: [f64; 30] = [
    2.29e-16, 2.58e-8, 1.39e-5, 3.40e-4, 2.40e-3, 9.07e-3, 2.38e-2, 5.00e-2, 8.96e-2, 1.44e-1,
    2.14e-1, 3.00e-1, 4.00e-1, 5.14e-1, 6.41e-1, 7.81e-1, 9.31e-1, 1.09, 1.26, 1.44, 1.62, 1.82,
    2.01, 2.22, 2.43, 2.64, 2.86, 3.08, 3.31, 3.54,
];

// The same at the tolerance 1e-6.
const THETA_LOOSE: [f64; 30] = [
    2.000e-06, 2.447e-03, 2.863e-02, 1.025e-01, 2.262e-01, 3.911e-01, 5.866e-01, 8.045e-01, 1.039,
    1.285, 1.539, 1.801, 2.067, 2.337, 2.610, 2.885, 3.162, 3.441, 3.721, 4.001, 4.282, 4.564,
    4.847, 5.129, 5.412, 5.696, 5.979, 6.263, 6.546, 6.830,
];

// From this drop_tol on the state is cut so coarsely that the looser table serves.
const LOOSE_FROM: f64 = 1e-4;

// The most products with A that a pair may cost.
const MAX_PRODUCTS: u64 = 1_048_576;

// x rounded up to a whole number, at least 1 and at most 4294967295; a NaN gives 1.
fn steps(x: f64) -> u32
    ensures { result ≡ steps_of x }
{
    let above = 1.0 < x;
    if !above {
        return 1;
    }
    let below = x < 4294967295.0;
    if !below {
        return 4294967295;
    }
    let whole = std::num::truncating_f64_to_u64(x);
    if (whole as f64) < x {
        return (whole + 1) as u32;
    }
    whole as u32
}

// How many products with A a pair costs.
fn cost_of(d: Degree) -> u64
    ensures { result ≡ cost d }
{
    (d.m as u64) * (d.s as u64)
}

fn better_of(best: Degree, d: Degree) -> Degree
    ensures { result ≡ better best d }
{
    if cost_of(d) < cost_of(best) {
        return d;
    }
    best
}

// The first pair of least cost over the thresholds of degrees 1, 2, ...
fn select_ms_with(t: f64, thresholds: &[f64]) -> Degree
    requires { (0 < length thresholds.now) × (length thresholds.now ≤ 4294967295) }
    ensures { result ≡ degree_by (rows_from 1 thresholds.now) t }
{
    let positive = 0.0 < t;
    if !positive {
        return Degree { m: 1, s: 1 };
    }
    let mut best = Degree {
        m: 1,
        s: steps(t / thresholds[0]),
    };
    for i in 1..thresholds.len() {
        let s = steps(t / thresholds[i]);
        best = better_of(best, Degree { m: i as u32 + 1, s });
    }
    best
}

// The pair by the table that fits how coarsely the state is cut. A NaN takes the tight one.
fn select_pair(t: f64, drop_tol: f64) -> Degree
    ensures { result ≡ degree_by (table_for drop_tol) t }
{
    let thresholds = if LOOSE_FROM <= drop_tol {
        THETA_LOOSE
    } else {
        THETA
    };
    select_ms_with(t, &thresholds)
}

// A pair, unless it costs too much.
fn under_ceiling(d: Degree) -> Result<Degree, Refusal>
    ensures { result ≡ under_ceiling d }
{
    if MAX_PRODUCTS < cost_of(d) {
        return Err(Refusal::TooManyProducts {
            m: d.m as usize,
            s: d.s as usize,
        });
    }
    Ok(d)
}

pub fn select_degree(t: f64, drop_tol: f64) -> Result<Degree, Refusal>
    ensures { result ≡ chosen drop_tol t }
{
    under_ceiling(select_pair(t, drop_tol))
}
