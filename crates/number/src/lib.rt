// SPDX-FileCopyrightText: 2026 The PPVM Authors
// SPDX-License-Identifier: Apache-2.0

// Numbers: complex numbers by value, magnitudes, tolerances and ranges. The layers above cite what
// is promised here of f64 and never its bits.
#![tactic(auto)]

pub mod scalar;
