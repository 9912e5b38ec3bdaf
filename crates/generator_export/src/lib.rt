// SPDX-FileCopyrightText: 2026 The PPVM Authors
// SPDX-License-Identifier: Apache-2.0

// The generator of a lent model over a lent basis as a text that other programs read.
#![tactic(auto)]

pub mod market;
