// SPDX-FileCopyrightText: 2026 The PPVM Authors
// SPDX-License-Identifier: Apache-2.0

// The product of two operators, formed in a work table.
#![tactic(auto)]

pub mod product;
