// SPDX-FileCopyrightText: 2026 The PPVM Authors
// SPDX-License-Identifier: Apache-2.0

// Words as others write them: texts, codes, and an order as a number. Lanes are not seen here.
#![tactic(auto)]

pub mod codes;
pub mod signs;
pub mod texts;
