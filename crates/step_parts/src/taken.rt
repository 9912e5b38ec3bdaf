// SPDX-FileCopyrightText: 2026 The PPVM Authors
// SPDX-License-Identifier: Apache-2.0

// What a step answers, and each part of it that leaves a basis.
use refusal::Refusal;

// How many entries the basis has, and how many matrix products it took.
#[derive(Clone, Copy)]
pub struct Step {
    pub entries: usize,
    pub products: usize,
}
