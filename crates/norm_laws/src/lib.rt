// SPDX-FileCopyrightText: 2026 The PPVM Authors
// SPDX-License-Identifier: Apache-2.0

// What the norm over a basis has to do with the generator over it, and with the norm that counted words
// outside the basis too, is proved in proofs/. Nothing here runs.
#![tactic(auto)]
