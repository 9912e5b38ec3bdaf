// SPDX-FileCopyrightText: 2026 The PPVM Authors
// SPDX-License-Identifier: Apache-2.0

// What a predictor-corrector step keeps of a basis is proved in proofs/, over the definition of the step in
// specs/. The library has no call for a whole step yet. Nothing here runs.
#![tactic(auto)]
