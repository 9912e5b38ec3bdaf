// SPDX-FileCopyrightText: 2026 The PPVM Authors
// SPDX-License-Identifier: Apache-2.0

// What a call reads of the tables of a model that it is lent is proved in proofs/: two lendings that hold
// the same in the places in use give the same action on every word, whatever stands past those places.
// Nothing here runs.
#![tactic(auto)]
