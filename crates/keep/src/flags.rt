// SPDX-FileCopyrightText: 2026 The PPVM Authors
// SPDX-License-Identifier: Apache-2.0

// Which entries of a lent basis are large, and the positions that are not flagged.
ghost use Rattle.std.specs.Prelude.{◌≡◌, ◌≤◌, length, take, replicate};
ghost use Rattle.keep.specs.Between.{unflagged};
ghost use Rattle.keep.specs.Pruned.{large_flags};

use number::scalar::magnitude;

// Flags those of the entries whose coefficient is at least drop_tol in magnitude; a flag for each.
pub fn flag_large(coeffs: &[f64], drop_tol: f64, kept: &mut [u64])
    requires { length kept.old ≤ length coeffs.now }
    ensures { kept.new ≡ large_flags drop_tol (take (length kept.old) coeffs.now) (replicate (length kept.old) 0) }
{
    for i in 0..kept.len() {
        let size = magnitude(coeffs[i]);
        kept[i] = u64::from(drop_tol <= size);
    }
}

// Lays down the positions whose flag is 0: how many. Each is written where the next one goes, and
// counts or not, so that no branch waits for a flag.
pub fn lay_unflagged(flags: &[u64], out: &mut [u64]) -> usize
    requires { length flags.now ≤ length out.old }
    ensures { (result ≤ length flags.now) × (take result out.new ≡ unflagged flags.now) }
{
    let mut held = 0;
    for i in 0..flags.len() {
        out[held] = i as u64;
        held += usize::from(flags[i] == 0);
    }
    held
}
