// SPDX-FileCopyrightText: 2026 The PPVM Authors
// SPDX-License-Identifier: Apache-2.0

// Admission: listed words appended to a lent basis, the largest first to find room.
ghost use Rattle.std.specs.Prelude.{◌≡◌, ◌+◌, ◌-◌, ◌*◌, ◌≤◌, min, length, replicate};
ghost use Rattle.word.specs.Flat.{word_lanes};
ghost use Rattle.order.specs.Magnitudes.{by_magnitude};
ghost use Rattle.keep.specs.Chosen.{chosen};
ghost use Rattle.order.specs.Between.{AreFinite};
ghost use Rattle.keep.specs.Between.{Admits};
ghost use Rattle.truncate.specs.Admissions.{admit_tests, admit};

use keep::admit::append_chosen;
use keep::largest::choose_largest_of;
use lent::clear::clear_lanes;
use lent::numbers::first_not_finite;
use lent::sizes::{LIST_TABLE, room_left, smaller};
use lent::tests::mismatch;
use lent::words::{MAX_WORDS, first_outside};
use refusal::Refusal;
use word::flat::WORD_LANES;
use word::word::MAX_QUBITS;

// 1, 8, 9, 11, 7.
fn check_admission(
    n: usize,
    words: &[u64],
    coeffs: &[f64],
    len: usize,
    list: &[u64],
    values: &[f64],
    limit: usize,
    order: &[u64],
    work: &[u64],
    kept: &[u64],
) -> Result<(), Refusal>
    ensures { result ≡ admit_tests len words.now coeffs.now list.now values.now order.now work.now kept.now n limit }
{
    if MAX_QUBITS < n {
        return Err(Refusal::TooManyQubits {
            got: n,
            max: MAX_QUBITS,
        });
    }
    if MAX_WORDS < len {
        return Err(Refusal::CountAboveLimit { count: len });
    }
    let listed = list.len() / WORD_LANES;
    if MAX_WORDS < listed {
        return Err(Refusal::CountAboveLimit { count: listed });
    }
    if MAX_WORDS < limit {
        return Err(Refusal::CountAboveLimit { count: limit });
    }
    let held = words.len() / WORD_LANES;
    if held < len {
        return mismatch(len, held);
    }
    if coeffs.len() < len {
        return mismatch(len, coeffs.len());
    }
    let lanes = listed * WORD_LANES;
    if list.len() != lanes {
        return mismatch(lanes, list.len());
    }
    let count = values.len();
    if count != listed {
        return mismatch(listed, count);
    }
    if order.len() < count {
        return mismatch(count, order.len());
    }
    if work.len() < count {
        return mismatch(count, work.len());
    }
    if kept.len() < count {
        return mismatch(count, kept.len());
    }
    let outside = first_outside(words, len, n);
    if outside < len {
        return Err(Refusal::WordOutsideRegister { position: outside });
    }
    let stray = first_outside(list, count, n);
    if stray < count {
        return Err(Refusal::WordOutsideRegister { position: stray });
    }
    let bad_coeff = first_not_finite(coeffs, len);
    if bad_coeff < len {
        return Err(Refusal::NumberOutOfRange { index: bad_coeff });
    }
    let bad_value = first_not_finite(values, count);
    if bad_value < count {
        return Err(Refusal::NumberOutOfRange {
            index: len + bad_value,
        });
    }
    Ok(())
}

// Appends the largest of the listed words, as many as there is room for: the new length. The work table is
// cleared and says that no word is fixed.
fn append_largest(
    words: &mut [u64],
    coeffs: &mut [f64],
    len: usize,
    list: &[u64],
    values: &[f64],
    room: usize,
    order: &mut [u64],
    work: &mut [u64],
    kept: &mut [u64],
) -> usize
    requires { (length order.old ≡ length values.now) × (length work.old ≡ length values.now) × (length kept.old ≡ length values.now) × (word_lanes * length values.now ≤ length list.now) × (word_lanes * (len + min room (length values.now)) ≤ length words.old) × (len + min room (length values.now) ≤ length coeffs.old) × AreFinite values.now }
    ensures { Admits len (length values.now) list.now (chosen (by_magnitude values.now) (replicate (length values.now) 0) room) words.old coeffs.old result words.new coeffs.new × (length (chosen (by_magnitude values.now) (replicate (length values.now) 0) room) ≡ length values.now) }
{
    clear_lanes(work);
    choose_largest_of(values, work, room, order, kept);
    append_chosen(words, coeffs, len, list, values.len(), kept)
}

// The same of tables that passed the tests.
fn admit_tested(
    n: usize,
    words: &mut [u64],
    coeffs: &mut [f64],
    len: usize,
    list: &[u64],
    values: &[f64],
    limit: usize,
    order: &mut [u64],
    work: &mut [u64],
    kept: &mut [u64],
) -> Result<usize, Refusal>
    requires { admit_tests len words.old coeffs.old list.now values.now order.old work.old kept.old n limit ≡ Ok tt }
    ensures { record { answer = result; lanes = words.new; coeffs = coeffs.new; order = order.new; work = work.new; kept = kept.new } ≡ admit len words.old coeffs.old list.now values.now order.old work.old kept.old n limit }
{
    let count = values.len();
    let places = smaller(words.len() / WORD_LANES, coeffs.len());
    let room = room_left(limit, len);
    let more = smaller(room, count);
    if places < len + more {
        clear_lanes(order);
        clear_lanes(work);
        clear_lanes(kept);
        return Err(Refusal::TableFull {
            table: LIST_TABLE,
            places,
        });
    }
    let end = append_largest(
        words,
        coeffs,
        len,
        list,
        values,
        room,
        &mut order[..count],
        &mut work[..count],
        &mut kept[..count],
    );
    clear_lanes(order);
    clear_lanes(work);
    clear_lanes(kept);
    Ok(end)
}

pub fn add_leakage_capped(
    n: usize,
    words: &mut [u64],
    coeffs: &mut [f64],
    len: usize,
    list: &[u64],
    values: &[f64],
    limit: usize,
    order: &mut [u64],
    work: &mut [u64],
    kept: &mut [u64],
) -> Result<usize, Refusal>
    ensures { record { answer = result; lanes = words.new; coeffs = coeffs.new; order = order.new; work = work.new; kept = kept.new } ≡ admit len words.old coeffs.old list.now values.now order.old work.old kept.old n limit }
{
    check_admission(
        n, words, coeffs, len, list, values, limit, order, work, kept,
    )?;
    admit_tested(
        n, words, coeffs, len, list, values, limit, order, work, kept,
    )
}
