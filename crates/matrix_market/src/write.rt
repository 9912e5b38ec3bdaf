// SPDX-FileCopyrightText: 2026 The PPVM Authors
// SPDX-License-Identifier: Apache-2.0

// The text of entries, written into a lent table of bytes after every test, so that a refusal leaves each
// byte as it was.
ghost use Rattle.std.specs.Prelude.{◌≡◌, suc, ◌+◌, ◌≤◌, false, not, [], ◌∷◌, ◌++◌, length, take, nat_lt, slice_set};
ghost use Rattle.lent.specs.Laid.{laid};
ghost use Rattle.lent.specs.Tests.{first_to};
ghost use Rattle.matrix_market.specs.Counts.{count_of, too_large};
ghost use Rattle.matrix_market.specs.Text.{newline, line_text, lines_text, size_line, header, text_of};
ghost use Rattle.matrix_market.specs.Writes.{line_of, lines_of, large_at, writes};
ghost use Rattle.matrix_market.specs.Between.{count_text, Entries};

use crate::count::{Count, count_of, is_too_large};
use crate::decimal::{digits_of, write_field};
use lent::copy::copy_table;
use refusal::Refusal;

const SPACE: u8 = 32;

const NEWLINE: u8 = 10;

const MINUS: u8 = 45;

// The bytes of the header.
const HEADER: usize = 49;

// ---- lengths

fn line_length(row: u32, column: u32, value: f64) -> usize
    requires { too_large value ≡ false }
    ensures { result ≡ length (line_text (line_of row column value)) }
{
    let c = count_of(value);
    let numbers = digits_of(row as u64 + 1) + digits_of(column as u64 + 1) + digits_of(c.size);
    let minus = c.minus;
    if minus {
        return numbers + 4;
    }
    numbers + 3
}

fn size_length(n: usize, count: usize) -> usize
    ensures { result ≡ length (size_line n count) }
{
    let size = digits_of(n as u64);
    size + size + digits_of(count as u64) + 3
}

// Whether the whole text has at most so many bytes.
fn text_fits(
    rows: &[u32],
    columns: &[u32],
    values: &[f64],
    count: usize,
    n: usize,
    room: usize,
) -> bool
    requires { Entries count rows.now columns.now values.now }
    ensures { result ≡ not (nat_lt room (length (text_of n (lines_of (take count rows.now) (take count columns.now) (take count values.now))))) }
{
    let head = HEADER + size_length(n, count);
    if room < head {
        return false;
    }
    let mut left = room - head;
    for i in 0..count {
        let line = line_length(rows[i], columns[i], values[i]);
        if left < line {
            return false;
        }
        left -= line;
    }
    true
}

// The first of so many values whose count is too large; their number where there is none.
fn first_too_large(values: &[f64], count: usize) -> usize
    requires { count ≤ length values.now }
    ensures { result ≡ first_to count (large_at values.now) }
{
    for k in 0..count {
        if is_too_large(values[k]) {
            return k;
        }
    }
    count
}

// ---- bytes, from a place on; each says the place after them

fn write_count(c: Count, text: &mut [u8], at: usize) -> usize
    requires { at + length (count_text c ++ (newline ∷ [])) ≤ length text.old }
    ensures { (text.new ≡ laid slice_set at (count_text c ++ (newline ∷ [])) text.old) × (result ≡ at + length (count_text c ++ (newline ∷ []))) }
{
    let minus = c.minus;
    if minus {
        text[at] = MINUS;
        return write_field(c.size, NEWLINE, text, at + 1);
    }
    write_field(c.size, NEWLINE, text, at)
}

fn write_line(row: u32, column: u32, value: f64, text: &mut [u8], at: usize) -> usize
    requires { (too_large value ≡ false) × (at + length (line_text (line_of row column value)) ≤ length text.old) }
    ensures { (text.new ≡ laid slice_set at (line_text (line_of row column value)) text.old) × (result ≡ at + length (line_text (line_of row column value))) }
{
    let c = count_of(value);
    let after_row = write_field(row as u64 + 1, SPACE, text, at);
    let after_column = write_field(column as u64 + 1, SPACE, text, after_row);
    write_count(c, text, after_column)
}

fn write_lines(
    rows: &[u32],
    columns: &[u32],
    values: &[f64],
    count: usize,
    text: &mut [u8],
    at: usize,
) -> usize
    requires { Entries count rows.now columns.now values.now × (at + length (lines_text (lines_of (take count rows.now) (take count columns.now) (take count values.now))) ≤ length text.old) }
    ensures { (text.new ≡ laid slice_set at (lines_text (lines_of (take count rows.now) (take count columns.now) (take count values.now))) text.old) × (result ≡ at + length (lines_text (lines_of (take count rows.now) (take count columns.now) (take count values.now)))) }
{
    let mut end = at;
    for i in 0..count {
        end = write_line(rows[i], columns[i], values[i], text, end);
    }
    end
}

fn write_header(text: &mut [u8])
    requires { length header ≤ length text.old }
    ensures { text.new ≡ laid slice_set 0 header text.old }
{
    copy_bytes(b"%%MatrixMarket matrix coordinate integer general\n", text);
}

fn copy_bytes(from: &[u8], text: &mut [u8])
    requires { length from.now ≤ length text.old }
    ensures { text.new ≡ laid slice_set 0 from.now text.old }
{
    copy_table(from, &mut text[..from.len()]);
}

fn write_size(n: usize, count: usize, text: &mut [u8], at: usize) -> usize
    requires { at + length (size_line n count) ≤ length text.old }
    ensures { (text.new ≡ laid slice_set at (size_line n count) text.old) × (result ≡ at + length (size_line n count)) }
{
    let after_rows = write_field(n as u64, SPACE, text, at);
    let after_columns = write_field(n as u64, SPACE, text, after_rows);
    write_field(count as u64, NEWLINE, text, after_columns)
}

// ---- the whole

fn write_text(
    rows: &[u32],
    columns: &[u32],
    values: &[f64],
    count: usize,
    n: usize,
    text: &mut [u8],
) -> usize
    requires { Entries count rows.now columns.now values.now × (length (text_of n (lines_of (take count rows.now) (take count columns.now) (take count values.now))) ≤ length text.old) }
    ensures { (text.new ≡ laid slice_set 0 (text_of n (lines_of (take count rows.now) (take count columns.now) (take count values.now))) text.old) × (result ≡ length (text_of n (lines_of (take count rows.now) (take count columns.now) (take count values.now)))) }
{
    write_header(text);
    let after_size = write_size(n, count, text, HEADER);
    write_lines(rows, columns, values, count, text, after_size)
}

// The entries of the first `count` places, over n rows and columns.
pub fn write_entries(
    rows: &[u32],
    columns: &[u32],
    values: &[f64],
    count: usize,
    n: usize,
    text: &mut [u8],
) -> Result<usize, Refusal>
    requires { (count ≤ length rows.now) × (count ≤ length columns.now) × (count ≤ length values.now) }
    ensures { record { answer = result; text = text.new } ≡ writes n (take count rows.now) (take count columns.now) (take count values.now) text.old }
{
    let first = first_too_large(values, count);
    if first < count {
        return Err(Refusal::WrittenCountTooLarge { entry: first + 1 });
    }
    let room = text.len();
    let fits = text_fits(rows, columns, values, count, n, room);
    if !fits {
        return Err(Refusal::TableFull {
            table: 5,
            places: room,
        });
    }
    Ok(write_text(rows, columns, values, count, n, text))
}
