// The report: a line for each window, then the total.
ghost use Rattle.std.specs.Prelude.{◌+◌, ◌*◌, ◌^◌, ◌≤◌, ◌<◌, length};
ghost use Rattle.lines.specs.Reading.{Put, output, Written};
ghost use Rattle.lines.specs.Report.{window_line, window_row, window_lines, total_line, report};

use crate::row::{put_byte, put_bytes, put_field, put_natural};

// A window's line: at most two digits, two digits and ten, two commas, an LF.
fn put_window(out: &mut [u8], at: usize, column: u32, row: u32, count: u32) -> usize
    requires { (column < 100) × (row < 100) × (at + 17 ≤ length out.old) }
    ensures { Put out.old at (window_line column row count) out.new result }
{
    let first = put_natural(out, at, column);
    let second = put_field(out, first, row);
    let end = put_field(out, second, count);
    put_byte(out, end, b'\n')
}

// The lines of a row, from its counts.
fn put_row(out: &mut [u8], at: usize, row: u32, counts: &[u32]) -> usize
    requires { (length counts.now ≤ 64) × (row < 64) × (at + 17 * length counts.now ≤ length out.old) }
    ensures { Put out.old at (window_row (length counts.now) row counts.now 0) out.new result }
{
    let mut next = at;
    for (column, count) in counts.iter().enumerate() {
        next = put_window(out, next, column as u32, row, *count);
    }
    next
}

// The lines of all rows.
fn put_rows(out: &mut [u8], columns: u32, rows: u32, counts: &[u32]) -> usize
    requires { (columns ≤ 64) × (rows ≤ 64) × (columns * rows ≤ length counts.now) × (17 * (columns * rows) ≤ length out.old) }
    ensures { Put out.old 0 (window_lines columns rows counts.now) out.new result }
{
    let mut next = 0;
    for row in 0..rows {
        let first = (row * columns) as usize;
        let past = first + columns as usize;
        next = put_row(out, next, row, &counts[first..past]);
    }
    next
}

// The last line.
fn put_total(out: &mut [u8], at: usize, total: u32) -> usize
    requires { at + 17 ≤ length out.old }
    ensures { Put out.old at (total_line total) out.new result }
{
    let word = put_bytes(out, at, b"total");
    let end = put_field(out, word, total);
    put_byte(out, end, b'\n')
}

// The report of a row of counts, one for each window, and of their total; each line has at most 17 bytes.
pub fn answer_report(out: &mut [u8], columns: u32, rows: u32, counts: &[u32], total: u64) -> usize
    requires columns_bound { (columns ≤ 64) × (rows ≤ 64) × (columns * rows ≤ length counts.now) × (total < 2 ^ 32) }
    requires rows_in_bounds { 17 + 17 * (columns * rows) ≤ length out.old }
    ensures { Written (output out.old out.new result) (report columns rows counts.now total) }
{
    let end = put_rows(out, columns, rows, counts);
    put_total(out, end, total as u32)
}
