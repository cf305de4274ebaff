// Prints the source text of the table of thresholds, crates/tint/src/table.rt, by the rule that makes it (docs/SPECIFICATION.md §20.2).
#![tactic(auto)]

ghost use Rattle.std.specs.Prelude.{◌≡◌, ◌<◌, ◌≤◌};
ghost use Rattle.model.specs.Thresholds.{threshold_at};
ghost use Rattle.threshold_table.specs.Quarters.{quarter_of};

use std::io;

// What is added in a quarter, by its column and its row: 0 and 2 above, 3 and 1 below.
fn quarter(column: u32, row: u32) -> u32
    ensures { result ≡ quarter_of column row }
{
    match (row % 2, column % 2) {
        (0, 0) => 0,
        (0, _) => 2,
        (_, 0) => 3,
        _ => 1,
    }
}

// The threshold at a column and a row of a tile. Each doubling takes what there was four times, so that the smallest quarter counts most.
fn threshold(column: u32, row: u32) -> u32
    requires { (column < 16) × (row < 16) }
    ensures { (result ≡ threshold_at column row) × (result ≤ 255) }
{
    let first = quarter(column, row);
    let second = quarter(column / 2, row / 2);
    let third = quarter(column / 4, row / 4);
    let fourth = quarter(column / 8, row / 8);
    64 * first + 16 * second + 4 * third + fourth
}

// A write that failed is told at the end; those after it are made all the same.
fn main(rt: HostRuntime) -> io::Result<()> {
    let mut written = println!(rt;
        "// The thresholds of a tile, row by row.\npub const THRESHOLDS: [u8; 256] = ["
    );
    for place in 0u32..256 {
        written = println!(rt; "    {},", threshold(place % 16, place / 16)).and(written);
    }
    println!(rt; "];").and(written)
}
