// The dots of one tile, summed: how many stand left of each column and above each row.
ghost use Rattle.std.specs.Prelude.{◌≡◌, ◌<◌, true};
ghost use Rattle.model.specs.Patch.{patch_fits};
ghost use Rattle.tint.specs.Sums.{row_dots, sum_at, SumsBefore, TileSums};

use crate::thresholds::has_dot;
use model::patch::Patch;

// The words of a tile's sums: 17 in a row, 17 rows.
pub const SUMS: usize = 17 * 17;

// How many of the first columns of a row have a dot.
fn count_row(tint: u32, row: u32, width: u32) -> u32
    ensures { result ≡ row_dots tint row width }
{
    (0..width)
        .filter(|&column| has_dot(tint, column, row))
        .count() as u32
}

// The word at a place, by those before it: the word of the row above, and that row's dots.
fn next_sum(sums: &[u32; SUMS], tint: u32, place: usize) -> u32
    requires { (place < 289) × SumsBefore tint place sums.now }
    ensures { result ≡ sum_at tint place }
{
    if place < 17 {
        return 0;
    }
    let row = (place / 17 - 1) as u32;
    let width = (place % 17) as u32;
    sums[place - 17] + count_row(tint, row, width)
}

// Fills the table of a tint. By index: a word is made of earlier ones of the table that is filled.
#[tactic(auto, using(crate::proofs::Laws::Sums::fill_start))]
pub fn fill_sums(sums: &mut [u32; SUMS], tint: u32)
    ensures { TileSums tint sums.new }
{
    for i in 0..SUMS {
        sums[i] = next_sum(sums, tint, i);
    }
}

// A patch that refusal 13 lets pass, with the sums of one of its tiles. Their table is lent: one of its own would be copied into the value.
#[derive(Drop)]
pub struct TiledPatch<'a> {
    pub patch: Patch,
    pub sums: &'a [u32; SUMS],
    pub ghost fits: { patch_fits patch ≡ true },
    pub ghost summed: { TileSums patch.tint sums.now },
}

impl<'a> TiledPatch<'a> {
    // Fills the table, whatever it held.
    pub fn new(patch: Patch, sums: &'a mut [u32; SUMS]) -> TiledPatch<'a>
        requires { patch_fits patch ≡ true }
        ensures { result.patch ≡ patch }
    {
        fill_sums(sums, patch.tint);
        TiledPatch { patch, sums }
    }
}
