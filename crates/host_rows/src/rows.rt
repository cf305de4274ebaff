// A state as a row of twelve words, an answer as a row of two; a dot and a wide number in a row.
ghost use Rattle.std.specs.Prelude.{◌≡◌, ◌+◌, ◌<◌, length};
ghost use Rattle.host_rows.specs.Rows.{settings_in, dot_in, wide_in, with_wide, CountFits, state_in, rows_fit, with_state};

use geometry::aabb::AABB;
use geometry::settings::Settings;
use model::{Dot, State};
use words::{high_word, low_word, signed, wide};

pub fn settings_in(state: &[u32]) -> Settings
    requires { length state.now ≡ 12 }
    ensures { result ≡ settings_in state.now }
{
    let left = signed(state[0]);
    let top = signed(state[1]);
    let width = signed(state[2]);
    let height = signed(state[3]);
    Settings {
        left,
        top,
        width,
        height,
        depth_limit: state[4],
        leaf_limit: state[5],
        smallest_cell: state[6],
    }
}

// The dot of six words: id, x1, y1, x2, y2, ink.
pub fn dot_in(row: &[u32], at: usize) -> Dot
    requires { at + 5 < length row.now }
    ensures { result ≡ dot_in row.now at }
{
    let x1 = signed(row[at + 1]);
    let y1 = signed(row[at + 2]);
    let x2 = signed(row[at + 3]);
    let y2 = signed(row[at + 4]);
    let rect = AABB { x1, y1, x2, y2 };
    let id = row[at];
    Dot {
        id,
        rect,
        ink: row[at + 5],
    }
}

// The number of 64 bits in two words, the low one first.
pub fn wide_in(row: &[u32], at: usize) -> u64
    requires { at + 1 < length row.now }
    ensures { (result ≡ wide_in row.now at) × CountFits row.now at }
{
    wide(row[at], row[at + 1])
}

pub fn wide_out(row: &mut [u32], at: usize, number: u64)
    requires { at + 1 < length row.old }
    ensures { row.new ≡ with_wide number row.old at }
{
    let low = low_word(number);
    let high = high_word(number);
    row[at] = low;
    row[at + 1] = high;
}

pub fn state_in(state: &[u32]) -> State
    requires { length state.now ≡ 12 }
    ensures { (result ≡ state_in state.now) × CountFits state.now 10 }
{
    let settings = settings_in(state);
    let changes = wide_in(state, 10);
    State {
        settings,
        free_group: state[7],
        free_place: state[8],
        live: state[9],
        changes,
    }
}

// Whether both rows have their lengths.
#[tactic(auto, unfolding(crate::specs::Rows::rows_fit))]
pub fn rows_fit(state: &[u32], answer: &[u32]) -> bool
    ensures { result ≡ rows_fit state.now answer.now }
{
    (state.len() == 12) & (answer.len() == 2)
}

// No call changes the settings: the last five words are written.
pub fn state_out(state: &mut [u32], next: State)
    requires { length state.old ≡ 12 }
    ensures { state.new ≡ with_state next state.old }
{
    state[7] = next.free_group;
    state[8] = next.free_place;
    state[9] = next.live;
    wide_out(state, 10, next.changes);
}
