// A file run along several lines of the grid, a lane for each: its outputs saved, or compared with saved ones. Along
// a line only the last input changes, and only the steps that depend on it are computed again.
#![tactic(auto)]

ghost use Rattle.std.specs.Prelude.{◌*◌, ◌≤◌, ◌<◌, length};
ghost use Rattle.dependence.specs.Dependence.{Listed};
ghost use Rattle.lanes.specs.Lanes.{Room, LanesOnGrid};
ghost use Rattle.line_outputs.specs.AlongLines.{Refreshed, RefreshedAt, AlongLine, OutputsSaved, Matching};

use fields::output_length;
use lanes::{run_all, run_listed};
use row_lanes::first_unequal;
use rows::{copy_row, fill_row};

// How a file is run along lines: N, d, the axis of the last input and the word of its lowest value, and the lanes.
#[derive(Clone, Copy)]
pub struct Along {
    pub n: usize,
    pub d: usize,
    pub u: u64,
    pub low: u64,
    pub w: usize,
}

// The rows of a file along a line: all steps at its first place, the listed ones at a later one.
pub fn refresh(file: &[u8], along: Along, inputs: &[u64], rows: &mut [u64], list: &[usize], t: u64)
    requires room { Room along.w file.now along.n inputs.now rows.old }
    requires listed { Listed along.n list.now (length list.now) }
    requires lanes_on_grid { LanesOnGrid along.w file.now inputs.now }
    ensures { Refreshed along file.now inputs.now rows.old rows.new
        list.now t }
{
    if t == 0 {
        run_all(file, along.n, inputs, rows, along.w);
        return;
    }
    run_listed(file, along.n, inputs, rows, list, along.w);
}

// The rows of a file with the last input at the count t above its lowest value, in every lane.
fn refresh_at(
    file: &[u8],
    along: Along,
    rows: &mut [u64],
    list: &[usize],
    inputs: &mut [u64],
    t: u64,
)
    requires room { Room along.w file.now along.n inputs.old rows.old }
    requires along_line { AlongLine along file.now inputs.old list.now }
    requires t_lt_u { t < along.u }
    ensures { RefreshedAt along file.now inputs.old inputs.new rows.old rows.new
        list.now t }
{
    fill_row(inputs, along.d - 1, along.low.wrapping_add(t), along.w);
    refresh(file, along, inputs, rows, list, t);
}

// The outputs of a file along lines: row t of the saved rows becomes the outputs at the count t of the last input, from
// its lowest value on.
pub fn save_outputs(
    file: &[u8],
    along: Along,
    rows: &mut [u64],
    list: &[usize],
    inputs: &mut [u64],
    saved: &mut [u64],
)
    requires room { Room along.w file.now along.n inputs.old rows.old }
    requires along_line { AlongLine along file.now inputs.old list.now }
    requires u_in_bounds { along.w * along.u ≤ length saved.old }
    ensures { OutputsSaved along file.now inputs.old inputs.new saved.new }
{
    for count in 0..along.u {
        refresh_at(file, along, rows, list, inputs, count);
        copy_row(rows, along.n - 1, saved, count as usize, along.w);
    }
}

// A count of first lanes that show the outputs of a file in the saved rows, at every count of the last input below its
// axis; that the lane after them does not is not promised.
pub fn matching_lanes(
    file: &[u8],
    along: Along,
    rows: &mut [u64],
    list: &[usize],
    inputs: &mut [u64],
    saved: &[u64],
) -> usize
    requires room { Room along.w file.now along.n inputs.old rows.old }
    requires along_line { AlongLine along file.now inputs.old list.now }
    requires u_in_bounds { along.w * along.u ≤ length saved.now }
    ensures { Matching along file.now inputs.old saved.now result }
{
    let m = output_length(file);
    let mut matching = along.w;
    for at in 0..along.u {
        refresh_at(file, along, rows, list, inputs, at);
        matching = first_unequal(saved, at as usize, rows, along.n - 1, m, matching, along.w);
        if matching == 0 {
            return 0;
        }
    }
    matching
}
