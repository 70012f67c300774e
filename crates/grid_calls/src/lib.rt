// The calls on the bound and on the grid of a file, in words. Each returns 1 where its layout is right, and 0, with
// nothing touched, where it is not.
#![tactic(auto)]

ghost use Rattle.grid_calls.specs.GridCalls.{BoundCall, GridCall};

use fields::read_sizes;
use figures::{QUOTIENTS, figures_of};
use file::check;
use grid::grid_of;
use refusal_words::{REFUSAL_LENGTH, put_refusal};
use sizes::INPUTS;
use slices::{clear, copy_front};

// The words of the answer about a bound: the refusal, L(m) and its quotients.
const BOUND_LENGTH: usize = REFUSAL_LENGTH + 1 + QUOTIENTS;

// Where G stands in the answer about a grid, after the refusal and the axes.
const AT_SIZE: usize = REFUSAL_LENGTH + INPUTS;

// The words of that answer.
const GRID_LENGTH: usize = AT_SIZE + 1;

// The bound L(m): out gets the refusal, by 2 where m is not 1 to 64, and L(m) with its quotients by 2, 4, 8, 16, 32
// and 64.
pub fn bound_call(m: u64, out: &mut [u64]) -> u32
    ensures { BoundCall m out.old result out.new }
{
    if out.len() != BOUND_LENGTH {
        return 0;
    }
    match figures_of(m) {
        Ok(f) => {
            let q = f.quotients;
            copy_front(
                &[0, 0, 0, f.bound, q[0], q[1], q[2], q[3], q[4], q[5]],
                out,
                BOUND_LENGTH,
            );
        }
        Err(r) => copy_front(
            &[r.number, r.file, r.step, 0, 0, 0, 0, 0, 0, 0],
            out,
            BOUND_LENGTH,
        ),
    }
    1
}

// The grid of a file: out gets the refusal, the axes, 0 past d, and G.
pub fn grid_call(file: &[u8], out: &mut [u64]) -> u32
    ensures { GridCall file.now out.old result out.new }
{
    if out.len() != GRID_LENGTH {
        return 0;
    }
    let judged = check(file);
    put_refusal(out, judged);
    if judged.is_err() {
        clear(&mut out[REFUSAL_LENGTH..], INPUTS + 1);
        return 1;
    }
    let g = grid_of(read_sizes(file));
    copy_front(&g.axes, &mut out[REFUSAL_LENGTH..], INPUTS);
    out[AT_SIZE] = g.size;
    1
}
