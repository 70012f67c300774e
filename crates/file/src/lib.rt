// The datapath file: whether it is accepted, and its operation bytes.
#![tactic(auto)]

ghost use Rattle.std.specs.Prelude.{◌≡◌};
ghost use Rattle.sizes.specs.Answered.{answered};
ghost use Rattle.file.specs.Check.{refusal_of};
ghost use Rattle.file.specs.Stretch.{Stretch};

use crate::faults::{head_fault, step_fault};
use fields::{head_of, read_sizes, step_count};
use sizes::Refusal;

mod faults;

// Whether a file is accepted, read as file `which`, 1 or 2 as the refusal shows it. It is refused by the first of conditions 1 to 8 that holds, in
// document 01's order, with the file and, in 7 and 8, the step.
pub fn check_as(file: &[u8], which: u64) -> Result<(), Refusal>
    ensures { result ≡ answered (refusal_of which file.now) tt }
{
    if let Some(number) = head_fault(file) {
        return Err(Refusal {
            number,
            file: which,
            step: 0,
        });
    }
    let z = read_sizes(file);
    let n = step_count(file);
    for k in 0..n {
        if let Some(number) = step_fault(file, z, n, k) {
            return Err(Refusal {
                number,
                file: which,
                step: k as u64,
            });
        }
    }
    Ok(())
}

// Whether a lone file is accepted: the answer of `check_as`, with 1 for the file.
pub fn check(file: &[u8]) -> Result<(), Refusal>
    ensures { result ≡ answered (refusal_of 1 file.now) tt }
{
    check_as(file, 1)
}

// The operation bytes: the stretch of the caller's slice itself after the head, N bytes long. Of a refused file it
// is empty.
#[tactic(auto, using(crate::proofs::Checked::checked), unfolding(crate::specs::Check::stretch_of, fields::specs::File::operations_of))]
pub fn operations(file: &[u8]) -> &[u8]
    ensures { Stretch file.entry result }
{
    if check(file).is_err() {
        return &file[..0];
    }
    let head = head_of(file);
    let n = step_count(file);
    &file[head..head + n]
}
