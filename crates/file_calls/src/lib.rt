// The calls on one file, in words: checking, finding the operation bytes, evaluating. Each returns 1 where its layout
// is right, and 0, with nothing touched, where it is not.
#![tactic(auto)]

ghost use Rattle.file_calls.specs.FileCalls.{
  CheckCall,
  OperationsCall,
  EvaluateCall,
};

use evaluate::evaluate;
use fields::head_of;
use file::{check, operations};
use refusal_words::{REFUSAL_LENGTH, put_refusal};
use slices::copy_front;

// The words of the answer about operation bytes: start and length.
const OPERATIONS_LENGTH: usize = 2;

// The words of the answer of an evaluation: the refusal and the output.
const EVALUATE_LENGTH: usize = REFUSAL_LENGTH + 1;

// Whether a file is accepted: out gets the refusal.
pub fn check_call(file: &[u8], out: &mut [u64]) -> u32
    ensures { CheckCall file.now out.old result out.new }
{
    if out.len() != REFUSAL_LENGTH {
        return 0;
    }
    put_refusal(out, check(file));
    1
}

// Where the operation bytes stand in the file: out gets the start and the length of their stretch, 0 and 0 of a
// refused file.
pub fn operations_call(file: &[u8], out: &mut [u64]) -> u32
    ensures { OperationsCall file.now out.old result out.new }
{
    if out.len() != OPERATIONS_LENGTH {
        return 0;
    }
    let n = operations(file).len() as u64;
    let start = if n == 0 { 0 } else { head_of(file) as u64 };
    copy_front(&[start, n], out, OPERATIONS_LENGTH);
    1
}

// The output of a file at a vector, given as words, in two's complement for a signed input: out gets the refusal and
// the output. Of the scratch slice the first N entries are zero afterwards where the call is accepted; nothing else is
// touched.
pub fn evaluate_call(file: &[u8], vector: &[u64], scratch: &mut [u64], out: &mut [u64]) -> u32
    ensures { EvaluateCall file.now vector.now scratch.old out.old result
        scratch.new out.new }
{
    if out.len() != EVALUATE_LENGTH {
        return 0;
    }
    match evaluate(file, vector, scratch) {
        Ok(output) => copy_front(&[0, 0, 0, output], out, EVALUATE_LENGTH),
        Err(r) => copy_front(&[r.number, r.file, r.step, 0], out, EVALUATE_LENGTH),
    }
    1
}
