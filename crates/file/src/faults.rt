// What a datapath file breaks: conditions 1 to 6 on the head and the length, then 7 and 8 on each step.
ghost use Rattle.std.specs.Prelude.{◌≡◌, ◌<◌};
ghost use Rattle.file.specs.Check.{fault, head_fault, operands_rule, argument_rule, step_fault};
ghost use Rattle.file.specs.Headed.{Headed};

use fields::{
    SHORT_HEAD, STEPS, argument, head_of, input_count, left_operand, operation, output_length,
    read_sizes, right_operand, step_count,
};
use sizes::{Sizes, bad_widths, is_input_count, is_output_length, within};
use words::cut;

// The first of conditions 1 to 6 that holds, or none. Condition 1 is judged twice: before 2 of a short head, and after
// 3 of the head that d asks for.
#[tactic(auto, using(crate::proofs::Cases::head_opened))]
pub fn head_fault(file: &[u8]) -> Option<u64>
    ensures { result ≡ fault (head_fault file.now) }
{
    if file.len() < SHORT_HEAD {
        return Some(1);
    }
    if !is_output_length(output_length(file)) {
        return Some(2);
    }
    if !is_input_count(input_count(file)) {
        return Some(3);
    }
    let head = head_of(file);
    if file.len() < head {
        return Some(1);
    }
    let n = step_count(file);
    if !within(1, STEPS as u64, n as u64) {
        return Some(4);
    }
    if bad_widths(read_sizes(file)) {
        return Some(5);
    }
    if file.len() != head + 9 * n {
        return Some(6);
    }
    None
}

// Whether both operands of the argument a are steps before step k, and its upper half is 0.
#[tactic(auto, unfolding(crate::specs::Check::operands_rule))]
fn operands_rule(k: usize, a: u64) -> bool
    ensures { result ≡ operands_rule k a }
{
    left_operand(a) < k && right_operand(a) < k && a >> 32 == 0
}

// Whether the argument a of step k keeps the rule of its operation o.
#[tactic(auto, using(crate::proofs::Cases::kept_by_cut), unfolding(crate::specs::Check::argument_rule))]
fn argument_rule(z: Sizes, k: usize, o: u8, a: u64) -> bool
    ensures { result ≡ argument_rule z k o a }
{
    match o {
        1 => a < u64::from(z.d),
        2 => cut(a, u64::from(z.m)) == a,
        _ => operands_rule(k, a),
    }
}

// Condition 7 or 8, the first that holds at step k, or none. The sizes and N are the file's, and its length is that of
// its head and 9N.
#[tactic(auto, unfolding(crate::specs::Check::step_fault, crate::specs::Check::bad_operation, crate::specs::Check::bad_argument))]
pub fn step_fault(file: &[u8], z: Sizes, n: usize, k: usize) -> Option<u64>
    requires { Headed file.now z n × (k < n) }
    ensures { result ≡ fault (step_fault file.now k) }
{
    let o = operation(file, n, k);
    if !within(1, 5, u64::from(o)) {
        return Some(7);
    }
    let a = argument(file, n, k);
    if argument_rule(z, k, o, a) {
        None
    } else {
        Some(8)
    }
}
