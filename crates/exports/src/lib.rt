// The C interface: every call of the library on pointers, lengths and words. Each returns 1 where its layout is
// right, as the header gives it, and 0, with nothing touched, where it is not. Sizes are words: m, d and the word
// lengths; a call given sizes of another length, or with a word that does not fit a byte, returns 0. A session is
// words: the sizes, position and mark. Where it has another length, a size does not fit a byte or the mark is not 0
// to 2, continuing returns 0. Opening takes any words of that length and overwrites them.
#![tactic(auto)]

ghost use Rattle.file_calls.specs.FileCalls.{
  CheckCall,
  OperationsCall,
  EvaluateCall,
};
ghost use Rattle.grid_calls.specs.GridCalls.{BoundCall, GridCall};
ghost use Rattle.report_calls.specs.ReportCalls.{ReportCall};
ghost use Rattle.session_calls.specs.SessionCalls.{OpenCall, ContinueCall};
ghost use Rattle.table_calls.specs.TableCalls.{
  TableCall,
  DifferenceCall,
  SumCall,
};

use file_calls::{check_call, evaluate_call, operations_call};
use grid_calls::{bound_call, grid_call};
use report_calls::report_call;
use session_calls::{continue_call, open_call};
use table_calls::{table_call, transform_call};

// Whether a file is accepted: out gets the refusal.
#[unsafe(no_mangle)]
pub extern "C" fn corkbingo_check(file: &[u8], out: &mut [u64]) -> u32
    ensures { CheckCall file.now out.old result out.new }
{
    check_call(file, out)
}

// Where the operation bytes stand in the file: out gets the start and the length of their stretch, 0 and 0 of a
// refused file.
#[unsafe(no_mangle)]
pub extern "C" fn corkbingo_operations(file: &[u8], out: &mut [u64]) -> u32
    ensures { OperationsCall file.now out.old result out.new }
{
    operations_call(file, out)
}

// The bound L(m): out gets the refusal, by 2 where m is not 1 to 64, and L(m) with its quotients by 2, 4, 8, 16, 32
// and 64.
#[unsafe(no_mangle)]
pub extern "C" fn corkbingo_bound(m: u64, out: &mut [u64]) -> u32
    ensures { BoundCall m out.old result out.new }
{
    bound_call(m, out)
}

// The grid of a file: out gets the refusal, the axes, 0 past d, and G.
#[unsafe(no_mangle)]
pub extern "C" fn corkbingo_grid(file: &[u8], out: &mut [u64]) -> u32
    ensures { GridCall file.now out.old result out.new }
{
    grid_call(file, out)
}

// The output of a file at a vector, given as words, in two's complement for a signed input: out gets the refusal and
// the output. Of the scratch slice the first N entries are zero afterwards where the call is accepted; nothing else is
// touched.
#[unsafe(no_mangle)]
pub extern "C" fn corkbingo_evaluate(
    file: &[u8],
    vector: &[u64],
    scratch: &mut [u64],
    out: &mut [u64],
) -> u32
    ensures { EvaluateCall file.now vector.now scratch.old out.old result
        scratch.new out.new }
{
    evaluate_call(file, vector, scratch, out)
}

// The table of a file: out gets the refusal. Where the call is accepted, the first G table entries become the table,
// and the first N scratch entries are zero afterwards; nothing else is touched.
#[unsafe(no_mangle)]
pub extern "C" fn corkbingo_table(
    file: &[u8],
    scratch: &mut [u64],
    table: &mut [u64],
    out: &mut [u64],
) -> u32
    ensures { TableCall file.now scratch.old table.old out.old result
        scratch.new table.new out.new }
{
    table_call(file, scratch, table, out)
}

// The table of given outputs: out gets the refusal. Where the call is accepted, the first G table entries become the
// table; nothing else is touched.
#[unsafe(no_mangle)]
pub extern "C" fn corkbingo_difference(
    sizes: &[u64],
    outputs: &[u64],
    table: &mut [u64],
    out: &mut [u64],
) -> u32
    ensures { DifferenceCall sizes.now outputs.now table.old out.old result
        table.new out.new }
{
    transform_call(sizes, outputs, table, out, false)
}

// The outputs that a table sums to: out gets the refusal. Where the call is accepted, the first G entries of the
// outputs become the sums; nothing else is touched.
#[unsafe(no_mangle)]
pub extern "C" fn corkbingo_sum(
    sizes: &[u64],
    table: &[u64],
    outputs: &mut [u64],
    out: &mut [u64],
) -> u32
    ensures { SumCall sizes.now table.now outputs.old out.old result
        outputs.new out.new }
{
    transform_call(sizes, table, outputs, out, true)
}

// Opens a session on two files: session gets the session, and out the refusal.
#[unsafe(no_mangle)]
pub extern "C" fn corkbingo_open(
    file1: &[u8],
    file2: &[u8],
    session: &mut [u64],
    out: &mut [u64],
) -> u32
    ensures { OpenCall file1.now file2.now session.old out.old result
        session.new out.new }
{
    open_call(file1, file2, session, out)
}

// Continues a session on two files under a budget: session goes in and out, and answer gets the answer. Of the
// scratch slice the first entries, as many as the larger N, are zero afterwards where the call is accepted; nothing
// else is touched.
#[unsafe(no_mangle)]
pub extern "C" fn corkbingo_continue(
    file1: &[u8],
    file2: &[u8],
    session: &mut [u64],
    budget: u64,
    scratch: &mut [u64],
    answer: &mut [u64],
) -> u32
    ensures { ContinueCall file1.now file2.now budget
        session.old scratch.old answer.old result
        session.new scratch.new answer.new }
{
    continue_call(file1, file2, session, budget, scratch, answer)
}

// Writes the text of a continue call's answer, given as words, at the start of the text slice, and its count of bytes
// into out; `run` is the vectors run over all calls. An answer of no kind has no text. Nothing else is touched.
#[unsafe(no_mangle)]
pub extern "C" fn corkbingo_report(
    file1: &[u8],
    file2: &[u8],
    answer: &[u64],
    run: u64,
    text: &mut [u8],
    out: &mut [u64],
) -> u32
    ensures { ReportCall file1.now file2.now answer.now run
        text.old out.old result text.new out.new }
{
    report_call(file1, file2, answer, run, text, out)
}
