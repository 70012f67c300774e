// Two comparable files compared over a span of the grid's places: whole lines of the grid several at a time, and what
// stands before and after them in batches.
#![tactic(auto)]

ghost use Rattle.std.specs.Prelude.{◌≤◌, ◌<◌, max, take};
ghost use Rattle.batches.specs.Prepared.{Prepared};
ghost use Rattle.line_groups.specs.Groups.{Lists};
ghost use Rattle.places.specs.Places.{size};
ghost use Rattle.plan.specs.Comparison.{Searched};
ghost use Rattle.spans.specs.Spans.{FirstLine, LinesFrom};

use batches::{Shape, by_batches};
use line_groups::agreed_lines;
use plan::{Plan, Span};

// The first line of u places that starts at place p or after it.
fn first_line(p: u64, u: u64) -> u64
    requires { 0 < u }
    ensures { FirstLine p u result }
{
    p.div_ceil(u)
}

// The line from which on lines go together, where those before line `stop` may: the first that starts at place p or
// after it, or, where enough are left, the next. The first then goes in batches, which find a difference in it sooner.
fn lines_from(p: u64, u: u64, stop: u64, wide: u64) -> u64
    requires { 0 < u }
    ensures { LinesFrom p u result }
{
    let first = first_line(p, u);
    if wide < stop.saturating_sub(first) {
        return first + 1;
    }
    first
}

// The first place of the span at which the outputs differ, or its end where there is none. Where the span has as many
// whole lines as there are lanes, or more, lines go together, as many at a time; what stands before and after them, and
// a line with a difference, goes in batches.
pub fn by_lines(
    file1: &[u8],
    file2: &[u8],
    plan: Plan,
    shape: Shape,
    span: Span,
    rows: &mut [u64],
    other: &mut [u64],
    list1: &mut [usize],
    list2: &mut [usize],
    flags: &mut [u64],
) -> u64
    requires prepared { Prepared shape file1.now file2.now plan rows.old other.old }
    requires lists { Lists plan list1.old list2.old flags.old }
    requires from_lt_end { (span.from < span.end) × (span.end ≤ size (take plan.d plan.axes)) }
    ensures { Searched file1.now file2.now (max plan.n1 plan.n2) span.from span.end
        flags.old result flags.new }
{
    let u = plan.axes[plan.d - 1];
    let stop = span.end / u;
    let wide = shape.w as u64;
    let start = lines_from(span.from, u, stop, wide);
    if stop.saturating_sub(start) < wide {
        return by_batches(file1, file2, plan, shape, span.from, span.end, rows, other);
    }
    let head = start * u;
    let found = by_batches(file1, file2, plan, shape, span.from, head, rows, other);
    if found < head {
        return found;
    }
    let lines = Span {
        from: start,
        end: stop,
    };
    let line = agreed_lines(
        file1, file2, plan, shape, lines, rows, other, list1, list2, flags,
    );
    by_batches(file1, file2, plan, shape, line * u, span.end, rows, other)
}
