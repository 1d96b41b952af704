//! Work on the parts of a slice, each in a thread that the calling thread starts.
ghost use Rattle.std.specs.Prelude.{◌<◌};
ghost use denote.Param.Send.{IsSend, IsSync};
ghost use Rattle.vw_crew.specs.Parts.{AcceptsParts, ChangesParts};

use std::marker::{Send, Sync};
use std::thread::{Threads, join_mut};

/// Calls `f` at each part that `s.chunks_mut(size)` has, each in a thread of its own where one can be started, and the last one in
/// this thread. The calling thread starts all of them, one after the other: a thread that a new one starts, as by
/// `for_each_chunk_mut` of std, mostly lands on a core with it, also where a core is idle.
#[cycle(parts)]
pub fn for_each_part<R: Threads + Sync, X: Send, F: Fn(&mut [X]) + Sync>(
    rt: &R,
    f: &F,
    size: usize,
    s: &mut [X],
)
    requires size { 0 < size }
    requires accepts { AcceptsParts F.Fn f.now s.old }
    ensures { ChangesParts F.Fn f.now s.old s.new }
{
    if s.len() <= size {
        f(s);
        return;
    }
    let (first, rest) = s.split_at_mut(size);
    both_parts(rt, f, first, size, rest);
}

/// The same for the first part and for the parts of the rest.
#[cycle(parts)]
fn both_parts<R: Threads + Sync, X: Send, F: Fn(&mut [X]) + Sync>(
    rt: &R,
    f: &F,
    first: &mut [X],
    size: usize,
    rest: &mut [X],
)
    requires size { 0 < size }
    requires first { AcceptsParts F.Fn f.now first.old }
    requires rest { AcceptsParts F.Fn f.now rest.old }
    ensures first { ChangesParts F.Fn f.now first.old first.new }
    ensures rest { ChangesParts F.Fn f.now rest.old rest.new }
{
    let mut front = ||
        requires { AcceptsParts F.Fn f.now first.now }
        ensures { ChangesParts F.Fn f.entry.now first.entry.now first.exit.now }
    { one_part(f, first) };
    let mut back = ||
        requires { IsSync R.row × IsSync F.row × IsSend X.row × (0 < size)
            × AcceptsParts F.Fn f.now rest.now }
        ensures { ChangesParts F.Fn f.entry.now rest.entry.now rest.exit.now }
    { for_each_part(rt, f, size, rest) };
    join_mut(rt, &mut front, &mut back);
}

/// One call.
fn one_part<X, F: Fn(&mut [X])>(f: &F, part: &mut [X])
    requires { AcceptsParts F.Fn f.now part.old }
    ensures { ChangesParts F.Fn f.now part.old part.new }
{
    f(part);
}
