//! What is left where a read, a write or want of memory stops several workers.
use super::*;

/// Asserts that what a call wrote is a front of the toggle's trace, and what each link has carried is a front of its words.
fn are_fronts<R: Abort>(
    rt: &R,
    alloc: Global,
    ended: &Ran,
    links: &Links<R>,
) -> Result<(), AllocError> {
    assert!(rt; TOGGLE_TRACE.as_bytes().starts_with(ended.out.bytes()));
    for link in 0..6u32 {
        let words = TOGGLE_WORDS[link as usize];
        let found = words_carried(alloc, links, link)?;
        assert!(rt; words.as_bytes().starts_with(found.as_bytes()));
    }
    Ok(())
}

const THREE_WORKERS: &[&str] = &["run", "d", "b", "s", "plan=p", "workers=3"];

/// The status of a call over the toggle with this fault. Its message is this line, where one is given.
fn status_of<R: Threads + Wait + Abort + Copy + Send + Sync>(
    rt: &R,
    alloc: Global,
    words: &[&str],
    fault: Fault,
    line: Option<&str>,
) -> Result<u8, Fail> {
    let call = Call {
        words,
        texts: TOGGLE_TEXTS,
        most: 10,
        fault,
    };
    let mut links = Links::new(*rt, true);
    let ended = carried_out_on(rt, alloc, &call, &OpenGate::new(), &mut links)?;
    are_fronts(rt, alloc, &ended, &links)?;
    if let Some(line) = line {
        are_found(ended.err.bytes(), line.as_bytes(), "the line of a fault")?;
    }
    Ok(ended.status)
}

/// Asserts that a run with three workers ends with this status where one of its reads or writes fails, with the line of its
/// stage, and that there are no more of them.
fn each_stops<'x, R: Threads + Wait + Abort + Copy + Send + Sync>(
    rt: &R,
    alloc: Global,
    are_reads: bool,
    stages: &'x [(u64, &'x str)],
    status: u8,
) -> Result<(), Fail> {
    for number in 1..100u64 {
        let fault = if are_reads {
            Fault::Read(number)
        } else {
            Fault::Write(number)
        };
        let line = line_of_read(stages, number);
        let found = status_of(rt, alloc, THREE_WORKERS, fault, Some(line))?;
        let wanted = if line.is_empty() { 0 } else { status };
        is_status(found, wanted, "a fault")?;
    }
    Ok(())
}

/// A read gives at most ten bytes: the design of 78 bytes has 8 reads and one that finds its end, the board of 106 bytes has 12, and
/// the plan of 119 bytes has 13. Of the four of the stimulus the first asks for a byte past the limit, two check the text, and
/// one reads its rows again.
#[test]
fn each_read_may_fail(rt: HostRuntime) -> Result<(), Fail> {
    const STAGES: &[(u64, &str)] = &[
        (9, "read fault: design\n"),
        (21, "read fault: board\n"),
        (34, "read fault: plan\n"),
        (38, "read fault: stimulus\n"),
    ];
    each_stops(&rt, rt.alloc(), true, STAGES, 7)
}

/// The first line has two writes of at most ten bytes, the lines of the three clocks have two, and the last line has one.
#[test]
fn each_write_may_fail(rt: HostRuntime) -> Result<(), Fail> {
    each_stops(&rt, rt.alloc(), false, &[(5, "write fault\n")], 8)
}

/// With memory enough, a simulation ends with 0, and so does a run with three workers. Where an allocation fails, they end
/// with 9 and leave fronts, since neither the shelf nor out takes any; whoever runs this test makes them fail.
#[test]
fn memory_may_be_wanting(rt: HostRuntime) -> Result<(), Fail> {
    const CALLS: &[&[&str]] = &[&["sim", "d", "s"], THREE_WORKERS];
    for words in CALLS {
        let status = status_of(&rt, rt.alloc(), words, Fault::None, None)?;
        assert!(&rt; status == 0 || status == 9);
    }
    Ok(())
}
