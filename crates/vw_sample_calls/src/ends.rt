//! Failures of calls that don't end as they should. Each is proved once here, and a call of one costs a test little.
use crate::call::{Call, End, Fault, MOST, Ran, SIM, carried_out};
use std::alloc::Global;
use std::test::Fail;

/// What a failure shows of these bytes.
fn shown(bytes: &[u8]) -> &str {
    str::from_utf8(bytes).unwrap_or("bytes that are no text")
}

/// Fails unless these bytes are the ones that are wanted; what it is about, some text tells.
pub fn are_found(found: &[u8], wanted: &[u8], on: &str) -> Result<(), Fail> {
    if found == wanted {
        return Ok(());
    }
    let found = shown(found);
    let wanted = shown(wanted);
    Err(Fail::new(format_args!("{on}\nfound: {found}\nwanted: {wanted}")))
}

/// Fails unless this status is the one that is wanted.
pub fn is_status(found: u8, wanted: u8, on: &str) -> Result<(), Fail> {
    if found == wanted {
        return Ok(());
    }
    Err(Fail::new(format_args!("{on}\nfound: status {found}\nwanted: {wanted}")))
}

/// Fails unless a call that some text tells from the others has ended in this way.
pub fn has_ended(ran: &Ran, on: &str, end: End) -> Result<(), Fail> {
    are_found(ran.err.bytes(), end.err.as_bytes(), on)?;
    are_found(ran.out.bytes(), end.out.as_bytes(), on)?;
    is_status(ran.status, end.status, on)
}

/// Fails unless a call that some text tells from the others ends in this way.
pub fn call_ends(alloc: Global, call: &Call, on: &str, end: End) -> Result<(), Fail> {
    let ran = carried_out(alloc, call)?;
    has_ended(&ran, on, end)
}

/// Fails unless a run of a design over a stimulus ends in this way.
pub fn run_ends(
    alloc: Global,
    design: &str,
    stimulus: &str,
    on: &str,
    end: End,
) -> Result<(), Fail> {
    let call = Call {
        words: SIM,
        texts: &[("d", design), ("s", stimulus)],
        most: MOST,
        fault: Fault::None,
    };
    call_ends(alloc, &call, on, end)
}

/// Fails unless each of these designs is refused with its line.
pub fn designs_are_refused(alloc: Global, table: &[(&str, &str)]) -> Result<(), Fail> {
    for (design, line) in table {
        let end = End::refused(1, line);
        run_ends(alloc, design, "", design, end)?;
    }
    Ok(())
}

/// Fails unless each of these designs, over its stimulus, has its trace.
pub fn designs_run(alloc: Global, table: &[(&str, &str, &str)]) -> Result<(), Fail> {
    for (design, stimulus, trace) in table {
        let end = End::done(trace);
        run_ends(alloc, design, stimulus, design, end)?;
    }
    Ok(())
}

/// Fails unless all of these designs, over a row of a one and a row of a zero, have this trace.
pub fn designs_run_alike(alloc: Global, designs: &[&str], trace: &str) -> Result<(), Fail> {
    for design in designs {
        let end = End::done(trace);
        run_ends(alloc, design, "1\n0\n", design, end)?;
    }
    Ok(())
}

/// Fails unless each of these stimuli of a design is refused with its line.
pub fn stimuli_are_refused(
    alloc: Global,
    design: &str,
    table: &[(&str, &str)],
) -> Result<(), Fail> {
    for (stimulus, line) in table {
        let end = End::refused(5, line);
        run_ends(alloc, design, stimulus, stimulus, end)?;
    }
    Ok(())
}

/// Fails unless a call with these words and texts ends in this way.
pub fn words_end_so(
    alloc: Global,
    words: &[&str],
    texts: &[(&str, &str)],
    end: End,
) -> Result<(), Fail> {
    let call = Call {
        words,
        texts,
        most: MOST,
        fault: Fault::None,
    };
    call_ends(alloc, &call, end.err, end)
}

/// Fails unless a call with each of these lists of words over the same texts ends with its status, output and message.
pub fn words_end(
    alloc: Global,
    texts: &[(&str, &str)],
    table: &[(&[&str], u8, &str, &str)],
) -> Result<(), Fail> {
    for (words, status, out, err) in table {
        let end = End {
            status: *status,
            out,
            err,
        };
        words_end_so(alloc, words, texts, end)?;
    }
    Ok(())
}

/// Fails unless a call, which its fault and the most bytes that it takes tell from the others, ends in this way.
fn fault_ends(alloc: Global, call: &Call, end: End) -> Result<(), Fail> {
    let most = call.most;
    let (read, write, message) = call.fault.numbers();
    let on = format!(in alloc; "{most} bytes, read {read}, write {write}, message {message}")?;
    call_ends(alloc, call, on.as_str(), end)
}

/// Fails unless a call with these words and texts, for each most number of bytes that it takes and each fault, ends with
/// its status, output and message.
pub fn faults_end<'a>(
    alloc: Global,
    words: &'a [&'a str],
    texts: &'a [(&'a str, &'a str)],
    table: &[(u32, Fault, u8, &str, &str)],
) -> Result<(), Fail> {
    for (most, fault, status, out, err) in table {
        let call = Call {
            words,
            texts,
            most: *most,
            fault: *fault,
        };
        let end = End {
            status: *status,
            out,
            err,
        };
        fault_ends(alloc, &call, end)?;
    }
    Ok(())
}
