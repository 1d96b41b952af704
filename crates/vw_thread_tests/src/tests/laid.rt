//! How often links are laid and lifted.
use super::*;
use vw_link::{Receiver, Sender};
use vw_prog::{Fabric, Job};

/// Links that count how often they are laid and lifted, and of which one isn't laid: the one with this number, from 1.
#[derive(Drop)]
struct Counted<R> {
    links: Links<R>,
    refused: u32,
    laid: u32,
    lifted: u32,
}

impl<R: Wait + Copy + Send> Fabric for Counted<R> {
    type Tx = Sender<R>;

    type Rx = Receiver<R>;

    ghost use Rattle.vw_link.specs.Chains.{carried_of};

    ghost carried = { λ counted. carried_of counted.links };

    fn lay(
        &mut self,
        alloc: Global,
        job: &Job,
        link: u32,
    ) -> Result<(Sender<R>, Receiver<R>), AllocError> {
        if self.laid.saturating_add(1) == self.refused {
            return Err(AllocError);
        }
        let ends = self.links.lay(alloc, job, link)?;
        self.laid = self.laid.saturating_add(1);
        Ok(ends)
    }

    fn lift(&mut self, link: u32, tx: Sender<R>, rx: Receiver<R>) {
        self.lifted = self.lifted.saturating_add(1);
        self.links.lift(link, tx, rx);
    }
}

/// The toggle on three nodes, with its plan, a state of it, and these rows.
fn three_nodes<'x>(rows: &'x str) -> [(&'x str, &'x str); 5] {
    [
        ("d", TOGGLE),
        ("b", TRIANGLE),
        ("p", TOGGLE_PLAN),
        ("t", "state 1 3 1 0\n"),
        ("s", rows),
    ]
}

/// How a call ends, and how often links were laid and lifted in it. The link with the number `refused` isn't laid.
fn laid_and_lifted<R: Threads + Wait + Copy + Send + Sync>(
    rt: &R,
    alloc: Global,
    words: &[&str],
    rows: &str,
    refused: u32,
) -> Result<(u8, u32, u32), AllocError> {
    let texts = three_nodes(rows);
    let call = Call {
        words,
        texts: &texts,
        most: MOST,
        fault: Fault::None,
    };
    let mut counted = Counted {
        links: Links::new(*rt, true),
        refused,
        laid: 0,
        lifted: 0,
    };
    let ended = carried_out_on(rt, alloc, &call, &OpenGate::new(), &mut counted)?;
    Ok((ended.status, counted.laid, counted.lifted))
}

/// A board of six links lays each for up to 256 clocks, and again for those behind them.
#[test]
fn each_batch_lays_each_link_once(rt: HostRuntime) -> Result<(), Fail> {
    const COMMANDS: &[&[&str]] = &[
        &["run", "d", "b", "s", "plan=p", "workers=2"],
        &["save", "d", "b", "s", "plan=p", "workers=2"],
        &["resume", "d", "b", "t", "s", "plan=p", "workers=2"],
    ];
    const CLOCKS: &[(&str, u32)] = &[("hold 256\n", 6), ("1\nhold 256\n", 12), ("hold 513\n", 18)];
    for words in COMMANDS {
        for (rows, laid) in CLOCKS {
            let found = laid_and_lifted(&rt, rt.alloc(), words, rows, 0)?;
            assert_eq!(&rt; found, (0, *laid, *laid), "{words:?}");
        }
    }
    Ok(())
}

/// With one worker no link is laid.
#[test]
fn one_worker_lays_no_link(rt: HostRuntime) -> Result<(), Fail> {
    const COMMANDS: &[&[&str]] = &[
        &["run", "d", "b", "s", "plan=p", "workers=1"],
        &["save", "d", "b", "s", "workers=1"],
        &["resume", "d", "b", "t", "s", "workers=1"],
        &["demo", "100", "workers=1"],
    ];
    for words in COMMANDS {
        let found = laid_and_lifted(&rt, rt.alloc(), words, "1\n", 0)?;
        assert_eq!(&rt; found, (0, 0, 0), "{words:?}");
    }
    Ok(())
}

/// A link that isn't laid is want of memory, and all that were laid before it are lifted.
#[test]
fn what_was_laid_is_lifted_where_one_is_refused(rt: HostRuntime) -> Result<(), Fail> {
    for refused in 1..13u32 {
        let words = &["run", "d", "b", "s", "plan=p", "workers=2"];
        let found = laid_and_lifted(&rt, rt.alloc(), words, "1\nhold 256\n", refused)?;
        assert_eq!(&rt; found, (9, refused - 1, refused - 1));
    }
    Ok(())
}
