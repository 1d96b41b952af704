//! How the queue of a link is laid.
ghost use Rattle.std.specs.Prelude.{◌<◌, length, IfOk};
ghost use Rattle.std.specs.Arc.{arc_value};
ghost use Rattle.vw_link.specs.Laid.{IsLaidLine};

use crate::rule::{Line, View, two_ends};
use crossbeam_queue::Pass;
use std::alloc::{AllocError, Global};
use std::sync::Arc;
use vw_prog::{Job, Word};

/// The queue of a link for a job's script, with the passes of its two ends. It takes memory for as many words as the link holds.
pub fn laid(
    alloc: Global,
    job: &Job,
    link: u32,
) -> Result<(Arc<Line>, Pass<Word, View>, Pass<Word, View>), AllocError>
    requires { link < length job.now.checked.board.links }
    ensures { IfOk result (λ laid. IsLaidLine job.now link (arc_value laid.0) laid.1 laid.2) }
{
    let width = job.checked().board().links()[link as usize].width();
    let (line, mut sender) = Line::ruled(alloc, 64 * width as usize)?;
    let receiver = two_ends(&line, &mut sender, job, link);
    Ok((Arc::new(alloc, line)?, sender, receiver))
}
