ghost use Rattle.std.specs.Prelude.{◌≡◌, ◌+◌, length};
ghost use Rattle.vw_net.specs.Cells.{latch_count};

use crate::rows::quiet_shelf;
use crate::same::assert_same;
use std::alloc::Global;
use std::test::Fail;
use vw_front::{NamedNetlist, named_netlist_of_text};
use vw_outside::{MemSink, Name};
use vw_rows::{Rereading, Stimulus};
use vw_samples::name;
use vw_wave::write_wave;

/// A latch that changes in each clock in which `en` is 1.
const TOGGLE: &[u8] =
    b".model toggle\n.inputs en\n.outputs q\n.names en q d\n10 1\n01 1\n.latch d q 0\n.end\n";

/// The head of its wave: the output, and behind it the latch.
const HEAD: &[u8] = b"$timescale 1 s $end
$scope module design $end
$var wire 1 ! n_q $end
$var wire 1 \" n_q $end
$upscope $end
$enddefinitions $end
";

/// Stimuli of it, and what stands behind the head of their waves. A batch is 256 clocks.
const WAVES: &[(&[u8], &[u8])] = &[
    (
        b"1\n1\n0\n",
        b"#0\n$dumpvars\n0!\n0\"\n$end\n#1\n1!\n1\"\n#2\n0!\n0\"\n#3\n",
    ),
    (b"", b"#0\n"),
    (b"hold 257", b"#0\n$dumpvars\n0!\n0\"\n$end\n#257\n"),
    (
        b"hold 256\n1\n0\n",
        b"#0\n$dumpvars\n0!\n0\"\n$end\n#257\n1!\n1\"\n#258\n",
    ),
];

/// The wave of a netlist over a stimulus, or nothing where it isn't written.
fn wave_over(
    alloc: Global,
    named: &NamedNetlist,
    text: &[u8],
    names: &[Name],
) -> Result<Vec<u8>, Fail>
    requires { length names.now ≡ length named.now.ordered.flat.outputs
        + latch_count named.now.ordered.flat.cells }
{
    let ordered = named.ordered();
    let mut shelf = quiet_shelf(alloc, text, 65_536)?;
    let mut out = MemSink::new(alloc, 65_536, Vec::new(alloc));
    let name = name(alloc, b"a")?;
    let Ok(mut stimulus) = Stimulus::check(alloc, &mut shelf, &name, ordered.flat().inputs()) else {
        return Err("a fault of the stimulus".into());
    };
    let mut rows = Rereading {
        stimulus: &mut stimulus,
        shelf: &mut shelf,
    };
    match write_wave(alloc, ordered, names, false, false, &mut rows, &mut out) {
        Ok(()) => Ok(out.written),
        Err(_) => Err("a fault of the run".into()),
    }
}

#[test]
fn waves_have_the_lines_written_by_hand(rt: HostRuntime) -> Result<(), Fail> {
    let alloc = rt.alloc();
    let Ok(named) = named_netlist_of_text(alloc, TOGGLE, &[]) else {
        return Err("a fault of the design".into());
    };
    let names = named.signals(alloc, &[])?;
    for (text, lines) in WAVES {
        let mut wanted = HEAD.to_vec(alloc)?;
        wanted.extend_from_slice(lines)?;
        let found = wave_over(alloc, &named, text, &names)?;
        assert_same(&rt, text, &found, &wanted);
    }
    Ok(())
}
