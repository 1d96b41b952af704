//! A partition that was made elsewhere, the whole way: the netlist of a design, the chip of each cell, a plan for these, its
//! check, and a run by it.
use crate::equal::written;
use std::alloc::Global;
use std::test::Fail;
use vw_sample_calls::are_found;
use vw_samples::FOUR_CELLS;

/// Two blocks, whose cells have names with the letter of their block.
const BLOCKS: &str =
    ".model m\n.inputs x y\n.outputs a2 b2\n.names x b2 a1\n11 1\n.latch b1 b2 1\n.latch a1 a2 0\n.names y a2 b1\n10 1\n.end\n";

/// Rows of two bits.
const ROWS: &str = "11\n01\n10\n11\n00\n11\n";

/// Whether this line is that of a cell.
fn is_cell(line: &str) -> bool {
    line.starts_with("gate ") || line.starts_with("latch ")
}

/// The chip of a cell by its line in a netlist: 1 where its name begins with an a, else 2.
fn chip_of(line: &str) -> &'static str {
    match line.split(' ').nth(2) {
        Some(name) if name.starts_with('a') => " 1",
        _ => " 2",
    }
}

/// The chips of the cells of a netlist, as `nets` writes it.
fn chips_by_letter(alloc: Global, nets: &str) -> Result<String, Fail> {
    let mut chips = String::new(alloc);
    chips.push_str("chips")?;
    for line in nets.lines() {
        if is_cell(line) {
            chips.push_str(chip_of(line))?;
        }
    }
    chips.push('\n')?;
    Ok(chips)
}

/// The plan of the blocks for these chips.
fn plan_for<'x>(alloc: Global, chips: &'x str) -> Result<String, Fail> {
    let texts = with("c", chips);
    written(alloc, &["plan", "d", "b", "chips=c"], &texts)
}

/// The texts of the blocks, and another one.
fn with<'x>(name: &'x str, text: &'x str) -> [(&'x str, &'x str); 4] {
    [("d", BLOCKS), ("b", FOUR_CELLS), ("s", ROWS), (name, text)]
}

/// Fails unless a plan of the blocks is sound.
fn is_sound(alloc: Global, texts: &[(&str, &str)]) -> Result<(), Fail> {
    let line = written(alloc, &["check", "d", "b", "p"], texts)?;
    are_found(line.as_bytes(), b"sound 6 6 1\n", "the plan")
}

/// Fails unless a run by a plan writes what the simulator writes.
fn runs_alike(alloc: Global, texts: &[(&str, &str)]) -> Result<(), Fail> {
    let trace = written(alloc, &["sim", "d", "s"], texts)?;
    let ran = written(alloc, &["run", "d", "b", "s", "plan=p", "workers=1"], texts)?;
    are_found(ran.as_bytes(), trace.as_bytes(), "the trace")
}

/// Fails unless this plan of the blocks is sound, and a run by it writes what the simulator writes.
fn runs_by(alloc: Global, plan: &str) -> Result<(), Fail> {
    let texts = with("p", plan);
    is_sound(alloc, &texts)?;
    runs_alike(alloc, &texts)
}

#[test]
fn a_partition_by_the_letters_of_names_runs(rt: HostRuntime) -> Result<(), Fail> {
    let alloc = rt.alloc();
    let nets = written(alloc, &["nets", "d"], &[("d", BLOCKS)])?;
    let chips = chips_by_letter(alloc, nets.as_str())?;
    are_found(chips.as_bytes(), b"chips 1 2 1 2\n", "the chips")?;
    let plan = plan_for(alloc, chips.as_str())?;
    runs_by(alloc, plan.as_str())
}
