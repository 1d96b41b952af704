use crate::compared::told;
use crate::generated::{Dice, Recipe, inverter, netlist, netlist_of, stimulus};
use std::alloc::Global;
use std::process::Abort;
use std::test::Fail;
use vw_merge::{merged, merged_for};
use vw_net::Ordered;

/// Asserts that a netlist and its merged one do the same over so many clocks.
fn are_same(
    rt: &impl Abort,
    alloc: Global,
    dice: &mut Dice,
    plain: &Ordered,
    other: &Ordered,
    clocks: u32,
) -> Result<(), Fail> {
    let rows = stimulus(alloc, dice, plain.flat().inputs(), clocks)?;
    for unknown in &[false, true] {
        let wanted = told(alloc, plain, *unknown, &rows)?;
        let found = told(alloc, other, *unknown, &rows)?;
        assert!(rt; found.as_slice() == wanted.as_slice());
    }
    Ok(())
}

/// Asserts that a generated netlist can be merged, and does the same then.
fn is_merged(
    rt: &impl Abort,
    alloc: Global,
    dice: &mut Dice,
    recipe: &Recipe,
    clocks: &[u32],
) -> Result<(), Fail> {
    let plain = netlist(alloc, dice, recipe)?;
    let other = merged(alloc, &plain)?.ok_or("not merged")?;
    assert!(rt; other.flat().cells().len() <= plain.flat().cells().len());
    for count in clocks {
        are_same(rt, alloc, dice, &plain, &other, *count)?;
    }
    Ok(())
}

/// Gates of at most this width, over so many nets before.
fn recipe(cells: u32, width: u32, wide: u32, reach: u32) -> Recipe {
    Recipe {
        inputs: cells.min(9),
        cells,
        outputs: 12,
        width,
        wide,
        latches: 7,
        reach,
    }
}

#[test]
fn generated_netlists_do_the_same(rt: HostRuntime) -> Result<(), Fail> {
    let alloc = rt.alloc();
    let mut dice = Dice { state: 68 };
    for cells in &[1, 2, 3, 5, 8, 13, 40, 120, 500] {
        for width in &[1, 2, 3, 4, 6] {
            is_merged(
                &rt,
                alloc,
                &mut dice,
                &recipe(*cells, *width, 1_000, 16),
                &[0, 1, 40],
            )?;
            is_merged(
                &rt,
                alloc,
                &mut dice,
                &recipe(*cells, *width, 9, 300),
                &[40],
            )?;
        }
    }
    Ok(())
}

#[test]
fn batches_of_clocks_do_the_same(rt: HostRuntime) -> Result<(), Fail> {
    let alloc = rt.alloc();
    let mut dice = Dice { state: 69 };
    is_merged(
        &rt,
        alloc,
        &mut dice,
        &recipe(60, 3, 20, 20),
        &[256, 257, 700],
    )
}

/// A row of gates, each of which turns the value of the one before it, behind one input.
fn chain(alloc: Global, gates: u32) -> Result<Ordered, Fail> {
    let mut cells = Vec::new(alloc);
    for net in 0..gates {
        cells.push(inverter(alloc, net)?)?;
    }
    netlist_of(alloc, 1, cells, &[gates])
}

#[test]
fn a_long_chain_has_few_tables(rt: HostRuntime) -> Result<(), Fail> {
    let alloc = rt.alloc();
    let plain = chain(alloc, 65_536)?;
    let other = merged(alloc, &plain)?.ok_or("not merged")?;
    assert!(rt; other.flat().cells().len() <= 65_536 / 32);
    are_same(&rt, alloc, &mut Dice { state: 70 }, &plain, &other, 2)
}

#[test]
fn a_netlist_is_merged_for_many_clocks_alone(rt: HostRuntime) -> Result<(), Fail> {
    let alloc = rt.alloc();
    let plain = chain(alloc, 100)?;
    assert!(rt; merged_for(alloc, &plain, 700).is_none());
    let other = merged_for(alloc, &plain, 1_000_000).ok_or("not merged")?;
    assert!(rt; other.flat().cells().len() < 10);
    Ok(())
}
