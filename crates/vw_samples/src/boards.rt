//! Designs on boards.
use crate::texts::{
    AND, AND_PLAN, CHAIN, FAR_CHAIN, FAR_PLAN, FLIP, FLIP_PLAN, ONE_CHIP, TOGGLE, TOGGLE_PLAN,
    TRIANGLE,
};
use std::alloc::Global;
use std::test::Fail;
use vw_check::check;
use vw_front::netlist_of_text;
use vw_plan::Checked;

/// The texts of a design, a board and a plan.
#[derive(Clone, Copy)]
pub struct Texts {
    pub design: &'static str,
    pub board: &'static str,
    pub plan: &'static str,
}

/// The toggle on the triangle: three nodes that are joined to each other.
pub const PLANNED_TOGGLE: Texts = Texts {
    design: TOGGLE,
    board: TRIANGLE,
    plan: TOGGLE_PLAN,
};

/// The latch that is turned round, at the end of a chain of two chips.
pub const PLANNED_FLIP: Texts = Texts {
    design: FLIP,
    board: CHAIN,
    plan: FLIP_PLAN,
};

/// The same, where a bit takes three microcycles from chip 2 to chip 1.
pub const PLANNED_FAR_FLIP: Texts = Texts {
    design: FLIP,
    board: FAR_CHAIN,
    plan: FAR_PLAN,
};

/// The `and` on one chip, where both inputs share a pin.
pub const PLANNED_AND: Texts = Texts {
    design: AND,
    board: ONE_CHIP,
    plan: AND_PLAN,
};

/// The planned design of these texts.
pub fn planned(alloc: Global, texts: &Texts) -> Result<Checked, Fail> {
    let design = netlist_of_text(alloc, texts.design.as_bytes(), &[])
        .ok()
        .ok_or("no design")?;
    let board = vw_board::read(alloc, texts.board.as_bytes())
        .ok()
        .ok_or("no board")?;
    let plan = vw_plantext::read(alloc, texts.plan.as_bytes())
        .ok()
        .ok_or("no plan")?;
    let checked = check(alloc, design, board, plan);
    Ok(checked.ok().ok_or("no sound plan")?)
}
