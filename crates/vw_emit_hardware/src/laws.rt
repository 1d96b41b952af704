//! Laws of the definitions, as contracts of functions that do nothing.
ghost use Rattle.std.specs.Prelude.{◌≡◌, ◌≤◌, ◌<◌, ◌+◌, ◌==◌, ℕ, Bool, List, Some, length, slice_get, IsTrue};
ghost use Rattle.vw_net.specs.Cells.{start_values};
ghost use Rattle.vw_net.specs.History.{flat_history};
ghost use Rattle.vw_net.specs.Value.{net_value};
ghost use Rattle.vw_net.specs.declared.cover.Mark.{Mark};
ghost use Rattle.vw_plan.specs.Lead.{arrival, carries, lead};
ghost use Rattle.vw_plan.specs.PlannedBoard.{PlannedBoard};
ghost use Rattle.vw_plan.specs.Sound.{IsSound};
ghost use Rattle.vw_plan.specs.declared.link.Link.{Link};
ghost use Rattle.vw_plan.specs.declared.wire.Hop.{Hop};
ghost use Rattle.vw_plan.specs.declared.wire.Wire.{Wire};
ghost use Rattle.vw_emit_hardware.specs.Driven.{IsDriven, rank};
ghost use Rattle.vw_emit_hardware.specs.Locals.{Local, LocalItem, delayed, held, moment, locals_read, table};
ghost use Rattle.vw_emit_hardware.specs.Names.{name_at};
ghost use Rattle.vw_emit_hardware.specs.Run.{IsItem, IsRun, Values};
ghost use Rattle.vw_emit_hardware.specs.Shown.{IsClockOf, IsThere, at_each_clock, held_rows, microclock};
ghost use Rattle.vw_emit_hardware.specs.Shown.{shown_latches, shown_outputs};

/// Whoever runs an emitted board, holding each row of its design for as many microclocks as a clock has, sees at the last
/// one of each clock the outputs of the design, and its latch values before the step of that clock.
pub fn emitted_boards_show_their_designs()
    ensures outputs { (planned : PlannedBoard) (unknown : Bool) (rows : List (List Bool)) (value : Values)
        → IsSound planned → IsRun planned unknown (held_rows planned rows) value
        → at_each_clock planned (shown_outputs planned value) (length rows)
        ≡ (flat_history planned.ordered.flat (start_values unknown planned.ordered.flat.cells) rows).outputs }
    ensures latches { (planned : PlannedBoard) (unknown : Bool) (rows : List (List Bool)) (value : Values)
        → IsSound planned → IsRun planned unknown (held_rows planned rows) value
        → at_each_clock planned (shown_latches planned value) (length rows)
        ≡ (flat_history planned.ordered.flat (start_values unknown planned.ordered.flat.cells) rows).states }
{}

/// In each microclock of such a run, of a clock with its row and the latch values before its step: of the stages of a node's
/// sequencer the one of the microcycle alone is 1. A net has its value under its name at its own node, and at each node
/// where it is needed, from its lead there on.
pub fn microclocks_follow_leads()
    ensures stages { (planned : PlannedBoard) (unknown : Bool) (rows : List (List Bool)) (value : Values)
        → IsSound planned → IsRun planned unknown (held_rows planned rows) value
        → (clock : ℕ) (row state : List Bool) → IsClockOf planned unknown rows clock row state
        → (microcycle node other : ℕ) → microcycle ≤ planned.plan.period
        → node ≤ planned.board.chips → other ≤ planned.plan.period
        → value (microclock planned clock microcycle) node (moment other) ≡ (microcycle == other) }
    ensures nets { (planned : PlannedBoard) (unknown : Bool) (rows : List (List Bool)) (value : Values)
        → IsSound planned → IsRun planned unknown (held_rows planned rows) value
        → (clock : ℕ) (row state : List Bool) → IsClockOf planned unknown rows clock row state
        → (microcycle net node : ℕ) → microcycle ≤ planned.plan.period
        → net < planned.ordered.flat.inputs + length planned.ordered.flat.cells
        → IsThere planned net node → lead planned node net ≤ microcycle
        → value (microclock planned clock microcycle) node (name_at planned node net)
        ≡ net_value planned.ordered.flat row state net }
{}

/// And of each hop of a wire: the value of the wire's net is in the registers of the hop's pin while it is under way, and in
/// the register of the hop from the microcycle behind its arrival on, until the clock ends.
pub fn hops_carry_their_nets()
    ensures delays { (planned : PlannedBoard) (unknown : Bool) (rows : List (List Bool)) (value : Values)
        → IsSound planned → IsRun planned unknown (held_rows planned rows) value
        → (clock : ℕ) (row state : List Bool) → IsClockOf planned unknown rows clock row state
        → (wire place : ℕ) (is : Wire) (hop : Hop) → slice_get planned.plan.wires wire ≡ Some is
        → slice_get is.hops place ≡ Some hop → (at later : ℕ) (link : Link)
        → slice_get planned.board.links at ≡ Some link → IsTrue (carries hop link)
        → later + 1 < link.delay
        → value (microclock planned clock (hop.at + later + 1)) hop.from (delayed at hop.pin later)
        ≡ net_value planned.ordered.flat row state is.net }
    ensures registers { (planned : PlannedBoard) (unknown : Bool) (rows : List (List Bool)) (value : Values)
        → IsSound planned → IsRun planned unknown (held_rows planned rows) value
        → (clock : ℕ) (row state : List Bool) → IsClockOf planned unknown rows clock row state
        → (wire place : ℕ) (is : Wire) (hop : Hop) → slice_get planned.plan.wires wire ≡ Some is
        → slice_get is.hops place ≡ Some hop → (microcycle : ℕ) → microcycle ≤ planned.plan.period
        → arrival planned.board.links hop < microcycle
        → value (microclock planned clock microcycle) hop.to (held wire place)
        ≡ net_value planned.ordered.flat row state is.net }
{}

/// What an item of a sound plan's board reads is driven at its node: by an item of the node, a used pin or a column. And
/// what a table reads has a smaller rank than what it drives, so that no table rests on itself within a microclock.
pub fn items_read_what_is_driven()
    ensures driven { (planned : PlannedBoard) (node place : ℕ) (item : LocalItem) (read : Local)
        → IsSound planned → IsItem planned node item → slice_get (locals_read item) place ≡ Some read
        → IsDriven planned node read }
    ensures rises { (planned : PlannedBoard) (node place : ℕ) (ins : List Local) (out : Local)
        (on : Bool) (rows : List (List Mark)) (read : Local) → IsSound planned
        → IsItem planned node (table ins out on rows) → slice_get ins place ≡ Some read
        → rank planned read < rank planned out }
{}
