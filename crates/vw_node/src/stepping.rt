//! The actions of a node.
ghost use Rattle.std.specs.Prelude.{◌≡◌, ◌<◌, ◌≤◌, ◌+◌, ◌-◌, length, map, slice_set, false, if◌then◌else◌};
ghost use Rattle.std.specs.List.{All, slice_range};
ghost use Rattle.vw_prog.specs.SeenGates.{seen_gates};
ghost use Rattle.vw_node.specs.Fits.{FitsJob, bit_at_slot, state_of};
ghost use Rattle.vw_node.specs.Moves.{MakesSome, Steps};
ghost use Rattle.vw_node.specs.Positions.{Agrees};
ghost use Rattle.vw_net.specs.Steps.WrittenBits.{with_bits};
ghost use Rattle.vw_node.specs.Slots.{NamesSlots, ReadsWithin, row_at, with_gates, with_row};

use crate::bits::{put_bits, put_inputs, take_bits};
use crate::gates::{run_gates, wide_bit};
use crate::node::Node;
use crate::step::Step;
use vw_prog::{Ends, Op, Word};

/// The end of what is made of a run of gates: all of it, or one gate.
fn end_of(first: usize, end: usize, whole: bool) -> usize
    requires { first < end }
    ensures { result ≡ (if whole then end else first + 1) }
{
    if whole { end } else { first + 1 }
}

impl<'a> Node<'a> {
    /// One action more is made, which turns a shift loop to a place.
    fn turn(&mut self, at: usize, place: usize)
        requires made { self.old.made < length self.old.code.now.ops.items }
        requires at { at < length self.old.places.items }
        ensures rest { self.new
            ≡ record self.old { made = self.old.made + 1; places = self.new.places } }
        ensures places { self.new.places.items ≡ slice_set self.old.places.items at place }
    {
        let _count = self.code.ops.len();
        self.places[at] = place;
        self.made += 1;
    }

    /// One action more is made, which puts a bit into a slot.
    fn write(&mut self, slot: u32, bit: bool)
        requires made { self.old.made < length self.old.code.now.ops.items }
        requires slot { slot < length self.old.slots.items }
        ensures rest { self.new
            ≡ record self.old { made = self.old.made + 1; slots = self.new.slots } }
        ensures slots { self.new.slots.items ≡ slice_set self.old.slots.items slot bit }
    {
        let _count = self.code.ops.len();
        self.slots[slot as usize] = bit;
        self.made += 1;
    }

    /// Works out some of the gates of at most six inputs, into slots from one on.
    fn run(&mut self, first: usize, end: usize, slot: u32)
        requires order { first ≤ end }
        requires end { end ≤ length (seen_gates self.old.code.now.gates) }
        requires within { All (ReadsWithin (length self.old.slots.items))
            (slice_range (seen_gates self.old.code.now.gates) first end) }
        requires room { slot + (end - first) ≤ length self.old.slots.items }
        requires made { self.old.made + (end - first) ≤ length self.old.code.now.ops.items }
        ensures rest { self.new
            ≡ record self.old { made = self.old.made + (end - first); slots = self.new.slots } }
        ensures slots { self.new.slots.items
            ≡ with_gates slot (slice_range (seen_gates self.old.code.now.gates) first end)
            self.old.slots.items }
    {
        let code = self.code;
        let _count = code.ops.len();
        run_gates(&code.gates, first, end, slot as usize, &mut self.slots);
        self.made += (end - first) as u64;
    }

    /// Records the bits of its nets, in the row of the present clock.
    fn record_row(&mut self)
        requires row { self.old.clock < length self.old.rows }
        requires wide { All (λ row. length row ≡ length self.old.code.now.records.items)
            self.old.rows }
        requires slots { NamesSlots (length self.old.slots.items) self.old.code.now }
        ensures rest { self.new ≡ record self.old { rows = self.new.rows } }
        ensures rows { self.new.rows ≡ slice_set self.old.rows self.old.clock
            (map (bit_at_slot self.old.slots.items) self.old.code.now.records.items) }
    {
        self.rows
            .pick(self.clock as usize, &self.slots, &self.code.records);
    }

    /// Gives the latches the bits of their inputs, all together, and the inputs their bits of the next row.
    fn move_sources(&mut self)
        requires clock { self.old.clock < self.old.share.clocks }
        requires next { length self.old.next.items ≡ length self.old.code.now.latches.items }
        requires slots { NamesSlots (length self.old.slots.items) self.old.code.now }
        ensures rest { self.new ≡ record self.old { slots = self.new.slots; next = self.new.next } }
        ensures next { length self.new.next.items ≡ length self.old.next.items }
        ensures slots { self.new.slots.items ≡ with_bits self.old.code.now.latches.items
            (map (bit_at_slot self.old.slots.items) self.old.code.now.inputs.items)
            (with_row (row_at self.old.share (self.old.clock + 1)) self.old.slots.items) }
    {
        let code = self.code;
        let _clocks = self.share.clocks;
        take_bits(&code.inputs, &self.slots, &mut self.next);
        put_inputs(&self.share, self.clock + 1, &mut self.slots);
        put_bits(&code.latches, &self.next, &mut self.slots);
    }

    /// Ends a clock.
    fn end_clock(&mut self)
        requires clock { self.old.clock < self.old.share.clocks }
        requires next { length self.old.next.items ≡ length self.old.code.now.latches.items }
        requires slots { NamesSlots (length self.old.slots.items) self.old.code.now }
        requires row { self.old.clock < length self.old.rows }
        requires wide { All (λ row. length row ≡ length self.old.code.now.records.items)
            self.old.rows }
        ensures rest { self.new ≡ record self.old {
          clock = self.old.clock + 1;
          made = 0;
          slots = self.new.slots;
          next = self.new.next;
          rows = self.new.rows;
        } }
        ensures next { length self.new.next.items ≡ length self.old.next.items }
        ensures slots { self.new.slots.items ≡ with_bits self.old.code.now.latches.items
            (map (bit_at_slot self.old.slots.items) self.old.code.now.inputs.items)
            (with_row (row_at self.old.share (self.old.clock + 1)) self.old.slots.items) }
        ensures rows { self.new.rows ≡ slice_set self.old.rows self.old.clock
            (map (bit_at_slot self.old.slots.items) self.old.code.now.records.items) }
    {
        self.record_row();
        self.move_sources();
        let _clocks = self.share.clocks;
        self.clock += 1;
        self.made = 0;
    }

    /// Makes the next action; where these are gates of a run, and it is to be `whole`, all that are left of the run.
    #[inline(always)]
    pub(crate) fn make_some<E: Ends>(&mut self, ends: &mut E, whole: bool) -> Step
        requires fits { FitsJob (E.seen ends.old).job self.old }
        requires agrees { Agrees (E.seen ends.old).job self.old.share.node (state_of self.old)
            (E.seen ends.old) }
        ensures fits { FitsJob (E.seen ends.new).job self.new }
        ensures agrees { Agrees (E.seen ends.new).job self.new.share.node (state_of self.new)
            (E.seen ends.new) }
        ensures same { self.new.share ≡ self.old.share }
        ensures makes { MakesSome (E.seen ends.old).job self.old.share.node (state_of self.old)
            (state_of self.new) (E.seen ends.old) (E.seen ends.new) whole result }
    {
        if self.clock == self.share.clocks {
            return Step::Done;
        }
        let code = self.code;
        match code.ops[self.made as usize] {
            Op::Run { first, end, slot } => {
                self.run(first, end_of(first, end, whole), slot);
                Step::Moved
            }
            Op::Wide(place) => {
                let gate = &code.wide[place];
                let bit = wide_bit(self.share.checked.ordered().flat(), gate, &self.slots);
                self.write(gate.target, bit);
                Step::Moved
            }
            Op::Send(at) => {
                let one = &code.loops[at];
                let link = one.link();
                let place = self.places[at];
                let item = one.at(place);
                let bit = self.slots[item.slot as usize];
                let word = Word::make(self.share.first + self.clock, item.net, one.pin(), bit);
                if !ends.put(link, word) {
                    return Step::Full(link);
                }
                self.turn(at, one.next(place));
                Step::Moved
            }
            Op::Take { link, slot, .. } => match ends.take(link) {
                Some(word) => {
                    self.write(slot, word.bit());
                    Step::Moved
                }
                None => Step::Empty(link),
            },
            Op::Step => {
                self.end_clock();
                Step::Moved
            }
        }
    }

    /// Makes the next action, where it isn't refused. A send puts the bit of a slot into its link, and a take puts the bit of a
    /// word into its slot. Where the action is refused, or all actions of all clocks are made, nothing changes. It takes no
    /// memory.
    pub fn step<E: Ends>(&mut self, ends: &mut E) -> Step
        // The node is one of the ends' job, has what it needs for it, and stands where they do; its slots have the values that they
        // have to have.
        requires fits { FitsJob (E.seen ends.old).job self.old }
        requires agrees { Agrees (E.seen ends.old).job self.old.share.node (state_of self.old)
            (E.seen ends.old) }

        // All this holds again.
        ensures fits { FitsJob (E.seen ends.new).job self.new }
        ensures agrees { Agrees (E.seen ends.new).job self.new.share.node (state_of self.new)
            (E.seen ends.new) }
        ensures same { self.new.share ≡ self.old.share }

        // What the answer means.
        ensures steps { Steps (E.seen ends.old).job self.old.share.node (state_of self.old)
            (state_of self.new) (E.seen ends.old) (E.seen ends.new) result }
    {
        self.make_some(ends, false)
    }
}
