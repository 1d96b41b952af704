//! The lines of a chain.
ghost use Rattle.std.specs.Prelude.{◌≡◌, ◌≤◌, ◌^◌, ◌++◌, ◌∷◌, [], OnOk, Some};
ghost use Rattle.std.specs.List.{All, flat_map};
ghost use Rattle.vw_text.specs.Physical.{lines_text};
ghost use Rattle.vw_chain.specs.Chains.{IsCritical};
ghost use Rattle.vw_chain.specs.Timing.{planned_of};
ghost use Rattle.vw_report.specs.Report.{chain_lines, critical_lines, end_lines, home_line, hop_line, hop_lines, step_lines};
ghost use Rattle.vw_report.specs.Steps.Chains.{IsEndOf, IsNetOf, IsStepOf};

use crate::counts::link_of;
use crate::reported::Reported;
use crate::words::{name_of, push_line, push_net_line};
use std::alloc::AllocError;
use vw_chain::{Chain, Critical, End, Step};
use vw_plan::Hop;

impl<'a> Reported<'a> {
    /// Appends the line of a net at its own node.
    fn push_home(&self, kind: &[u8], net: u32, text: &mut Vec<u8>) -> Result<(), AllocError>
        requires { IsNetOf (planned_of self.now.timed.now) net }
        ensures { OnOk result (text.new.items ≡ text.old.items
            ++ (home_line (planned_of self.now.timed.now) self.now.names.now kind.now net ++ 10 ∷ [])) }
    {
        let node = self.timed.home(net);
        let numbers = [u64::from(node), self.timed.usable(node, net)];
        push_net_line(text, kind, name_of(self.names, net), &numbers)
    }

    /// Appends the line of a hop of a net, which is ready from a microcycle on.
    fn push_hop(
        &self,
        name: &[u8],
        ready: u64,
        hop: &Hop,
        text: &mut Vec<u8>,
    ) -> Result<(), AllocError>
        requires { hop.now.at ≤ 2 ^ 62 }
        ensures { OnOk result (text.new.items ≡ text.old.items
            ++ (hop_line (planned_of self.now.timed.now) name.now ready hop.now ++ 10 ∷ [])) }
    {
        let links = self.timed.wired.links;
        let numbers = [
            u64::from(link_of(links, hop)),
            u64::from(hop.from()),
            u64::from(hop.to()),
            u64::from(hop.pin()),
            hop.at(),
            hop.at().saturating_sub(ready),
            self.pin_wait(ready, hop),
            links.arrival(hop) + 1,
        ];
        push_net_line(text, b"hop", name, &numbers)
    }

    /// Appends the lines of the hops of a wire of a net, of which the first is ready from a microcycle on.
    fn push_hops(
        &self,
        name: &[u8],
        ready: u64,
        hops: &[Hop],
        text: &mut Vec<u8>,
    ) -> Result<(), AllocError>
        requires { All (λ hop. hop.at ≤ 2 ^ 62) hops.now }
        ensures { OnOk result (text.new.items ≡ text.old.items
            ++ lines_text (hop_lines (planned_of self.now.timed.now) name.now ready hops.now)) }
    {
        let mut ready = ready;
        for hop in hops {
            self.push_hop(name, ready, hop, text)?;
            ready = self.timed.wired.links.arrival(hop) + 1;
        }
        Ok(())
    }

    /// Appends the lines of a step.
    fn push_step(&self, step: Step, text: &mut Vec<u8>) -> Result<(), AllocError>
        requires { IsStepOf (planned_of self.now.timed.now) step }
        ensures { OnOk result (text.new.items ≡ text.old.items
            ++ lines_text (step_lines (planned_of self.now.timed.now) self.now.names.now step)) }
    {
        match step {
            Step::Gate { net } => self.push_home(b"gate", net, text),
            Step::Wire { number } => {
                let wire = &self.timed.wired.plan.wires()[number];
                let net = wire.net();
                let ready = self.timed.usable(self.timed.home(net), net);
                self.push_hops(name_of(self.names, net), ready, wire.hops(), text)
            }
        }
    }

    /// Appends the lines of steps.
    fn push_steps(&self, steps: &[Step], text: &mut Vec<u8>) -> Result<(), AllocError>
        requires { All (IsStepOf (planned_of self.now.timed.now)) steps.now }
        ensures { OnOk result (text.new.items ≡ text.old.items
            ++ lines_text (flat_map (step_lines (planned_of self.now.timed.now) self.now.names.now) steps.now)) }
    {
        for step in steps {
            self.push_step(*step, text)?;
        }
        Ok(())
    }

    /// Appends the line of the latch that waits up to a microcycle, where one does.
    fn push_end(&self, last: u64, end: End, text: &mut Vec<u8>) -> Result<(), AllocError>
        requires { IsEndOf (planned_of self.now.timed.now) end }
        ensures { OnOk result (text.new.items ≡ text.old.items
            ++ lines_text (end_lines (planned_of self.now.timed.now) self.now.names.now last end)) }
    {
        match end {
            End::Wire { .. } => Ok(()),
            End::Latch { number, .. } => {
                let net = self.timed.wired.ordered.flat().inputs() + number as u32;
                let chip = self.timed.wired.plan.chip_of()[number];
                let numbers = [u64::from(chip), last];
                push_net_line(text, b"latch", name_of(self.names, net), &numbers)
            }
        }
    }

    /// Appends the lines of a chain.
    fn push_chain(&self, last: u64, chain: &Chain, text: &mut Vec<u8>) -> Result<(), AllocError>
        requires first { IsNetOf (planned_of self.now.timed.now) chain.now.first }
        requires steps { All (IsStepOf (planned_of self.now.timed.now)) chain.now.steps }
        requires end { IsEndOf (planned_of self.now.timed.now) chain.now.end }
        ensures { OnOk result (text.new.items ≡ text.old.items
            ++ lines_text (chain_lines (planned_of self.now.timed.now) self.now.names.now last (Some chain.now))) }
    {
        self.push_home(b"net", chain.first, text)?;
        self.push_steps(chain.steps.as_slice(), text)?;
        self.push_end(last, chain.end, text)
    }

    /// Appends the lines of what sets the period.
    pub fn push_critical(&self, critical: &Critical, text: &mut Vec<u8>) -> Result<(), AllocError>
        requires { IsCritical (planned_of self.now.timed.now) critical.now }
        ensures { OnOk result (text.new.items ≡ text.old.items
            ++ lines_text (critical_lines (planned_of self.now.timed.now) self.now.names.now critical.now)) }
    {
        push_line(text, b"chain", &[critical.last])?;
        match &critical.chain {
            None => Ok(()),
            Some(chain) => self.push_chain(critical.last, chain, text),
        }
    }
}
