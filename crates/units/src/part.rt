//! A unit of a machine, with what is kept of it.

ghost use Rattle.std.specs.Prelude.{[], OnOk};
ghost use Rattle.sim_base.specs.declared.message.Unit.{Unit as MachineUnit};
ghost use Rattle.units.specs.Parts.{IsReady, IsReadyFor, HasRunOnto};
ghost use Rattle.units.specs.declared.machine.Machine.{Machine};

use channel_step::channel::Channel;
use command_table::list::CommandList;
use core_window::core_unit::Core;
use core_window::receive::Arriving;
use sim_base::message::{Cycle, Message};
use std::alloc::AllocError;

/// A core, or a channel with the commands that it issued, in their order, where they are kept. It takes little room by
/// itself, so that it is moved at little cost where a machine is taken apart and put together.
#[derive(Drop)]
pub enum UnitState {
    Core(Box<Core>),
    Channel(Box<Channel>, Option<CommandList>),
}

impl UnitState {
    /// Runs the unit over a span, in which nothing arrives at it, and puts what it sends behind what a list holds.
    pub fn run_alone(
        &mut self,
        from: Cycle,
        until: Cycle,
        sent: &mut Vec<Message>,
    ) -> Result<(), AllocError>
        requires ready { IsReady self.old [] from until }
        ensures { (machine : Machine) (unit : MachineUnit)
            → IsReadyFor machine unit self.old [] from until
            → OnOk result (HasRunOnto machine unit from until self.new
            sent.old.items sent.new.items) }
    {
        match self {
            UnitState::Core(core) => {
                let nothing = Arriving {
                    replies: &[],
                    credits: &[],
                };
                core.run(nothing, from, until, sent)
            }
            UnitState::Channel(channel, issued) => channel.run(&[], from..until, issued, sent),
        }
    }
}
