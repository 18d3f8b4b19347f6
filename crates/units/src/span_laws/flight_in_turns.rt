//! What is in flight where the cores stand at one cycle and the channels at another.

ghost use Rattle.std.specs.Prelude.{ℕ};
ghost use Rattle.sim_base.specs.declared.config.Config.{Config};
ghost use Rattle.laws.specs.Everywhere.{InEachCycle, InEachTurn};
ghost use Rattle.units.specs.SpanLaws.FlightInTurns.{FlightsMeet, HoldChannelInboxes, HoldCoreInboxes, ChannelsTakeTheirs, CoresTakeTheirs, LaterStays, ChannelsGoFurther, CoresGoFurther, ChannelsGoFurtherFor, CoresGoFurtherFor};

/// Where all units stand at one cycle, what is in flight is what is in flight in the run. In turns, what is in flight
/// brings each unit what arrives at it; as either kind goes on, what arrives at its units is gone, and what they send
/// is added.
pub fn flight_goes_in_turns()
    ensures meet { InEachCycle FlightsMeet }
    ensures channel_inboxes { InEachTurn HoldChannelInboxes }
    ensures core_inboxes { InEachTurn HoldCoreInboxes }
    ensures channels_take { InEachTurn ChannelsTakeTheirs }
    ensures cores_take { InEachTurn CoresTakeTheirs }
    ensures later { (s : Config) (from until : ℕ) → LaterStays s from until }
    ensures channels_go { InEachTurn ChannelsGoFurther }
    ensures cores_go { InEachTurn CoresGoFurther }
    ensures channels_go_for { InEachTurn ChannelsGoFurtherFor }
    ensures cores_go_for { InEachTurn CoresGoFurtherFor }
{}
