//! A machine whose cores and channels go on in turns.

ghost use Rattle.laws.specs.Everywhere.{InEachCycle, InEachTurn};
ghost use Rattle.units.specs.SpanLaws.Turns.{ChannelsAreReady, CoresAreReady, ChannelsTurn, CoresTurn, TurnsBegin, TurnsJump, ChannelGoes, CoreGoes, ChannelStays, CoreStays, ChannelsIdle, CoresIdle};

/// In a turn, what is in flight brings each unit of the kind whose turn it is what arrives at it, from where it
/// stands. After the turn the machine is in turns again, where units that sleep are not touched.
pub fn machines_go_in_turns()
    ensures channels_ready { InEachTurn ChannelsAreReady }
    ensures cores_ready { InEachTurn CoresAreReady }
    ensures channels_turn { InEachTurn ChannelsTurn }
    ensures cores_turn { InEachTurn CoresTurn }
{}

/// A machine all of whose units stand at one cycle is in turns there. A turn in which no unit wakes changes nothing.
/// Up to the least of all wake words it may be left alone.
pub fn turns_begin_and_jump()
    ensures begin { InEachCycle TurnsBegin }
    ensures channels_idle { InEachTurn ChannelsIdle }
    ensures cores_idle { InEachTurn CoresIdle }
    ensures jump { InEachTurn TurnsJump }
{}

/// A unit of a machine that is held in parts goes on as the machine does in a turn: in a turn of its kind it comes to
/// the end of the turn, and in a turn of the other kind it stays.
pub fn units_go_in_turns()
    ensures channel_goes { InEachTurn ChannelGoes }
    ensures core_goes { InEachTurn CoreGoes }
    ensures channel_stays { InEachTurn ChannelStays }
    ensures core_stays { InEachTurn CoreStays }
{}
