ghost use Rattle.fw_model_reclaim.specs.Rooms.{HasRoomForAll, AreOnOneChannel};
ghost use Rattle.fw_model_reclaim.specs.Worlds.{World, CanReclaim};
ghost use Rattle.fw_model_reclaim.specs.Laws.{RestoringsStayOnCourse};
ghost use Rattle.fw_model_reclaim.specs.Laws.{ReclaimingBegins, ReclaimingGoesOn};
ghost use Rattle.fw_model_reclaim.specs.Laws.{RestoringsSucceed};
ghost use Rattle.fw_model_reclaim.specs.Laws.{ConnectionsComeBack};
ghost use Rattle.fw_model_reclaim.specs.Laws.{WholeConnectionsAreThere};
ghost use Rattle.fw_model_reclaim.specs.Laws.{WithheldIsAvoidedAtFirst, WithheldIsAvoided, WithheldStaysWithheld};

/// Whatever a register answers to a restoring in its slot's own second, the restoring goes on towards its connection: it
/// is not refused for units or for a full or a busy plug, does not come too late and gives nothing back.
pub fn restorings_stay_on_course()
    ensures { RestoringsStayOnCourse }
{}

/// All that reclaiming rests on holds before the first device, and each change leaves it: a turn of a controller, an answer, a
/// new connection or a break that is asked for, a bus reset, the end of the reclaim second, a controller's death.
pub fn reclaiming_goes_on()
    ensures first { ReclaimingBegins }
    ensures changes { ReclaimingGoesOn }
{}

/// The connections of each kind that a plug has and those that are still to come back there in their slots' own second fit
/// its register together; and all that are to come back at one input plug are on its channel.
pub fn plugs_have_room()
    ensures room { (w : World) → CanReclaim w → HasRoomForAll w }
    ensures channel { (w : World) → CanReclaim w → AreOnOneChannel w }
{}

/// In a reclaim second no restoring of a slot whose own second runs ends in any other way than with its connection.
pub fn restorings_succeed()
    ensures { RestoringsSucceed }
{}

/// The connections that were whole just before the bus reset that opened a reclaim second are whole at its end, in their
/// slots and on the same channels and units: those whose controller lived on and has finished restoring, had heard that
/// they were made, and of which no break waited or was current, and none was accepted since.
pub fn connections_come_back()
    ensures { ConnectionsComeBack }
{}

/// A whole connection of which no break is current is there in the account: its controller has a connection of its kind at
/// each of its plugs, and they are set to its channel, its overhead_ID and its units.
pub fn whole_connections_are_there()
    ensures { WholeConnectionsAreThere }
{}

/// No controller has a connection on a channel that the bus withholds, or a job that makes one there, and no input plug is
/// connected on it: that is so before the first device, and each change leaves it so, if nobody asks to listen on such a
/// channel. (A first broadcast-in connection is on channel 63.) What a bus withholds it withholds from then on.
pub fn withheld_channels_are_avoided()
    ensures first { WithheldIsAvoidedAtFirst }
    ensures changes { WithheldIsAvoided }
    ensures stays { WithheldStaysWithheld }
{}
