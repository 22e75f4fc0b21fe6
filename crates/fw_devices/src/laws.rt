ghost use Rattle.fw_devices.specs.Laws.{ResetEntriesShowTheBus, ResetEntriesFitTheLog, LoneDeckIsRootAndManager};
ghost use Rattle.fw_devices.specs.Laws.{BusDevicesAreDeclared, CablesTakeNoDeviceOff, CablesReachTheirSecondEnd, CablesApartLeaveTheBus};

/// The entry of a bus reset is in the grammar of the log, and shows exactly the devices of the bus with their numbers, kinds
/// and speeds. That of a bus of one deck has that deck as its one node, root and resource manager.
pub fn reset_entries_show_the_bus()
    ensures shows { ResetEntriesShowTheBus }
    ensures fits { ResetEntriesFitTheLog }
    ensures lone { LoneDeckIsRootAndManager }
{}

/// The devices of the bus are declared. A cable takes no device off the bus, and takes what is at its second end onto it if
/// the first end is on it; one between two devices that are off leaves the bus as it was.
pub fn cables_extend_the_bus()
    ensures declared { BusDevicesAreDeclared }
    ensures grows { CablesTakeNoDeviceOff }
    ensures reaches { CablesReachTheirSecondEnd }
    ensures stays { CablesApartLeaveTheBus }
{}
