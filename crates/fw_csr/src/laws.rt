ghost use Rattle.std.specs.Prelude.{◌≡◌};
ghost use Rattle.fw_csr.specs.declared.low_offset.TheConstants as Low;
ghost use Rattle.fw_csr.specs.declared.offset.TheConstants as Offsets;

/// A law, and no code: the destination_offset of each register that a definition names, in figures (IEEE 1394-1995, 8.3;
/// IEC 61883-1, 7 and 9).
pub fn registers_stand_at_their_offsets()
    ensures space { Offsets.REGISTER_SPACE ≡ 0xFFFF_F000_0000 }
    ensures node_ids { Offsets.NODE_IDS ≡ 0xFFFF_F000_0008 }
    ensures split_timeout_hi { Offsets.SPLIT_TIMEOUT_HI ≡ 0xFFFF_F000_0018 }
    ensures split_timeout_lo { Offsets.SPLIT_TIMEOUT_LO ≡ 0xFFFF_F000_001C }
    ensures cycle_time { Offsets.CYCLE_TIME ≡ 0xFFFF_F000_0200 }
    ensures bus_manager_id { Offsets.BUS_MANAGER_ID ≡ 0xFFFF_F000_021C }
    ensures bandwidth_available { Offsets.BANDWIDTH_AVAILABLE ≡ 0xFFFF_F000_0220 }
    ensures channels_available_hi { Offsets.CHANNELS_AVAILABLE_HI ≡ 0xFFFF_F000_0224 }
    ensures channels_available_lo { Offsets.CHANNELS_AVAILABLE_LO ≡ 0xFFFF_F000_0228 }
    ensures bus_name { Offsets.BUS_NAME ≡ 0xFFFF_F000_0404 }
    ensures bus_options { Offsets.BUS_OPTIONS ≡ 0xFFFF_F000_0408 }
    ensures eui_64_hi { Offsets.EUI_64_HI ≡ 0xFFFF_F000_040C }
    ensures eui_64_lo { Offsets.EUI_64_LO ≡ 0xFFFF_F000_0410 }
    ensures ompr { Offsets.OMPR ≡ 0xFFFF_F000_0900 }
    ensures opcr { Offsets.OPCR ≡ 0xFFFF_F000_0904 }
    ensures impr { Offsets.IMPR ≡ 0xFFFF_F000_0980 }
    ensures ipcr { Offsets.IPCR ≡ 0xFFFF_F000_0984 }
    ensures last_plug_register { Offsets.LAST_PLUG_REGISTER ≡ 0xFFFF_F000_09FC }
    ensures fcp_command { Offsets.FCP_COMMAND ≡ 0xFFFF_F000_0B00 }
    ensures fcp_response { Offsets.FCP_RESPONSE ≡ 0xFFFF_F000_0D00 }
{}

/// A law, and no code: the low 12 bits of those that scripts, logs and the account of a log name, in figures.
pub fn registers_stand_at_their_low_offsets()
    ensures bus_manager_id { Low.BUS_MANAGER_ID ≡ 0x21C }
    ensures bandwidth_available { Low.BANDWIDTH_AVAILABLE ≡ 0x220 }
    ensures channels_available_hi { Low.CHANNELS_AVAILABLE_HI ≡ 0x224 }
    ensures channels_available_lo { Low.CHANNELS_AVAILABLE_LO ≡ 0x228 }
    ensures opcr { Low.OPCR ≡ 0x904 }
    ensures last_opcr { Low.LAST_OPCR ≡ 0x97C }
    ensures ipcr { Low.IPCR ≡ 0x984 }
    ensures last_ipcr { Low.LAST_IPCR ≡ 0x9FC }
{}
