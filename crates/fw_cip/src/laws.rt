ghost use Rattle.std.specs.Prelude.{ℕ, List};
ghost use Rattle.fw_cip.specs.Streams.{Cycle, stream, IsHeardWhole};

/// What a talker sends, from any count on, a listener hears without gaps.
pub fn a_stream_is_heard_without_gaps()
    ensures { (channel blocks : ℕ) → (cycles : List Cycle) → IsHeardWhole (stream channel blocks cycles) }
{}
