ghost use Rattle.std.specs.Prelude.{◌≡◌, ◌<◌, [], length, OnOk, IfErr};
ghost use Rattle.std.specs.Io.{ReadsAtMost};
ghost use Rattle.fw_outside.specs.Outside.{Reads};
ghost use Rattle.fw_outside.specs.Stops.{ReadCount, WriteCount, stop_in};
ghost use Rattle.fw_outside.specs.declared.stop.Stop.TheVariants.{ReadFault};

use crate::{Flush, Source, Stop};

/// Takes the next bytes. It may wait, so that nothing may be kept back then.
fn wait<S: Source, K: Flush>(source: &mut S, _sink: &K, into: &mut [u8]) -> Result<usize, Stop>
    requires room { 0 < length into.old }
    requires passed { K.kept _sink.now ≡ [] }
    ensures fits { ReadsAtMost result into.new }
    ensures bytes { Reads (S.left source.old) (S.left source.new) result into.new }
    ensures count { ReadCount (S.faults source.old) (S.faults source.new) (stop_in result) }
    ensures fault { IfErr result (λ stop. stop ≡ ReadFault) }
{
    match source.read(into) {
        Ok(count) => Ok(count),
        Err(_) => Err(Stop::ReadFault),
    }
}

/// Passes on all that the sink keeps back, and takes the next bytes of the source: who waits for an answer has it before this call waits
/// for more. It answers how many bytes were taken; none are taken only at the end of the input.
///
/// It stops with `WriteFault`, and reads nothing, if what was kept back is not passed on, and with `ReadFault` if the read fails.
pub fn ask<S: Source, K: Flush>(
    source: &mut S,
    sink: &mut K,
    into: &mut [u8],
) -> Result<usize, Stop>
    requires { 0 < length into.old }
    ensures fits { ReadsAtMost result into.new }
    ensures bytes { Reads (S.left source.old) (S.left source.new) result into.new }
    ensures held { K.held sink.new ≡ K.held sink.old }
    ensures passed { OnOk result (K.kept sink.new ≡ []) }
    ensures read_count { ReadCount (S.faults source.old) (S.faults source.new) (stop_in result) }
    ensures write_count { WriteCount (K.faults sink.old) (K.faults sink.new) (stop_in result) }
{
    if sink.pass_all().is_err() {
        return Err(Stop::WriteFault);
    }
    wait(source, sink, into)
}
