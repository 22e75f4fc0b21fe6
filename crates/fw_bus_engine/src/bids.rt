//! Half steps of candidates for the bus manager (IEEE 1394-1995, 8.4.2.5).

ghost use Rattle.std.specs.Prelude.{◌≡◌, ◌≤◌, ◌<◌, ◌+◌, ℕ, [], ◌∷◌, is_some, IsTrue};
ghost use Rattle.fw_devices.specs.Network.{kind_at, kinds_of};
ghost use Rattle.fw_order.specs.declared.limits.TheConstants.{MOST_HALF_STEPS};
ghost use Rattle.fw_order.specs.declared.order.Order.TheVariants.{Candidate};
ghost use Rattle.fw_model_run.specs.Actions.{Contend};
ghost use Rattle.fw_model_run.specs.Carrying.{times, Carries};
ghost use Rattle.fw_terms.specs.Devices.{is_capable};
ghost use Rattle.fw_bus_state.specs.Candidates.{candidate_in};
ghost use Rattle.fw_bus_engine.specs.Contending.{BidRests, BidStands};
ghost use Rattle.fw_bus_engine.specs.Performing.{Performs, Performed};
ghost use Rattle.fw_bus_engine.specs.Requesting.{TurnsCandidate};
ghost use Rattle.fw_bus_state.specs.Giving.{sides_of};
ghost use Rattle.fw_bus_state.specs.Stands.{IsReady, is_living_in};

use crate::exchange::{send, serve};
use crate::requester::{Requester, turn};
use fw_async::PacketRoom;
use fw_bus_state::entries::{defeated, elected};
use fw_bus_state::{Candidates, Machine, WriteBuffers, emit, emit_packet};
use fw_manager::Bid;
use fw_outside::{Failed, Sink};
use fw_terms::Label;

/// A computer becomes a candidate. One that is stays as it is, and nothing is written.
pub(crate) fn become_candidate<K: Sink>(
    machine: &mut Machine,
    device: u8,
    sink: &mut K,
) -> Result<(), Failed>
    requires ready { IsReady machine.old }
    requires living { IsTrue (is_living_in machine.old device) }
    requires capable { IsTrue (is_capable (kind_at (kinds_of machine.old.devices.nodes) device)) }
    ensures does { Performed (λ s. Carries s (Candidate device)) machine.old machine.new (sides_of K.held K.faults sink.old sink.new) result }
{
    let _ = sink;
    if machine.candidates.is_candidate(device) {
        return Ok(());
    }
    machine.candidates.enter(device);
    Ok(())
}

impl Requester for Candidates {
    ghost May = { λ m d. IsTrue (is_some (candidate_in m.candidates d)) × (m.half_steps < MOST_HALF_STEPS) };

    ghost Awaits = { λ m d. (manager : ℕ) × BidStands m d manager };

    ghost Rests = { λ m d. (manager : ℕ) × BidRests m d manager };

    ghost Turns = { TurnsCandidate };

    fn has_request(machine: &Machine, device: u8) -> bool {
        machine
            .candidates
            .has_request(device, machine.devices.epoch())
    }

    fn hear(machine: &mut Machine, device: u8, packet: &mut PacketRoom) {
        let own = machine.number(device);
        let (_manager, reply) = serve(
            &mut machine.devices,
            machine.cycle,
            own,
            &mut machine.bids,
            packet,
        );
        machine.candidates.hear(device, &reply);
    }

    fn ask<K: Sink>(
        machine: &mut Machine,
        device: u8,
        room: &mut WriteBuffers,
        sink: &mut K,
    ) -> Result<(), Failed> {
        let Some(manager) = machine.devices.manager() else {
            unreachable!();
        };
        let own = machine.number(device);
        let to = machine.number(manager);
        match machine
            .candidates
            .next(device, machine.devices.epoch(), own, to)
        {
            Bid::Send { to, request } => {
                send(
                    own,
                    to,
                    Label::BusManager,
                    &request,
                    &mut machine.bids,
                    &mut room.packet,
                );
                emit_packet(machine, &mut room.packet, sink)
            }
            Bid::Elected => emit(machine, elected(device), room, sink),
            Bid::Defeated { .. } => emit(machine, defeated(device), room, sink),
            Bid::Done => Ok(()),
        }
    }
}

/// One half step of a device's candidate.
fn bid_step<K: Sink>(
    machine: &mut Machine,
    device: u8,
    room: &mut WriteBuffers,
    sink: &mut K,
) -> Result<(), Failed>
    requires ready { IsReady machine.old }
    requires candidate { IsTrue (is_some (candidate_in machine.old.candidates device)) }
    requires few { machine.old.half_steps < MOST_HALF_STEPS }
    ensures does { Performed (Performs (Contend device ∷ [])) machine.old machine.new (sides_of K.held K.faults sink.old sink.new) result }
    ensures candidate { IsTrue (is_some (candidate_in machine.new.candidates device)) }
    ensures count { machine.new.half_steps ≡ machine.old.half_steps + 1 }
{
    let done = turn::<Candidates, K>(machine, device, room, sink);
    machine.half_steps += 1;
    done
}

/// Half steps of a device's candidate.
pub(crate) fn contend<K: Sink>(
    machine: &mut Machine,
    device: u8,
    count: u32,
    room: &mut WriteBuffers,
    sink: &mut K,
) -> Result<(), Failed>
    requires ready { IsReady machine.old }
    requires candidate { IsTrue (is_some (candidate_in machine.old.candidates device)) }
    requires few { machine.old.half_steps + count ≤ MOST_HALF_STEPS }
    ensures does { Performed (Performs (times count (Contend device))) machine.old machine.new (sides_of K.held K.faults sink.old sink.new) result }
{
    for i in 0..count {
        bid_step(machine, device, room, sink)?;
    }
    Ok(())
}
