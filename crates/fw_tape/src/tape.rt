ghost use Rattle.std.specs.Prelude.{◌≡◌, ◌<◌, Some, None, is_some, IfSome, if◌then◌else◌};
ghost use Rattle.std.specs.Option.{option_map};
ghost use Rattle.fw_tape.specs.Desks.{AnyBlock};
ghost use Rattle.fw_tape.specs.Motion.{inserted, entered, passed_on, transport_of, is_fifty, MayPass, IsInRange};
ghost use Rattle.fw_tape.specs.Transports.{codes_of};
ghost use Rattle.fw_tape.specs.Blocks.{Gives, next_block, block_now, blocks_among};
ghost use Rattle.fw_tape.specs.declared.system.TapeSystem.TheVariants.{Lines525, Lines625};

use crate::{BlockPlace, Cassette, Desk, TapeSystem, Transport};
use std::marker::Model;

/// A tape subunit: the tape that is in, if there is one, with the state of the transport. Without a tape the transport is
/// stopped.
#[derive(Drop)]
pub struct Tape {
    pub(crate) cassette: Option<Cassette>,
}

impl Model for Tape {
    ghost use Rattle.std.specs.Prelude.{Option};
    ghost use Rattle.std.specs.Option.{ForSome};
    ghost use Rattle.fw_tape.specs.declared.cassette.Cassette.{Cassette};
    ghost use Rattle.fw_tape.specs.Motion.{IsInRange};

    ghost Value = { Option Cassette };

    ghost view = { λ t. t.cassette };

    ghost invariant = { λ t. ForSome t.cassette IsInRange };
}

impl Tape {
    /// No tape is in.
    pub fn new() -> Tape
        ensures { result ≡ None }
    {
        Tape { cassette: None }
    }

    /// A tape with this number, recorded in this system, goes in, stopped at frame 0. It replaces one that is there.
    pub fn put(&mut self, tape: u16, system: TapeSystem)
        ensures { self.new ≡ Some (inserted tape system) }
    {
        self.cassette = Some(Cassette::new(tape, system));
    }

    /// As `put`, with a tape of the 625-50 system if `fifty` is true, else of 525-60.
    pub fn insert(&mut self, tape: u16, fifty: bool)
        ensures { self.new ≡ Some (inserted tape (if fifty then Lines625 else Lines525)) }
    {
        self.put(
            tape,
            if fifty {
                TapeSystem::Lines625
            } else {
                TapeSystem::Lines525
            },
        );
    }

    /// Takes the tape out. Answers whether one was in.
    pub fn eject(&mut self) -> bool
        ensures was_in { result ≡ is_some self.old }
        ensures out { self.new ≡ None }
    {
        self.cassette.take().is_some()
    }

    /// The opcode and operand of the transport's state.
    pub fn state(&self) -> (u8, u8)
        ensures { result ≡ codes_of (transport_of self.now) }
    {
        self.transport().codes()
    }

    /// What the transport does.
    pub fn transport(&self) -> Transport
        ensures { result ≡ transport_of self.now }
    {
        match &self.cassette {
            Some(cassette) => cassette.transport,
            None => Transport::Stop,
        }
    }

    /// A tape of the 625-50 system is in.
    pub fn fifty(&self) -> bool
        ensures { result ≡ is_fifty self.now }
    {
        match &self.cassette {
            Some(cassette) => matches!(cassette.system, TapeSystem::Lines625),
            None => false,
        }
    }

    /// The tape that is in.
    pub fn cassette(&self) -> Option<Cassette>
        ensures tape { result ≡ self.now }
        ensures range { IfSome result IsInRange }
    {
        self.cassette
    }

    /// The transport enters a state, if a tape is in. Answers whether one is.
    pub fn enter(&mut self, transport: Transport) -> bool
        ensures was_in { result ≡ is_some self.old }
        ensures entered { self.new ≡ option_map (entered transport) self.old }
    {
        let Some(cassette) = &mut self.cassette else {
            return false;
        };
        cassette.enter(transport);
        true
    }

    /// Passes one cycle, and gives the block that is due in it: None exactly if none is.
    pub fn cycle<F: Fn(u16, u32, u16) -> [u8; 480], H: Fn(u32, u8) -> u8>(
        &mut self,
        desk: &Desk<F, H>,
    ) -> Option<[u8; 480]>
        requires desk { AnyBlock (F.pre desk.now.blocks) }
        requires passed { MayPass 1 self.old }
        ensures block { Gives (F.post desk.now.blocks) (next_block self.old) result }
        ensures passed { self.new ≡ option_map (passed_on 1) self.old }
    {
        let place = self.next_block();
        if let Some(cassette) = &mut self.cassette {
            cassette.pass(1);
        }
        let BlockPlace { tape, frame, block } = place?;
        Some(desk.block(tape, frame, block))
    }

    /// How many blocks of forward play are due in the next cycles.
    pub fn blocks_among(&self, cycles: u64) -> u64
        requires { MayPass cycles self.now }
        ensures { result ≡ blocks_among self.now cycles }
    {
        let Some(cassette) = &self.cassette else {
            return 0;
        };
        match cassette.transport {
            Transport::Play => cassette.blocks_among(cycles),
            _ => 0,
        }
    }

    /// Passes cycles, and answers how many blocks were due in them.
    pub fn pass(&mut self, cycles: u64) -> u64
        requires { MayPass cycles self.old }
        ensures blocks { result ≡ blocks_among self.old cycles }
        ensures passed { self.new ≡ option_map (passed_on cycles) self.old }
    {
        let Some(cassette) = &mut self.cassette else {
            return 0;
        };
        let blocks = match cassette.transport {
            Transport::Play => cassette.blocks_among(cycles),
            _ => 0,
        };
        cassette.pass(cycles);
        blocks
    }

    /// The block that is due in the next cycle, if one is.
    fn next_block(&self) -> Option<BlockPlace>
        requires { MayPass 1 self.now }
        ensures value { result ≡ next_block self.now }
        ensures range { IfSome result (λ place. (place.frame < 2592000) × (place.block < 300)) }
    {
        match &self.cassette {
            Some(cassette) if matches!(cassette.transport, Transport::Play) =>
                cassette.next_block(),
            _ => None,
        }
    }

    /// Which block was due in the cycle that passed last: None exactly if none was. It is the one that `cycle` would have
    /// given as it passed that cycle; its bytes are the desk's (`Desk::block`).
    pub fn block_now(&self) -> Option<BlockPlace>
        ensures value { result ≡ block_now self.now }
        ensures range { IfSome result (λ place. (place.frame < 2592000) × (place.block < 300)) }
    {
        let Some(cassette) = &self.cassette else {
            return None;
        };
        match cassette.transport {
            Transport::Play => cassette.block_now(),
            _ => None,
        }
    }
}
