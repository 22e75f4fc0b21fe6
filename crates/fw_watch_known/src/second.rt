//! The second after a bus reset, in which what was held before may be taken anew.

ghost use Rattle.std.specs.Prelude.{◌≡◌, ◌-◌};
ghost use Rattle.fw_watch_known.specs.States.{no_second, ticked_second, is_over, begun, ended_second, begin_before, counted_second};

use fw_watch_remarks::Managed;

/// What was known of the resource manager's registers before the second began.
#[derive(Clone, Copy)]
pub enum Before {
    /// No second runs of which anything is told.
    Nothing,
    /// The log ended the second before its time: whether a bus reset that comes now falls into it nobody can say.
    Dark,
    /// What was known when the second began.
    Words(Managed),
}

/// The second after a bus reset.
#[derive(Clone, Copy)]
pub struct Second {
    /// The cycle of the bus reset, until its second has passed.
    pub since: Option<u64>,
    /// What was known before.
    pub before: Before,
    /// How many units were taken since the bus reset, and how many were given back.
    pub taken: u64,
    pub given: u64,
}

impl Second {
    /// No bus reset came.
    pub fn none() -> Second
        ensures { result ≡ no_second }
    {
        Second {
            since: None,
            before: Before::Nothing,
            taken: 0,
            given: 0,
        }
    }

    // Its time has passed.
    fn is_over(&self, cycle: u64) -> bool
        ensures { result ≡ is_over self.now.since cycle }
    {
        match self.since {
            Some(since) => cycle >= since && cycle - since >= 8000,
            None => false,
        }
    }

    /// The time is this cycle.
    #[tactic(auto, unfolding(crate::specs::States::ticked_second))]
    pub fn tick(&mut self, cycle: u64)
        ensures { self.new ≡ ticked_second cycle self.old }
    {
        if self.is_over(cycle) {
            self.since = None;
            self.before = Before::Nothing;
        }
    }

    // What was known before the second that begins.
    fn before_next(&self, first: bool, managed: Managed) -> Before
        ensures { result ≡ begin_before first managed self.now.before }
    {
        match self.before {
            Before::Nothing if first => Before::Nothing,
            Before::Nothing => Before::Words(managed),
            before => before,
        }
    }

    /// A bus reset, which may be the first, when this was known.
    #[tactic(auto, unfolding(crate::specs::States::begun))]
    pub fn begin(&mut self, cycle: u64, first: bool, managed: Managed)
        ensures { self.new ≡ begun cycle first managed self.old }
    {
        self.before = self.before_next(first, managed);
        self.since = Some(cycle);
        self.taken = 0;
        self.given = 0;
    }

    /// The log says that the second is over.
    #[tactic(auto, unfolding(crate::specs::States::ended_second))]
    pub fn end(&mut self)
        ensures { self.new ≡ ended_second self.old }
    {
        self.before = match self.since {
            Some(_) => Before::Dark,
            None => Before::Nothing,
        };
    }

    /// The units left became others.
    #[tactic(auto, unfolding(crate::specs::States::counted_second))]
    pub fn count(&mut self, old: u32, new: u32)
        ensures { self.new ≡ counted_second old new self.old }
    {
        if new < old {
            self.taken = self.taken.saturating_add(u64::from(old - new));
        } else {
            self.given = self.given.saturating_add(u64::from(new - old));
        }
    }

    /// How many units were taken and not given back since the bus reset.
    pub fn units(&self) -> u64
        ensures { result ≡ self.now.taken - self.now.given }
    {
        self.taken.saturating_sub(self.given)
    }
}
