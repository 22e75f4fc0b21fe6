ghost use Rattle.fw_log_entry.specs.Laws.{EventsAreListed, TapesAreInserted, OutcomesAreListed};
ghost use Rattle.fw_log_entry.specs.Laws.{KindsAreNumbered, EventsAreNumbered, OutcomesAreNumbered, OthersAreNumbered};

/// A law, and no code: which number each code of `codes` is, in figures.
pub fn codes_are_those_of_the_log()
    ensures kinds { KindsAreNumbered }
    ensures events { EventsAreNumbered }
    ensures outcomes { OutcomesAreNumbered }
    ensures others { OthersAreNumbered }
{}

/// Laws, and no code: what the tables `EVENTS` and `OUTCOMES` come to, code by code.
pub fn codes_say_what_entries_have()
    ensures events { EventsAreListed }
    ensures tapes { TapesAreInserted }
    ensures outcomes { OutcomesAreListed }
{}
