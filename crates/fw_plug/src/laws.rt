ghost use Rattle.std.specs.Prelude.{◌≡◌, ◌<◌, ◌+◌, ◌-◌, ◌==◌, ◌||◌, ℕ, not, false, true};
ghost use Rattle.fw_terms.specs.declared.plug.ConnectionKind.TheVariants.{PointToPoint, Broadcast};
ghost use Rattle.fw_plug.specs.Changes.{has_broadcast, counter_of, channel_of, overhead_of, one_more, one_less, with_channel, with_overhead};
ghost use Rattle.fw_plug.specs.Words.{OutFields, InFields, FitsRegister, out_word, out_fields, in_word, in_fields, units_of, is_connected};
ghost use Rattle.fw_plug.specs.Units.{units, units_with};
ghost use Rattle.fw_plug.specs.Plugs.{disconnected, first_out_word, first_in_word};

/// What an output plug's register says of the fields that it is made of: they are its fields, it takes the units of its
/// settings, and a connection stands if one is counted. A bus reset leaves the settings; at first the channel is 63
/// and the overhead_ID 0.
pub fn output_words_are_their_fields()
    ensures fields { (f : OutFields) → f.counter < 64 → FitsRegister f.settings → out_fields (out_word f) ≡ f }
    ensures units { (f : OutFields) → f.counter < 64 → FitsRegister f.settings → units (out_word f) ≡ units_of f.settings }
    ensures connected { (f : OutFields) → f.counter < 64 → FitsRegister f.settings → is_connected (out_word f) ≡ (f.broadcast || not (f.counter == 0)) }
    ensures reset { (f : OutFields) → f.counter < 64 → FitsRegister f.settings → disconnected (out_word f) ≡ out_word (record f { broadcast = false; counter = 0 }) }
    ensures first { (rate : ℕ) → first_out_word rate ≡ out_word (record { broadcast = false; counter = 0; settings = record { channel = 63; rate = rate; overhead = 0 } }) }
{}

/// The same of an input plug's register, which has no settings but its channel.
pub fn input_words_are_their_fields()
    ensures fields { (f : InFields) → f.counter < 64 → f.channel < 64 → in_fields (in_word f) ≡ f }
    ensures connected { (f : InFields) → f.counter < 64 → f.channel < 64 → is_connected (in_word f) ≡ (f.broadcast || not (f.counter == 0)) }
    ensures reset { (f : InFields) → f.counter < 64 → f.channel < 64 → disconnected (in_word f) ≡ in_word (record f { broadcast = false; counter = 0 }) }
    ensures first { first_in_word ≡ in_word (record { broadcast = false; counter = 0; channel = 63 }) }
{}

/// There and back: what is read in the words of plugs are their fields, and what is written are words of plugs: with one
/// connection more or less, with another channel, or with another overhead_ID.
pub fn words_are_those_of_plugs()
    ensures broadcast { (f : OutFields) → f.counter < 64 → FitsRegister f.settings → has_broadcast (out_word f) ≡ f.broadcast }
    ensures counter { (f : OutFields) → f.counter < 64 → FitsRegister f.settings → counter_of (out_word f) ≡ f.counter }
    ensures channel { (f : OutFields) → f.counter < 64 → FitsRegister f.settings → channel_of (out_word f) ≡ f.settings.channel }
    ensures overhead { (f : OutFields) → f.counter < 64 → FitsRegister f.settings → overhead_of (out_word f) ≡ f.settings.overhead }
    ensures units { (f : OutFields) (o : ℕ) → f.counter < 64 → FitsRegister f.settings → units_with o (out_word f) ≡ units_of (record f.settings { overhead = o }) }
    ensures counted { (f : OutFields) → one_more PointToPoint (out_word f) ≡ out_word (record f { counter = f.counter + 1 }) }
    ensures uncounted { (f : OutFields) → 0 < f.counter → one_less PointToPoint (out_word f) ≡ out_word (record f { counter = f.counter - 1 }) }
    ensures set { (f : OutFields) → f.broadcast ≡ false → one_more Broadcast (out_word f) ≡ out_word (record f { broadcast = true }) }
    ensures cleared { (f : OutFields) → f.broadcast ≡ true → one_less Broadcast (out_word f) ≡ out_word (record f { broadcast = false }) }
    ensures on_channel { (f : OutFields) (ch : ℕ) → f.counter < 64 → FitsRegister f.settings → with_channel (out_word f) ch ≡ out_word (record f { settings = record f.settings { channel = ch } }) }
    ensures with_overhead { (f : OutFields) (o : ℕ) → f.counter < 64 → FitsRegister f.settings → with_overhead (out_word f) o ≡ out_word (record f { settings = record f.settings { overhead = o } }) }
{}

/// The same of input plugs.
pub fn words_are_those_of_input_plugs()
    ensures broadcast { (f : InFields) → f.counter < 64 → f.channel < 64 → has_broadcast (in_word f) ≡ f.broadcast }
    ensures counter { (f : InFields) → f.counter < 64 → f.channel < 64 → counter_of (in_word f) ≡ f.counter }
    ensures channel { (f : InFields) → f.counter < 64 → f.channel < 64 → channel_of (in_word f) ≡ f.channel }
    ensures counted { (f : InFields) → one_more PointToPoint (in_word f) ≡ in_word (record f { counter = f.counter + 1 }) }
    ensures uncounted { (f : InFields) → 0 < f.counter → one_less PointToPoint (in_word f) ≡ in_word (record f { counter = f.counter - 1 }) }
    ensures set { (f : InFields) → f.broadcast ≡ false → one_more Broadcast (in_word f) ≡ in_word (record f { broadcast = true }) }
    ensures cleared { (f : InFields) → f.broadcast ≡ true → one_less Broadcast (in_word f) ≡ in_word (record f { broadcast = false }) }
    ensures on_channel { (f : InFields) (ch : ℕ) → f.counter < 64 → f.channel < 64 → with_channel (in_word f) ch ≡ in_word (record f { channel = ch }) }
{}
