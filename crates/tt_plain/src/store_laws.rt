//! Laws of the whole store's definitions. They compute nothing.

ghost use Rattle.tt_plain.specs.law.Changes.{EntriesAreSound, SoundEffectsKeepSound};
ghost use Rattle.tt_plain.specs.law.Goes.{RepliesStandAtEnds};
ghost use Rattle.tt_plain.specs.law.Past.{HorizonStays, PastStays, SoundEffectsKeepHorizons, SoundEffectsKeepPast};
ghost use Rattle.tt_plain.specs.law.Sound.{LegalIsSound, LegalStaysInTime};

/// After a legal history the clock is within the days of the calendar, but for a millisecond for each entry.
pub fn legal_histories_stay_in_time()
    ensures { LegalStaysInTime }
{}

/// An entry that is allowed has a reply just where it ends a statement.
pub fn replies_stand_at_ends()
    ensures { RepliesStandAtEnds }
{}

/// An effect whose changes are sound keeps the store sound.
pub fn sound_effects_keep_sound()
    ensures { SoundEffectsKeepSound }
{}

/// An effect whose changes are sound leaves the rows and the layouts of each moment that is past, and no horizon falls.
pub fn sound_effects_keep_the_past()
    ensures past { SoundEffectsKeepPast }
    ensures horizons { SoundEffectsKeepHorizons }
{}

/// The changes of each entry that is allowed in a sound store are sound.
pub fn entries_are_sound()
    ensures { EntriesAreSound }
{}

/// The store to which a legal history leads is sound.
pub fn legal_histories_are_sound()
    ensures { LegalIsSound }
{}

/// An entry of a legal history leaves the rows and the layouts of each moment that is past, and no horizon falls.
pub fn legal_histories_keep_the_past()
    ensures past { PastStays }
    ensures horizons { HorizonStays }
{}
