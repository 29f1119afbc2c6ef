ghost use Rattle.session_meaning.specs.ReachedLaws.{CompositionStays, EscapeShowsComposition, KeysAreFields, LearnedAreFields, LearnedKeysAreReading, LinesAreFields, ReachedIsSound, ResizeKeepsFocus, ResizedAreBounds, SoundStays};

/// A command keeps what holds of a session.
pub fn soundness_stays()
    ensures { SoundStays }
{}

/// So it holds of each session that commands reach.
pub fn reached_sessions_are_sound()
    ensures { ReachedIsSound }
{}

/// What is converted is the composition that was there before the command.
pub fn conversions_keep_the_composition()
    ensures { CompositionStays }
{}

/// Escape and Backspace lead from a conversion back to its composition, and their line shows it as it was.
pub fn escape_shows_the_composition()
    ensures { EscapeShowsComposition }
{}

/// A resize keeps the focus.
pub fn resizes_keep_the_focus()
    ensures { ResizeKeepsFocus }
{}

/// The bounds of a resize are bounds of the reading.
pub fn resized_bounds_are_bounds()
    ensures { ResizedAreBounds }
{}

/// What is learned of a conversion has, its keys joined, the whole reading: a pair for each segment, with its part.
pub fn learned_keys_are_the_reading()
    ensures { LearnedKeysAreReading }
{}

/// No text of a line has a tab or a line feed, where no text of the data and no key that was typed has one.
pub fn lines_are_fields()
    ensures { LinesAreFields }
{}

/// Nor has a value that is learned.
pub fn learned_values_are_fields()
    ensures { LearnedAreFields }
{}

/// And the name of a key gives no such character.
pub fn keys_are_fields()
    ensures { KeysAreFields }
{}
