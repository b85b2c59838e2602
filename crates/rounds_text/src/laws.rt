//! Laws of rounds.
ghost use Rattle.rounds_text.specs.Laws.{RoundsLeadOn};

/// The document of the first round is accepted for the first case, and that of each further round for the case after the
/// round before. Each states what was asked for.
pub fn rounds_lead_on()
    ensures { RoundsLeadOn }
{}
