ghost use Rattle.move_text.specs.Laws.{MoveTextIsThere, MoveTextIsUnique, MoveTextEndIsUnique, MoveTextKeepsCase};

/// Every run over events has exactly one text.
pub fn move_text_is_one()
    ensures there { MoveTextIsThere }
    ensures unique { MoveTextIsUnique }
{}

/// The run of a text leads to one state. It changes neither the case nor how many may be in flight nor how many servers there
/// are, and keeps the rule of a state.
pub fn move_text_end()
    ensures unique { MoveTextEndIsUnique }
    ensures case { MoveTextKeepsCase }
{}
