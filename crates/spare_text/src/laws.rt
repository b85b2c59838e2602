ghost use Rattle.spare_text.specs.Laws.{SpareTextIsThere, SpareTextIsUnique};

/// Every run over failures has exactly one text.
pub fn spare_text_is_one()
    ensures there { SpareTextIsThere }
    ensures unique { SpareTextIsUnique }
{}
