//! Laws of the text. Each function does nothing, and its contract is a law.

ghost use Rattle.cactus_text.specs.TextLaws.{LawOfCactusText, LawOfStated, LawOfText, LawOfUniqueText};

/// The text of a value and a well-formed flat cactus states exactly these: `read` returns them.
pub fn text_is_read()
    ensures { LawOfText }
{}

/// The text of a value and the flat cactus of any cactus, which is what `print` writes, is read
/// back as exactly these.
pub fn cactus_text_is_read()
    ensures { LawOfCactusText }
{}

/// A text states a well-formed flat cactus, with a value and a number of vertices within the
/// limits, and so does what `read` returns.
pub fn stated_is_well_formed()
    ensures { LawOfStated }
{}

/// Only the text that is printed of a value and a flat cactus states them.
pub fn text_is_unique()
    ensures { LawOfUniqueText }
{}
