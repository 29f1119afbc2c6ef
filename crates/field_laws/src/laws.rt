ghost use Rattle.field_laws.specs.FieldLaws.{DictionariesAreFields, ScriptsAreFields, SetsAreFields};

/// No text of a data set that can be shown has a tab or a line feed.
pub fn sets_are_fields()
    ensures { SetsAreFields }
{}

/// No word of a user's dictionary has one.
pub fn dictionaries_are_fields()
    ensures { DictionariesAreFields }
{}

/// No key of a script types one.
pub fn scripts_are_fields()
    ensures { ScriptsAreFields }
{}
