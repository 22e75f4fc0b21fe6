//! A law of the forms, as the contract of an empty function.

ghost use Rattle.fw_script_command.specs.Laws.{FormsAreOneTable, KeywordsAreTheirWords};

/// What is read of a line, and the table of forms, are one: words are read as a command of a keyword exactly if they fit the types that
/// the table has for it. And each keyword is read of its word.
pub fn forms_are_one_table()
    ensures table { FormsAreOneTable }
    ensures words { KeywordsAreTheirWords }
{}
