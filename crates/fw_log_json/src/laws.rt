//! Laws of the objects, each as the contract of an empty function.

ghost use Rattle.fw_log_json.specs.Laws.{ObjectsAreLines, ObjectsTellEntries};

/// A law, and no code: two entries in the grammar that have one object are one entry. So an object has every field of its entry.
pub fn objects_tell_entries()
    ensures { ObjectsTellEntries }
{}

/// A law, and no code: the object of each entry in the grammar is one line of printable ASCII in which nothing is escaped, and ends
/// in its only line feed.
pub fn objects_are_lines()
    ensures { ObjectsAreLines }
{}
