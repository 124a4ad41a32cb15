//! Laws of journal files.
ghost use Rattle.resin_journal_file.specs.Laws.{SaysOneThing, ReadsItems};

/// A text is the file of one list of journals at most. Reading it item by item, what is read at a place is the item that stands there.
pub fn file_laws()
    ensures one { SaysOneThing }
    ensures read { ReadsItems }
{}
