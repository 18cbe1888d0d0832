// Laws of all books.

ghost use Rattle.analyses.specs.Book.{TakesMakeBook, BooksHaveTags};
ghost use Rattle.analyses.specs.Tools.{TakesMakeTool};

/// The book of a list of events is what an analysis makes of them one by one, beginning with no row: a row for each key that
/// occurs, in order, with the number of events that have it. So a fresh analysis that has taken events has the book of just
/// these events, and their number.
pub fn takes_make_book()
    ensures book { TakesMakeBook }
    ensures tool { TakesMakeTool }
{}

/// The tags of the rows of a book are those of its kind.
pub fn books_have_tags()
    ensures { BooksHaveTags }
{}
