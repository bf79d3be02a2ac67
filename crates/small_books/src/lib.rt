// Small books and small lists of cuts, worked out by hand, as one fact on the definitions: a definition that says something
// else breaks it.
#![tactic(auto)]

ghost use Rattle.small_books.specs.Books.{SmallBooks};

pub fn small_books_stand()
    ensures { SmallBooks }
{}
