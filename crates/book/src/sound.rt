// What is known of every book.
ghost use Rattle.book.specs.declared.book.Book.{Book};
ghost use Rattle.book.specs.Books.{Sound};

// The theorem of what every book keeps, whatever was done with it.
pub fn books_are_sound()
    ensures { (b : Book) → Sound b }
{}
