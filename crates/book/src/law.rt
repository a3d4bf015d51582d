// What holds of all pages that are complete for a plan, by whatever program they were written.

ghost use Rattle.book.specs.Promise.{SiteBook};

pub fn every_book()
    ensures { SiteBook }
{}
