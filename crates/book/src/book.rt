ghost use Rattle.book.specs.Pages.{Complete};
ghost use Rattle.book.specs.Kept.{pages_of};

use crate::page::Page;
use yard::plan::Plan;

// A plan, with a page for each call that was made on it since it was new.
#[derive(Drop)]
pub struct Book {
    plan: Plan,
    pages: Vec<Page>,
    ghost whole: { ∥ Complete (pages_of pages.items) plan.force ∥₁ },
}

pub mod calls;
