// The calls on a book.

ghost use Rattle.std.specs.Prelude.{◌≡◌, [], length, vec_items, IfOk, IfErr};
ghost use Rattle.yard.specs.Force.{opened_at};
ghost use Rattle.book.specs.Pages.{Complete, HonestPage, after_page};
ghost use Rattle.book.specs.Promise.{BookHolds};
ghost use Rattle.book.specs.Made.{book_force, book_pages, EditMade, PlaceMade, WhyMade, Adds, Stays};
ghost use Rattle.book.specs.Kept.{page_of};
ghost use Rattle.book.specs.declared.page.Page.{Page};

use crate::book::Book;
use crate::page::{ListCall, Page};
use placing::answer::Reason;
use placing::fault::{Barred, PlaceFault};
use placing::place::place;
use placing::why::why;
use std::alloc::{AllocError, Global};
use yard::edit::Edit;
use yard::fault::EntryFault;
use yard::plan::Plan;

impl Book {
    // The book of a new plan has no pages.
    pub fn new(heap: Global) -> Book
        ensures pages { book_pages result ≡ [] }
        ensures force { book_force result ≡ opened_at 1 }
    {
        Book {
            plan: Plan::new(),
            pages: Vec::new(heap),
        }
    }

    // Makes an edit and writes its page. Where there is no memory for the page, the edit is not made.
    pub fn edit(&mut self, edit: Edit) -> Result<Result<(), EntryFault>, AllocError>
        ensures { EditMade self.old edit result self.new }
    {
        self.pages.reserve(1)?;
        let answer = self.plan.make(edit);
        self.pages.push_reserved(Page::Edited { edit, answer });
        Ok(answer)
    }

    // Makes a call on a list and writes its page. Where there is no memory for the page, the call is not made.
    fn write_call<T, A, C, P>(&mut self, list: &mut [T], call: C, page: P) -> Result<A, AllocError>
    where
        T: Copy,
        A: Copy,
        C: FnOnce(&Plan, &mut [T]) -> A,
        P: FnOnce(ListCall<A, T>) -> Page,
        requires call { C.IsAlwaysCallable call }
        requires page { P.IsAlwaysCallable page }
        requires honest { (plan : _) (before after : _) (told : _) (g : Page) → C.post call plan before told.answer after → told.room ≡ length before.now → vec_items told.list ≡ after.now → P.post page told g → HonestPage plan.now.force (page_of g) × (after_page plan.now.force (page_of g) ≡ plan.now.force) }
        ensures ok { IfOk result (λ a. (plan : _) × (before : _) × (after : _) × (told : _) × (g : Page) × (plan.now ≡ self.old.plan) × (before.now ≡ list.old) × (after.now ≡ list.new) × (told.room ≡ length list.old) × (told.answer ≡ a) × (vec_items told.list ≡ list.new) × C.post call plan before a after × P.post page told g × Adds self.old self.new (page_of g)) }
        ensures err { IfErr result (λ _. Stays self.old self.new × (list.new ≡ list.old)) }
    {
        let room = list.len();
        let mut copy = Vec::from_slice(*self.pages.allocator(), list)?;
        self.pages.reserve(1)?;
        let answer = call(&self.plan, list);
        copy.copy_from_slice(list);
        self.pages.push_reserved(page(ListCall {
            room,
            answer,
            list: copy,
        }));
        Ok(answer)
    }

    // Places the pillars and writes the page of the call. Where there is no memory for the page, the call is not made.
    pub fn place(&mut self, list: &mut [i32]) -> Result<Result<u32, PlaceFault>, AllocError>
        ensures { PlaceMade self.old list.old result self.new list.new }
    {
        self.write_call(list, place, Page::Placed)
    }

    // Asks why no lower level exists and writes the page of the call. Where there is no memory for the page, the call is not made.
    pub fn why(&mut self, list: &mut [u8]) -> Result<Result<Reason, Barred>, AllocError>
        ensures { WhyMade self.old list.old result self.new list.new }
    {
        self.write_call(list, why, Page::Asked)
    }

    // The pages: they are complete for the plan, so what each page promises holds.
    pub fn pages(&self) -> &[Page]
        ensures value { result.now ≡ self.now.pages.items }
        ensures whole { ∥ Complete (book_pages self.now) (book_force self.now) ∥₁ }
        ensures promise { BookHolds (book_pages self.now) }
    {
        self.pages.as_slice()
    }

    // The plan as it stands.
    pub fn plan(&self) -> &Plan
        ensures { result.now ≡ self.now.plan }
    {
        &self.plan
    }
}
