// A page of the book.

use placing::answer::Reason;
use placing::fault::{Barred, PlaceFault};
use yard::edit::Edit;
use yard::fault::EntryFault;

// A call on a list: the length of that list, the call's answer, and a copy of the list after the call.
#[derive(Drop)]
pub struct ListCall<A, T> {
    pub room: usize,
    pub answer: A,
    pub list: Vec<T>,
}

// A call with its answer.
#[derive(Drop)]
pub enum Page {
    Edited {
        edit: Edit,
        answer: Result<(), EntryFault>,
    },
    Placed(ListCall<Result<u32, PlaceFault>, i32>),
    Asked(ListCall<Result<Reason, Barred>, u8>),
}
