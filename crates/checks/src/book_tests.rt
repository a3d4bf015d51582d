use book::book::Book;
use placing::answer::{ChainTold, Reason};
use placing::fault::{Barred, PlaceFault};
use std::alloc::AllocError;
use std::test::Fail;
use yard::edit::{Edit, EntryTerms, NO_LIMIT};

fn fed(book: &mut Book, mast: u8, rate: u16, limit: u32) -> Result<(), AllocError> {
    let terms = EntryTerms {
        rate,
        fixed: 0,
        limit,
    };
    let _ = book.edit(Edit::Feeder {
        mast,
        pillar: 0,
        terms,
    })?;
    Ok(())
}

// Two masts ten steps apart, and one pillar, as on a new plan.
fn ten_apart(book: &mut Book) -> Result<(), AllocError> {
    let _ = book.edit(Edit::Raise {
        mast: 0,
        x: 0,
        y: 0,
    })?;
    let _ = book.edit(Edit::Raise {
        mast: 1,
        x: 10,
        y: 0,
    })?;
    Ok(())
}

#[test]
fn a_pillar_is_placed_between_two_rates(rt: HostRuntime) -> Result<(), Fail> {
    let mut book = Book::new(rt.alloc());
    ten_apart(&mut book)?;
    fed(&mut book, 0, 3, NO_LIMIT)?;
    fed(&mut book, 1, 2, NO_LIMIT)?;
    let mut halves = [7; 3];
    assert_eq!(rt; book.place(&mut halves)?, Ok(12));
    assert!(rt; halves == [8, 0, 7]);
    let mut pillars = [7; 2];
    let chain = ChainTold {
        from: 0,
        to: 1,
        gap: 10,
        total: 8,
        count: 1,
    };
    assert_eq!(rt; book.why(&mut pillars)?, Ok(Reason::Chain(chain)));
    assert!(rt; pillars == [0, 7]);
    assert_eq!(rt; book.pages().len(), 6);
    Ok(())
}

#[test]
fn limits_that_clash_are_told(rt: HostRuntime) -> Result<(), Fail> {
    let mut book = Book::new(rt.alloc());
    ten_apart(&mut book)?;
    fed(&mut book, 0, 0, 4)?;
    fed(&mut book, 1, 0, 5)?;
    let mut halves = [7; 2];
    assert_eq!(rt; book.place(&mut halves)?, Err(PlaceFault::Unkept));
    assert!(rt; halves == [7, 7]);
    let mut pillars = [7; 1];
    let told = book.why(&mut pillars)?;
    assert!(rt; matches!(told, Ok(Reason::Clash(ChainTold { total: 9, .. }))));
    Ok(())
}

#[test]
fn a_refused_call_has_its_page(rt: HostRuntime) -> Result<(), Fail> {
    let mut book = Book::new(rt.alloc());
    let mut halves = [7; 2];
    let no_mast = Err(PlaceFault::Barred(Barred::NoMast));
    assert_eq!(rt; book.place(&mut halves)?, no_mast);
    assert_eq!(rt; book.pages().len(), 1);
    assert_eq!(rt; book.plan().pillars(), 1);
    Ok(())
}
