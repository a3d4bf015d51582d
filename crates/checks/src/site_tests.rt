use std::test::Fail;
use yard::site::Site;

#[test]
fn halves_of_one_parity_in_range_are_a_site(rt: HostRuntime) {
    assert!(rt; Site::at(8, 0).is_some());
    assert!(rt; Site::at(-1, 200_000 - 1).is_some());
    assert!(rt; Site::at(200_000, -200_000).is_some());
    assert!(rt; Site::at(8, 1).is_none());
    assert!(rt; Site::at(200_002, 0).is_none());
}

#[test]
fn lengths_are_along_the_trench(rt: HostRuntime) -> Result<(), Fail> {
    let crossing = Site::at(14, -4).ok_or("a crossing")?;
    let middle = Site::at(-3, 5).ok_or("the middle of a square")?;
    assert_eq!(rt; crossing.reading(), (5, 9));
    assert_eq!(rt; middle.reading(), (1, -4));
    assert_eq!(rt; crossing.length(&middle), 13);
    assert_eq!(rt; middle.halves(), (-3, 5));
    Ok(())
}
