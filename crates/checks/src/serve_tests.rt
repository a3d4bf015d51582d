use service::fault::ServeFault;
use service::run::{MOST_SERVED, serve_input};
use service::serve::serve;
use std::test::Fail;
use yard::plan::Plan;

#[test]
fn under_512_bytes_nothing_is_done(rt: HostRuntime) {
    let mut plan = Plan::new();
    let mut short = [7; 511];
    let served = serve(&mut plan, b"010CF3", &mut short);
    assert_eq!(rt; served, Err(ServeFault::Memory));
    assert!(rt; short == [7; 511]);
    assert_eq!(rt; plan.pillars(), 1);
}

#[test]
fn later_bytes_of_the_buffer_stay(rt: HostRuntime) {
    let mut plan = Plan::new();
    let mut out = [7; 512];
    assert!(rt; serve(&mut plan, b"010CF3", &mut out).is_ok());
    assert!(rt; &out[0..7] == b"817F\n\x07\x07".as_slice());
    assert_eq!(rt; plan.pillars(), 12);
}

#[test]
fn an_input_is_served_up_to_its_greatest_length(rt: HostRuntime) -> Result<(), Fail> {
    let mut input = Vec::new(rt.alloc());
    for _ in 0..MOST_SERVED {
        input.push(b'\n')?;
    }
    let served = serve_input(rt.alloc(), input.as_slice())?;
    assert_eq!(rt; served.len(), 9 * MOST_SERVED);
    input.push(b'\n')?;
    let refused = serve_input(rt.alloc(), input.as_slice())?;
    assert!(rt; refused.as_slice() == b"8210006E\n".as_slice());
    Ok(())
}
