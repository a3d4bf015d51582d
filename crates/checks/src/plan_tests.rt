use yard::edit::{EntryTerms, NO_LIMIT};
use yard::force::Run;
use yard::plan::Plan;

const QUOTED: EntryTerms = EntryTerms {
    rate: 3,
    fixed: 100,
    limit: NO_LIMIT,
};

fn rate(plan: &Plan, run: Run) -> Option<u16> {
    plan.terms(run).map(|terms| terms.rate)
}

#[test]
fn a_moved_mast_keeps_its_terms_and_a_struck_one_does_not(rt: HostRuntime) {
    let feeder = Run::Feeder { mast: 7, pillar: 0 };
    let mut plan = Plan::new();
    assert!(rt; plan.raise(7, 0, 0).is_ok());
    assert!(rt; plan.feeder(7, 0, QUOTED).is_ok());
    assert!(rt; plan.raise(7, 5, 5).is_ok());
    assert_eq!(rt; rate(&plan, feeder), Some(3));
    assert!(rt; plan.strike(7).is_ok());
    assert_eq!(rt; rate(&plan, feeder), None);
    assert!(rt; plan.raise(7, 5, 5).is_ok());
    assert_eq!(rt; rate(&plan, feeder), Some(0));
}

#[test]
fn a_link_is_one_run_from_either_end(rt: HostRuntime) {
    let mut plan = Plan::new();
    assert!(rt; plan.open(3).is_ok());
    assert!(rt; plan.link(2, 0, QUOTED).is_ok());
    assert_eq!(rt; rate(&plan, Run::Link { one: 0, other: 2 }), Some(3));
    assert_eq!(rt; rate(&plan, Run::Link { one: 2, other: 0 }), Some(3));
    assert_eq!(rt; rate(&plan, Run::Link { one: 1, other: 0 }), Some(0));
}
