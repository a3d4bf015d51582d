// The law that makes a short chain a reason.
ghost use Rattle.network.specs.Chain.{ShortRulesOut};

// A short chain rules out all positions that would meet the network, in the field or not. The law is the contract: there is nothing to compute.
pub fn short_rules_out()
    ensures { ShortRulesOut }
{}
