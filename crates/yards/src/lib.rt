// The table of worked yards.
#![tactic(auto)]

ghost use Rattle.yards.specs.Table.{WorkedYardsRight};

// The table is right: each yard's edits are taken, and Place and Why answer what it says. There is nothing to compute.
pub fn worked_yards()
    ensures { WorkedYardsRight }
{}
