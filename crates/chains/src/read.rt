// Reading a chain out of the best chains to the pillars.
ghost use Rattle.std.specs.Prelude.{◌≤◌, length, MatchOption};
ghost use Rattle.chains.specs.Chains.{ReadOut, Unread};

use arrayvec::ArrayVec;

// The pillars of the chain to v, as `before` tells it, from its first pillar to v.
// None where `before` tells no chain to v, or one of more than N pillars.
pub fn chain_to<const N: usize>(before: &[u8], v: u8) -> Option<ArrayVec<u8, N>>
    ensures { MatchOption result (Unread before.now v N) (λ chain. ReadOut before.now v chain.items × (length chain.items ≤ N)) }
{
    let mut pillars = ArrayVec::new();
    let mut p = v;
    // A chain has no more pillars than there are.
    for _ in before {
        let next = *before.get(p as usize)?;
        pillars.try_push(p).ok()?;
        if next == p {
            pillars.reverse();
            return Some(pillars);
        }
        p = next;
    }
    None
}
