//! Laws of two nodes, in `proofs/`, each stated by a function.
#![tactic(auto)]

ghost use Rattle.std.specs.Prelude.{◌≡◌, ◌-◌, ◌^◌, ◌≤◌, true, List, ◌++◌};
ghost use Rattle.pair_rules.specs.World.{World, no_effect, effect_sequence, run, has_end};
ghost use Rattle.pair_rules.specs.declared.event.Event.{Event};
ghost use Rattle.pair_laws.specs.Pools.{HaveGrown};

/// Whatever happens to two nodes, nothing leaves a pool, and nothing in it changes its index. It does nothing when it
/// runs: its contract is the theorem.
pub fn pools_only_grow()
    ensures { (w : World) (script : List Event) → HaveGrown w (run w script).world }
{}

/// Two scripts in a row do what the first does and then, in the world that it leaves, what the second does: also to the
/// lists of messages, and to the count of additions that found no room, which stays at its last value. A world with an
/// ended node stays as it is. It does nothing when it runs: its contract is the theorem.
pub fn scripts_in_a_row()
    ensures behind { (w : World) (first second : List Event) → run w (first ++ second) ≡ effect_sequence (run w first) (run (run w first).world second) }
    ensures last { (w : World) (script : List Event) → (run w script).full ≤ 2 ^ 64 - 1 }
    ensures ended { (w : World) (script : List Event) → has_end w ≡ true → run w script ≡ no_effect w }
{}
