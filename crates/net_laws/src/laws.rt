//! Laws of networks that are made from components, for any numbers of ports: each function here does nothing, and its contract is the law.
ghost use Rattle.std.specs.Prelude.{◌↔◌, ◌≡◌, ℕ, suc, ◌*◌, ◌<◌, ◌≤◌, ◌^◌, List};
ghost use Rattle.cmd_tree.specs.Rounds.{Rounds};
ghost use Rattle.net_core.specs.declared.spec.NodeSpec.{NodeSpec};
ghost use Rattle.net_core.specs.Specs.{IsFormed, May, outs_of, sides};
ghost use Rattle.basic_kinds.specs.Totals.{total};
ghost use Rattle.net_laws.specs.Charts.{charted};
ghost use Rattle.net_laws.specs.ForkChain.{chain_chart};
ghost use Rattle.net_laws.specs.ForksNets.{Forks, forks_net};
ghost use Rattle.net_laws.specs.Implementing.{Implements};
ghost use Rattle.net_laws.specs.RoundsNets.{rounds_net};

/// Where a specification takes each of its n inputs once, then gives each of its m outputs once, and so on, a C and a FORK
/// implement it. A C of one input and a FORK of one output are left out, and a WIRE stands for both.
pub fn rounds_net_law()
    ensures { (s : NodeSpec) (n m : ℕ) → 0 < n → 0 < m → n < 2 ^ 27 → m < 2 ^ 27 → IsFormed s → outs_of s ≡ sides n m
        → ((t : List ℕ) → (May s t ↔ Rounds n m t)) → Implements (rounds_net s n m) s }
{}

/// Where a specification gives each of its k inputs on by m outputs of its own, whatever the others do, k FORKs side by side
/// implement it.
pub fn forks_net_law()
    ensures { (s : NodeSpec) (k m : ℕ) → 2 ≤ m → m < 2 ^ 27 → IsFormed s → outs_of s ≡ sides k (k * m)
        → ((t : List ℕ) → (May s t ↔ Forks k m t)) → Implements (forks_net s k m) s }
{}

/// A chain of h FORKs, each with any number of taps beside the output that leads on, implements a specification that takes its
/// input and then gives all its outputs. The FORKs without taps are left out, however many follow one another; one has taps.
pub fn fork_chain_law()
    ensures { (s : NodeSpec) (h : ℕ) (u : ℕ → ℕ) (r : ℕ) → r < h → 0 < u r → ((r : ℕ) → r < h → u r < 2 ^ 26) → IsFormed s
        → outs_of s ≡ sides 1 (suc (total h u)) → ((t : List ℕ) → (May s t ↔ Rounds 1 (suc (total h u)) t)) → Implements (charted (chain_chart s h u)) s }
{}
