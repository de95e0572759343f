//! Which host gets what, where a node was made again. A world has no call that tells, so its definition is asked.
ghost use Rattle.std.specs.Prelude.{◌≡◌};
ghost use Rattle.frag_map.specs.Layout.{first_view};
ghost use Rattle.sample_runs.specs.Reached.{reached_by};

/// The shell's host, 0, reaches a start that its view lacks: host 8. Host 1, of node 1, doesn't: where its view has
/// both nodes it reaches the first start, and where it has node 1 alone nobody, whose number is behind all hosts.
#[tactic(auto, unfolding(world_views::specs::Hosts::reached))]
pub fn the_shell_alone_reaches_a_start_that_its_view_lacks()
    ensures both { reached_by 0 (first_view 2) ≡ 8 }
    ensures one { reached_by 0 (first_view 1) ≡ 8 }
    ensures first { reached_by 1 (first_view 2) ≡ 5 }
    ensures nobody { reached_by 1 (first_view 1) ≡ 10 }
{}
