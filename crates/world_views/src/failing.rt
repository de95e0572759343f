//! What a host that fails in a step keeps: the view in which it stood.
ghost use Rattle.std.specs.Prelude.{◌≡◌, MatchOption};

use node_views::HostBody;
use sig_core::{Held, View};

/// The host stands in the view that was kept, if one was.
pub fn put_back(host: &mut HostBody, view: Option<Held<View>>)
    ensures seen { MatchOption view (host.new ≡ host.old) (λ v. host.new.standing.view ≡ v) }
    ensures kept { host.new.standing.cut ≡ host.old.standing.cut }
{
    if let Some(view) = view {
        host.standing.view = view;
    }
}
