//! Lists of sends, of which one event sends eight.
ghost use Rattle.std.specs.Prelude.{◌≡◌, ◌+◌, ◌≤◌, false, length};
ghost use Rattle.sig_core.specs.Step.{to_place};

use crate::outs::Outs;
use crate::place::Place;
use crate::signal::Body;

/// How many sends of a list an event does.
pub const PORTION: usize = 8;

/// How far an event has come with a list of sends that it goes through.
#[derive(Clone, Copy)]
pub struct Portion {
    /// How many are still to be passed over: earlier events sent them.
    pub skip: u64,
    /// How many more this event sends.
    pub room: usize,
    /// Some were left for later.
    pub more: bool,
}

impl Portion {
    ghost use Rattle.sig_core.specs.Portion.{offered, so_far};

    /// Nothing of the list was gone through yet, and the event sends from place `at` on.
    pub fn new(at: u64) -> Portion
        ensures { result ≡ record { skip = at; room = 8; more = false } }
    {
        Portion {
            skip: at,
            room: PORTION,
            more: false,
        }
    }

    /// Goes through one more of the list: passes it over, sends it, or leaves it for later.
    pub fn offer(&mut self, to: Place, body: Body, out: &mut Outs)
        requires { length out.old.sends + self.old.room ≤ 15 }
        ensures offered { so_far self.new out.new ≡ offered (so_far self.old out.old) (to_place to body) }
        ensures fits { length out.new.sends + self.new.room ≤ 15 }
    {
        if self.skip > 0 {
            self.skip -= 1;
            leave_out(body);
        } else if self.room > 0 {
            self.room -= 1;
            out.send(to, body);
        } else {
            self.more = true;
            leave_out(body);
        }
    }
}

// Drops what isn't sent now, which is seldom. Not inlined, so that what is sent is moved as a whole, and not taken
// apart.
#[cold]
#[inline(never)]
fn leave_out(_body: Body) {}
