//! Lists of members that take no memory.
ghost use Rattle.std.specs.Prelude.{◌≡◌, ◌<◌, ◌≤◌, [], ◌∷◌, ◌++◌, length};

use crate::member::Member;
use std::marker::Model;

/// The most members that a list has, which is the most nodes that a cluster has.
pub const MEMBERS: usize = 8;

/// At most eight members, in an order that its owner gives a meaning. Contracts see a list.
#[derive(Clone, Copy)]
pub struct Members {
    all: [Member; 8],
    len: u8,
}

impl Model for Members {
    ghost use Rattle.std.specs.Prelude.{List, ℕ, take, length};
    ghost use Rattle.sig_core.specs.declared.member.Member.{Member};
    ghost use Rattle.sig_core.specs.Filled.{IsFilled, filled, filled-held, length-held};
    ghost use Rattle.sig_core.specs.Members.{nobody};

    ghost Value = { List Member };

    ghost view = { λ m. take m.len m.all };

    ghost invariant = { λ m. IsFilled nobody 8 m.all m.len };

    ghost inverse = { λ members. record { all = filled nobody 8 members; len = length members } };

    ghost inverse_ok = { λ m is i. record { all = filled-held is i; len = length-held is i } };
}

impl Members {
    /// No members.
    pub fn new() -> Members
        ensures { result ≡ [] }
    {
        let nobody = Member { node: 0, start: 0 };
        Members {
            all: [nobody; 8],
            len: 0,
        }
    }

    /// The members, in order.
    pub fn as_slice(&self) -> &[Member]
        ensures value { result.now ≡ self.now }
        ensures most { length self.now ≤ 8 }
    {
        &self.all[..self.len as usize]
    }

    /// Adds a member behind the others.
    pub fn push(&mut self, member: Member)
        requires { length self.old < 8 }
        ensures { self.new ≡ self.old ++ member ∷ [] }
    {
        self.all[self.len as usize] = member;
        self.len += 1;
    }
}
