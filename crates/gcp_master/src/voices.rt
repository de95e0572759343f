//! Confirmations, counted by member.
ghost use Rattle.std.specs.Prelude.{◌≡◌, ◌<◌, ◌≤◌, [], ◌∷◌, ◌++◌, length};
ghost use Rattle.gcp_master.specs.Voices.{has_all, is_among, is_heard, is_in, same_member, same_voice, voices_of};

use sig_core::{HostId, Member, View};
use std::marker::Model;

/// How many confirmations are kept at most: of two blocks of each of eight members.
pub const VOICES: usize = 16;

/// Who confirmed: a block of a member, known by its host.
#[derive(Clone, Copy, Debug, PartialEq, Eq)]
pub struct Voice {
    pub member: Member,
    pub from: HostId,
}

/// At most sixteen confirmations, in the order in which they came. Contracts see a list.
#[derive(Clone, Copy)]
pub struct Voices {
    all: [Voice; 16],
    len: u8,
}

impl Model for Voices {
    ghost use Rattle.std.specs.Prelude.{List, take, length};
    ghost use Rattle.sig_core.specs.Filled.{IsFilled, filled, filled-held, length-held};
    ghost use Rattle.gcp_master.specs.declared.voices.Voice.{Voice};
    ghost use Rattle.gcp_master.specs.Voices.{no_voice};

    ghost Value = { List Voice };

    ghost view = { λ v. take v.len v.all };

    ghost invariant = { λ v. IsFilled no_voice 16 v.all v.len };

    ghost inverse = { λ voices. record { all = filled no_voice 16 voices; len = length voices } };

    ghost inverse_ok = { λ v is i. record { all = filled-held is i; len = length-held is i } };
}

impl Voices {
    /// No confirmations.
    pub fn new() -> Voices
        ensures { result ≡ [] }
    {
        let nobody = Voice {
            member: Member { node: 0, start: 0 },
            from: HostId(0),
        };
        Voices {
            all: [nobody; 16],
            len: 0,
        }
    }

    /// The confirmations, in order.
    pub fn as_slice(&self) -> &[Voice]
        ensures value { result.now ≡ self.now }
        ensures most { length self.now ≤ 16 }
    {
        &self.all[..self.len as usize]
    }

    /// Adds a confirmation behind the others.
    pub fn push(&mut self, voice: Voice)
        requires { length self.old < 16 }
        ensures { self.new ≡ self.old ++ voice ∷ [] }
    {
        self.all[self.len as usize] = voice;
        self.len += 1;
    }
}

/// Whether the two are one member.
pub fn is_same(one: &Member, other: &Member) -> bool
    ensures { result ≡ same_member one.now other.now }
{
    *one == *other
}

fn is_same_voice(one: &Voice, other: &Voice) -> bool
    ensures { result ≡ same_voice one.now other.now }
{
    is_same(&one.member, &other.member) && one.from.0 == other.from.0
}

/// Whether the member is among these.
pub fn is_among(members: &[Member], member: &Member) -> bool
    ensures { result ≡ is_among members.now member.now }
{
    members.iter().any(|other| is_same(member, other))
}

/// Whether the member is in the view, full or starting.
pub fn is_in(view: &View, member: &Member) -> bool
    ensures { result ≡ is_in view.now member.now }
{
    is_among(view.full.as_slice(), member) || is_among(view.starting.as_slice(), member)
}

/// Whether this block has confirmed before.
pub fn is_heard(voices: &[Voice], voice: &Voice) -> bool
    ensures { result ≡ is_heard voices.now voice.now }
{
    voices.iter().any(|other| is_same_voice(voice, other))
}

// How many blocks of the member have confirmed.
fn voices_of(voices: &[Voice], member: &Member) -> usize
    ensures { result ≡ voices_of voices.now member.now }
{
    let mut count = 0;
    for voice in voices {
        if is_same(member, &voice.member) {
            count += 1;
        }
    }
    count
}

/// Whether so many blocks of each of these members have confirmed.
pub fn has_all(blocks: usize, voices: &[Voice], members: &[Member]) -> bool
    ensures { result ≡ has_all blocks voices.now members.now }
{
    members
        .iter()
        .all(|member| voices_of(voices, member) >= blocks)
}
