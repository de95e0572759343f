//! What an unanswered command waits for.
ghost use Rattle.std.specs.Prelude.{◌≡◌, OnOk, OnErr, true, false};
ghost use Rattle.std.specs.List.{list_any};
ghost use Rattle.sig_core.specs.Firsts.{first};
ghost use Rattle.sig_core.specs.Step.{HasRoom, IsTaken, IsUntouched, stay};
ghost use Rattle.api_block.specs.Opened.{is_unanswered};
ghost use Rattle.api_views.specs.Pending.{client_pending_row, has_node, is_at, lacking, lacks, obstacle, obstructed};
ghost use Rattle.api_views.specs.Pending.{own_waits, parted, parts, waits_by};

use crate::client::Client;
use crate::cuts::CutPair;
use crate::members::is_member;
use crate::stops::HostStop;
use api_block::is_unanswered;
use sig_core::{ApiReply, ApiReq, Member, NoMemory, Outs, TxId, View, Waiting};
use std::alloc::Global;

fn is_at(node: u8, member: &Member) -> bool
    ensures { result ≡ is_at node member.now }
{
    member.node == node
}

fn is_among(node: u8, members: &[Member]) -> bool
    ensures { result ≡ list_any (is_at node) members.now }
{
    members.iter().any(|member| is_at(node, member))
}

fn has_node(view: &View, node: u8) -> bool
    ensures { result ≡ has_node view.now node }
{
    is_among(node, view.full.as_slice()) || is_among(node, view.starting.as_slice())
}

fn parts(view: &View, cut: &CutPair) -> bool
    ensures { result ≡ parts view.now cut.now }
{
    has_node(view, cut.one) && has_node(view, cut.other)
}

fn lacks(view: &View, stop: &HostStop) -> bool
    ensures { result ≡ lacks view.now stop.now }
{
    is_member(view, &stop.member)
}

// The first pair that was cut of which both are in the view.
fn first_cut(cuts: &[CutPair], view: &View) -> Option<CutPair>
    ensures { result ≡ first (parts view.now) cuts.now }
{
    for cut in cuts {
        if parts(view, cut) {
            return Some(*cut);
        }
    }
    None
}

// The first host that stopped whose member is in the view.
fn first_stop(stops: &[HostStop], view: &View) -> Option<HostStop>
    ensures { result ≡ first (lacks view.now) stops.now }
{
    for stop in stops {
        if lacks(view, stop) {
            return Some(*stop);
        }
    }
    None
}

fn lacking(stop: Option<HostStop>) -> Option<Waiting>
    ensures { result ≡ lacking stop }
{
    match stop {
        Some(stop) => Some(Waiting::Node(stop.member.node)),
        None => None,
    }
}

fn parted(cut: Option<CutPair>, stop: Option<HostStop>) -> Option<Waiting>
    ensures { result ≡ parted cut stop }
{
    match cut {
        Some(cut) => Some(Waiting::Cut(cut.one, cut.other)),
        None => lacking(stop),
    }
}

impl Client {
    // What keeps answers from coming.
    #[tactic(auto, unfolding(crate::specs::Pending::obstacle))]
    fn obstacle(&self) -> Option<Waiting>
        ensures { result ≡ obstacle self.now }
    {
        let view = self.api.view();
        parted(first_cut(&self.cuts, view), first_stop(&self.stops, view))
    }

    // Replies what keeps the answer to a command from coming.
    fn tell_obstacle(&mut self, name: Option<u16>) -> Result<(), NoMemory>
        ensures ok { OnOk result (stay self.new ≡ obstructed self.old name) }
        ensures err { OnErr result (self.new ≡ self.old) }
    {
        match self.obstacle() {
            Some(on) => self.api.reply(ApiReply::Pending { name, on }),
            None => Ok(()),
        }
    }

    // Replies what the last command waits for.
    #[tactic(auto, unfolding(crate::specs::Pending::client_pending_row))]
    pub(crate) fn tell_wait(&mut self, alloc: Global, out: &mut Outs) -> Result<(), NoMemory>
        requires { HasRoom out.old }
        ensures ok { OnOk result (IsTaken (client_pending_row self.old) self.new out.old out.new) }
        ensures err { OnErr result (IsUntouched self.old self.new out.old out.new) }
    {
        if self.is_closing_left() {
            self.tell_obstacle(None)
        } else {
            self.tell_own(alloc, out)
        }
    }

    // Replies what the transaction waits for that the last command is about.
    fn tell_own(&mut self, alloc: Global, out: &mut Outs) -> Result<(), NoMemory>
        requires { HasRoom out.old }
        ensures ok { OnOk result (IsTaken (own_waits self.old) self.new out.old out.new) }
        ensures err { OnErr result (IsUntouched self.old self.new out.old out.new) }
    {
        match self.api.own_place() {
            Some(at) => {
                let t = &self.api.opened()[at];
                let (name, unanswered, ahead) = (t.name, is_unanswered(&t.doing), t.ahead);
                self.tell_by(alloc, name, unanswered, ahead, out)
            }
            None => Ok(()),
        }
    }

    // Replies what a transaction of this name waits for, if it isn't answered.
    fn tell_by(
        &mut self,
        alloc: Global,
        name: Option<u16>,
        unanswered: bool,
        ahead: Option<TxId>,
        out: &mut Outs,
    ) -> Result<(), NoMemory>
        requires { HasRoom out.old }
        ensures ok { OnOk result (IsTaken (waits_by self.old name unanswered ahead) self.new out.old out.new) }
        ensures err { OnErr result (IsUntouched self.old self.new out.old out.new) }
    {
        match (unanswered, ahead) {
            (true, None) => self.tell_obstacle(name),
            _ => self.api.ask(alloc, &ApiReq::Pending, out),
        }
    }
}
