//! What the client's side under views sees of the API, and does with it beside its rows.
ghost use Rattle.std.specs.Prelude.{◌≡◌, ◌∷◌, [], None, OnOk, OnErr};
ghost use Rattle.api_block.specs.State.{about, in_view, replied, with_dump};
ghost use Rattle.api_block.specs.Views.{dump_node};

use crate::api::Api;
use crate::opened::OpenTransaction;
use sig_core::{ApiReply, NoMemory, View};

impl Api {
    /// The view that is installed.
    pub fn view(&self) -> &View
        ensures { result.now ≡ self.now.view }
    {
        &self.view
    }

    /// The transactions whose end isn't reported, in the order in which they were asked for.
    pub fn opened(&self) -> &[OpenTransaction]
        ensures { result.now ≡ self.now.opened }
    {
        self.opened.as_slice()
    }

    /// The node whose dump is under way, if one is.
    pub fn dump_node(&self) -> Option<u8>
        ensures { result ≡ dump_node self.now }
    {
        match &self.dump {
            Some(dump) => Some(dump.node),
            None => None,
        }
    }

    /// This view is installed from now on.
    pub fn see(&mut self, view: &View)
        ensures { self.new ≡ in_view self.old view.now }
    {
        self.view = *view;
    }

    /// The last command is about no transaction.
    pub fn be_about_none(&mut self)
        ensures { self.new ≡ about self.old None }
    {
        self.own = None;
    }

    /// The dump that is under way is over, and the client is told so by this reply.
    ///
    /// # Errors
    /// `NoMemory`, and then nothing has happened.
    pub fn break_dump(&mut self, reply: ApiReply) -> Result<(), NoMemory>
        ensures ok { OnOk result (self.new ≡ replied (with_dump self.old None) (reply ∷ [])) }
        ensures err { OnErr result (self.new ≡ self.old) }
    {
        self.reply(reply)?;
        self.dump = None;
        Ok(())
    }
}
