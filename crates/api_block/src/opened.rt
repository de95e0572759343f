//! Transactions that were asked for and whose end isn't reported.
ghost use Rattle.std.specs.Prelude.{◌≡◌, ◌<◌, position, length, IfOk, IfSome};
ghost use Rattle.api_block.specs.declared.opened.Doing.TheVariants.{Ready, Committing};
ghost use Rattle.api_block.specs.Opened.{answered, begins, begins_at, begun, begun_operating, behind, committing};
ghost use Rattle.api_block.specs.Opened.{has_tx, is_beginning, is_named, is_tx, is_unanswered, operating, same_name};

use sig_core::{HeldOp, NoMemory, TxId};

/// How far a transaction is.
#[derive(Drop)]
pub enum Doing {
    /// Its coordinator was asked to begin it, to perform this operation where it has no name.
    Beginning(Option<HeldOp>),
    /// It takes commands.
    Ready,
    /// An operation was sent.
    Operating,
    /// The commit was asked for.
    Committing,
}

impl Doing {
    // The same once more.
    fn share(&self) -> Result<Doing, NoMemory>
        ensures { IfOk result (λ doing. doing ≡ self.now) }
    {
        match self {
            Doing::Beginning(Some(op)) => Ok(Doing::Beginning(Some(op.share()?))),
            Doing::Beginning(None) => Ok(Doing::Beginning(None)),
            Doing::Ready => Ok(Doing::Ready),
            Doing::Operating => Ok(Doing::Operating),
            Doing::Committing => Ok(Doing::Committing),
        }
    }
}

/// A transaction that was asked for and whose end isn't reported.
#[derive(Drop)]
pub struct OpenTransaction {
    /// The number that a script gave to it. That of a lone operation has none.
    pub name: Option<u16>,
    /// The node of its coordinator.
    pub node: u8,
    /// What its coordinator began.
    pub tx: Option<TxId>,
    /// How many operations were sent, at most 64.
    pub operations: usize,
    pub doing: Doing,
    /// The transaction that it waits for, as far as its coordinator has told.
    pub ahead: Option<TxId>,
}

impl OpenTransaction {
    /// It takes commands.
    pub fn begun(&self, tx: TxId) -> OpenTransaction
        ensures { result ≡ begun self.now tx }
    {
        OpenTransaction {
            tx: Some(tx),
            doing: Doing::Ready,
            ..*self
        }
    }

    /// It performs the operation that it was asked for with.
    pub fn begun_operating(&self, tx: TxId) -> OpenTransaction
        ensures { result ≡ begun_operating self.now tx }
    {
        OpenTransaction {
            tx: Some(tx),
            operations: 1,
            doing: Doing::Operating,
            ..*self
        }
    }

    /// It performs one more operation.
    pub fn operating(&self) -> OpenTransaction
        requires { self.now.operations < 64 }
        ensures { result ≡ operating self.now }
    {
        OpenTransaction {
            operations: self.operations + 1,
            doing: Doing::Operating,
            ahead: None,
            ..*self
        }
    }

    /// Its operation is answered, and it takes commands again.
    pub fn ready(&self) -> OpenTransaction
        ensures { result ≡ answered self.now Ready }
    {
        OpenTransaction {
            doing: Doing::Ready,
            ahead: None,
            ..*self
        }
    }

    /// Its operation is answered, and it commits.
    pub fn ready_to_commit(&self) -> OpenTransaction
        ensures { result ≡ answered self.now Committing }
    {
        OpenTransaction {
            doing: Doing::Committing,
            ahead: None,
            ..*self
        }
    }

    /// Its commit is asked for.
    pub fn committing(&self) -> OpenTransaction
        ensures { result ≡ committing self.now }
    {
        OpenTransaction {
            doing: Doing::Committing,
            ..*self
        }
    }

    /// It waits for that transaction, or it isn't known for which.
    pub fn behind(self, ahead: Option<TxId>) -> OpenTransaction
        ensures { result ≡ behind self ahead }
    {
        OpenTransaction { ahead, ..self }
    }

    /// The same transaction once more.
    ///
    /// # Errors
    /// `NoMemory` where its operation is held 2^63 - 1 times.
    pub fn share(&self) -> Result<OpenTransaction, NoMemory>
        ensures { IfOk result (λ t. t ≡ self.now) }
    {
        let doing = self.doing.share()?;
        Ok(OpenTransaction { doing, ..*self })
    }
}

/// Where the first transaction of a name stands.
pub fn place_named(opened: &[OpenTransaction], name: Option<u16>) -> Option<usize>
    ensures value { result ≡ position (is_named name) opened.now }
    ensures inside { IfSome result (λ at. at < length opened.now) }
{
    opened.iter().position(|t| is_named(name, t))
}

/// Where the first transaction of a name stands that is beginning.
pub fn place_beginning(opened: &[OpenTransaction], name: Option<u16>) -> Option<usize>
    ensures value { result ≡ position (begins name) opened.now }
    ensures inside { IfSome result (λ at. at < length opened.now) }
{
    opened.iter().position(|t| begins(name, t))
}

/// Where the first transaction of a name stands that is beginning at a node's coordinator.
pub fn place_beginning_at(opened: &[OpenTransaction], name: Option<u16>, node: u8) -> Option<usize>
    ensures value { result ≡ position (begins_at name node) opened.now }
    ensures inside { IfSome result (λ at. at < length opened.now) }
{
    opened.iter().position(|t| begins_at(name, node, t))
}

/// Where a transaction stands.
pub fn place_of(opened: &[OpenTransaction], tx: TxId) -> Option<usize>
    ensures value { result ≡ position (has_tx tx) opened.now }
    ensures inside { IfSome result (λ at. at < length opened.now) }
{
    opened.iter().position(|t| has_tx(tx, t))
}

/// Whether the last command of a transaction isn't answered.
pub fn is_unanswered(doing: &Doing) -> bool
    ensures { result ≡ is_unanswered doing.now }
{
    match doing {
        Doing::Ready => false,
        _ => true,
    }
}

/// Whether its coordinator hasn't answered yet whether it begins.
pub fn is_beginning(doing: &Doing) -> bool
    ensures { result ≡ is_beginning doing.now }
{
    match doing {
        Doing::Beginning(_) => true,
        _ => false,
    }
}

fn is_named(name: Option<u16>, t: &OpenTransaction) -> bool
    ensures { result ≡ is_named name t.now }
{
    same_name(t.name, name)
}

fn begins(name: Option<u16>, t: &OpenTransaction) -> bool
    ensures { result ≡ begins name t.now }
{
    is_beginning(&t.doing) && same_name(t.name, name)
}

fn begins_at(name: Option<u16>, node: u8, t: &OpenTransaction) -> bool
    ensures { result ≡ begins_at name node t.now }
{
    begins(name, t) && t.node == node
}

fn has_tx(tx: TxId, t: &OpenTransaction) -> bool
    ensures { result ≡ has_tx tx t.now }
{
    is_tx(tx, t.tx)
}

fn is_tx(tx: TxId, held: Option<TxId>) -> bool
    ensures { result ≡ is_tx tx held }
{
    match held {
        Some(begun) => begun == tx,
        None => false,
    }
}

fn same_name(one: Option<u16>, other: Option<u16>) -> bool
    ensures { result ≡ same_name one other }
{
    match (one, other) {
        (None, None) => true,
        (Some(one), Some(other)) => one == other,
        _ => false,
    }
}
