//! The work of a request, as signals carry it.
ghost use Rattle.std.specs.Prelude.{◌≡◌, None, IfOk, IfSome};
ghost use Rattle.sig_core.specs.declared.signal.chain.RowWork.TheVariants.{Operate, Store};
ghost use Rattle.sig_core.specs.Digest.{digest_word};
ghost use Rattle.sig_core.specs.Op.{image_of, key_of};
ghost use Rattle.sig_core.specs.Work.{work_image, work_key};

use crate::hashed_key::HashedKey;
use crate::held_op::HeldOp;
use crate::key::Key;
use crate::no_memory::NoMemory;
use crate::op::Op;
use crate::value::Value;
use std::marker::Model;

/// What a replica is asked to prepare, in little room: the operation is on the heap, and held by all
/// that carry it. Contracts see the work.
#[derive(Drop)]
pub struct HeldWork {
    op: HeldOp,
    /// The image that the operation makes is stored.
    stores: bool,
}

impl Model for HeldWork {
    ghost use Rattle.sig_core.specs.declared.signal.chain.RowWork.{RowWork};
    ghost use Rattle.sig_core.specs.HeldWork.{work_by};

    ghost Value = { RowWork };

    ghost view = { λ w. work_by w.stores w.op };
}

impl HeldWork {
    /// The work of an operation, at the primary.
    pub fn operate(op: HeldOp) -> HeldWork
        ensures { result ≡ Operate op }
    {
        HeldWork { op, stores: false }
    }

    /// The work of storing the image that an operation makes, at a backup.
    pub fn store(op: HeldOp) -> HeldWork
        ensures { result ≡ Store (key_of op) (image_of op) }
    {
        HeldWork { op, stores: true }
    }

    /// Holds the same work once more.
    ///
    /// # Errors
    /// `NoMemory` where it is held 2^63 - 1 times.
    pub fn share(&self) -> Result<HeldWork, NoMemory>
        ensures { IfOk result (λ work. work ≡ self.now) }
    {
        let op = self.op.share()?;
        Ok(HeldWork {
            op,
            stores: self.stores,
        })
    }

    /// The work of storing the image that this work makes.
    ///
    /// # Errors
    /// `NoMemory` where its operation is held 2^63 - 1 times.
    #[tactic(auto, using(crate::proofs::WorkLemmas::works))]
    pub fn stored(&self) -> Result<HeldWork, NoMemory>
        ensures { IfOk result (λ work. work ≡ Store (work_key self.now) (work_image self.now)) }
    {
        Ok(HeldWork::store(self.op.share()?))
    }

    /// The operation, where the work is one.
    pub fn operation(&self) -> Option<&Op>
        ensures some { IfSome result (λ op. self.now ≡ Operate op.now) }
        ensures none { result ≡ None → self.now ≡ Store (work_key self.now) (work_image self.now) }
    {
        if self.stores {
            None
        } else {
            Some(self.op.get())
        }
    }

    /// The key of the row.
    #[tactic(auto, using(crate::proofs::WorkLemmas::works))]
    pub fn key(&self) -> &Key
        ensures { result.now ≡ work_key self.now }
    {
        self.op.get().key()
    }

    /// The first four bytes of the MD5 digest of the key, as a number with the highest byte first.
    #[tactic(auto, using(crate::proofs::WorkLemmas::works))]
    pub fn digest_word(&self) -> u32
        ensures { result ≡ digest_word (work_key self.now) }
    {
        self.op.digest_word()
    }

    /// The key, with the number by which it is put into a bucket.
    #[tactic(auto, using(crate::proofs::WorkLemmas::works))]
    pub fn hashed_key(&self) -> HashedKey
        ensures { result.key ≡ work_key self.now }
    {
        self.op.hashed_key()
    }

    /// The image that is stored, where the work takes effect as a write. None is a deletion.
    #[tactic(auto, using(crate::proofs::WorkLemmas::works))]
    pub fn image(&self) -> Option<Value>
        ensures { result ≡ work_image self.now }
    {
        self.op.get().image()
    }
}
