//! Images that transactions have prepared, and that no record has committed or given up yet.
ghost use Rattle.std.specs.Prelude.{◌≡◌, None, Some, OnOk, [], cond};
ghost use Rattle.redo_log.specs.declared.image_id.ImageId.{ImageId};
ghost use Rattle.redo_log.specs.Latest.{is_of, with_latest};
ghost use Rattle.redo_log.specs.Replaying.{image_at, same_id};

use crate::image_id::ImageId;
use indexmap::IndexMap;
use redo_format::LentImage;
use sig_core::NoMemory;
use std::alloc::Global;
use std::marker::Model;

/// At most one image of a transaction and a key, where it lies in the bytes of the log. None is a deletion.
#[derive(Drop)]
pub struct Prepared<'a> {
    /// The one that was stored last. Where the next record commits it, as it mostly does, it needs no look-up.
    latest: Option<(ImageId, Option<LentImage<'a>>)>,
    others: IndexMap<ImageId, Option<LentImage<'a>>>,
}

impl<'a> Model for Prepared<'a> {
    ghost use Rattle.redo_log.specs.Replaying.{Images};
    ghost use Rattle.redo_log.specs.Latest.{with_latest};

    ghost Value = { Images };

    ghost view = { λ p. with_latest p.latest p.others.entries };
}

impl<'a> Prepared<'a> {
    /// No images. Takes no memory.
    pub fn new(alloc: Global) -> Prepared<'a>
        ensures { result ≡ [] }
    {
        Prepared {
            latest: None,
            others: IndexMap::new(alloc),
        }
    }

    /// Stores an image, in place of the one before.
    ///
    /// # Errors
    /// `NoMemory`.
    #[inline(always)]
    pub fn put(&mut self, id: ImageId, image: Option<LentImage<'a>>) -> Result<(), NoMemory>
        ensures { OnOk result ((q : ImageId) → image_at self.new q ≡ cond (same_id id q) (Some image.entry) (image_at self.old q)) }
    {
        put_behind(self.latest.take(), &mut self.others)?;
        self.latest = Some((id, image));
        Ok(())
    }

    /// Takes an image out, if there is one. Takes no memory.
    #[inline(always)]
    pub fn take(&mut self, id: ImageId) -> Option<Option<LentImage<'a>>>
        ensures taken { result ≡ image_at self.old id }
        ensures left { (q : ImageId) → image_at self.new q ≡ cond (same_id id q) None (image_at self.old q) }
    {
        let other = take_out(&mut self.others, &id);
        if !is_of(&self.latest, &id) {
            return other;
        }
        match self.latest.take() {
            Some((_, image)) => Some(image),
            None => None,
        }
    }
}

// Stores the image that was the latest, if there was one.
#[inline(always)]
fn put_behind<'a>(
    latest: Option<(ImageId, Option<LentImage<'a>>)>,
    others: &mut IndexMap<ImageId, Option<LentImage<'a>>>,
) -> Result<(), NoMemory>
    ensures { OnOk result ((q : ImageId) → image_at others.new.entries q ≡ image_at (with_latest latest.entry others.old.entries) q) }
{
    match latest {
        Some((id, image)) => {
            others.insert(id, image)?;
            Ok(())
        }
        None => Ok(()),
    }
}

// Takes an image out of a map, if there is one. Nothing is hashed where the map has none.
#[inline(always)]
fn take_out<'a>(
    images: &mut IndexMap<ImageId, Option<LentImage<'a>>>,
    id: &ImageId,
) -> Option<Option<LentImage<'a>>>
    ensures taken { result ≡ image_at images.old.entries id.now }
    ensures left { (q : ImageId) → image_at images.new.entries q ≡ cond (same_id id.now q) None (image_at images.old.entries q) }
{
    if images.is_empty() {
        return None;
    }
    images.swap_remove(id)
}

// Whether the latest image is of this transaction and key.
#[inline(always)]
fn is_of(latest: &Option<(ImageId, Option<LentImage<'_>>)>, id: &ImageId) -> bool
    ensures { result ≡ is_of latest.now id.now }
{
    match latest {
        Some((latest, _)) => *latest == *id,
        None => false,
    }
}
