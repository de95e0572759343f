//! What is true of every disk that keeps to the model, whatever its calls were.
ghost use Rattle.host_io.specs.Laws.{ReadsAsAnImage, SyncedIsKept};

/// A disk as it reads is one of its images.
pub fn a_disk_reads_as_an_image()
    ensures { ReadsAsAnImage }
{}

/// Right after a sync of a file each image of it is the file as it reads.
pub fn what_is_synced_is_kept()
    ensures { SyncedIsKept }
{}
