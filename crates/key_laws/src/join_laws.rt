//! What holds of one key makes up what holds of all.
ghost use Rattle.key_laws.specs.Joined.{KeysJoin, RowsJoin};

/// A list of entries whose answers are right for each key alone is legal, and of each key it leaves
/// the row that it leaves there alone.
pub fn keys_join()
    ensures legal { KeysJoin }
    ensures rows { RowsJoin }
{}
