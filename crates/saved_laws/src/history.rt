//! What members have saved is the history.
ghost use Rattle.saved_laws.specs.History.{SavedRowsAreHistory};

/// Up to any epoch that a member's rows noted as saved they had committed just what the history has.
pub fn saved_rows_are_history()
    ensures { SavedRowsAreHistory }
{}
