//! What becomes of a session that is given its lines by a console.
ghost use Rattle.ndb_console.specs.Laws.{NoLineIsRefused};

/// A law, which does nothing: no line that a console gives ends the session by a fault, since the
/// session takes each of them.
pub fn no_line_is_refused()
    ensures { NoLineIsRefused }
{}
