//! What writing and reading are to each other.
ghost use Rattle.trace_bytes.specs.Laws.{ReadIsWritten, TracesAreRead, TracesDiffer};

/// A law, which does nothing: the trace of a life is read as that life, and the shape with it.
pub fn traces_are_read()
    ensures { TracesAreRead }
{}

/// A law, which does nothing: no two lives have one trace.
pub fn no_two_lives_have_one_trace()
    ensures { TracesDiffer }
{}

/// A law, which does nothing: bytes that are read as a life are its trace, so each trace has one spelling.
pub fn what_is_read_is_written()
    ensures { ReadIsWritten }
{}
