//! The commands that the session serves: their words, and what stands behind them.
ghost use Rattle.std.specs.Prelude.{◌≡◌, is_some};
ghost use Rattle.console.specs.Taken.{is_form, is_operation, is_operator, is_order};

/// What a word of a command is.
#[derive(Clone, Copy)]
pub enum Kind {
    Key,
    Value,
    /// The name of a transaction.
    Name,
    Node,
    Rounds,
}

/// A command that the session serves.
#[derive(Clone, Copy)]
pub enum Form {
    Get,
    GetX,
    Put,
    Ins,
    Upd,
    Del,
    Begin,
    Commit,
    Abort,
    Tick,
    Rows,
    Digest,
    Quit,
    Kill,
    Cut,
    Micro,
    Gcp,
    Lcp,
    View,
    Crash,
    Restart,
}

/// All of them, in the order of the manual.
pub const FORMS: [Form; 21] = [
    Form::Get,
    Form::GetX,
    Form::Put,
    Form::Ins,
    Form::Upd,
    Form::Del,
    Form::Begin,
    Form::Commit,
    Form::Abort,
    Form::Tick,
    Form::Kill,
    Form::Cut,
    Form::Gcp,
    Form::Lcp,
    Form::Micro,
    Form::View,
    Form::Crash,
    Form::Restart,
    Form::Rows,
    Form::Digest,
    Form::Quit,
];

/// The command that a line begins so, if it is one.
pub fn form_of(word: &[u8]) -> Option<Form>
    ensures { is_some result ≡ is_form word.now }
{
    if let Some(form) = operation_of(word) {
        return Some(form);
    }
    if let Some(form) = order_of(word) {
        return Some(form);
    }
    operator_of(word)
}

/// The operation that a word names.
pub fn operation_of(word: &[u8]) -> Option<Form>
    ensures { is_some result ≡ is_operation word.now }
{
    if word == b"get".as_slice() {
        Some(Form::Get)
    } else if word == b"getx".as_slice() {
        Some(Form::GetX)
    } else if word == b"put".as_slice() {
        Some(Form::Put)
    } else if word == b"ins".as_slice() {
        Some(Form::Ins)
    } else if word == b"upd".as_slice() {
        Some(Form::Upd)
    } else if word == b"del".as_slice() {
        Some(Form::Del)
    } else {
        None
    }
}

/// The command on transactions, rows or the session that a word names.
fn order_of(word: &[u8]) -> Option<Form>
    ensures { is_some result ≡ is_order word.now }
{
    if word == b"begin".as_slice() {
        Some(Form::Begin)
    } else if word == b"commit".as_slice() {
        Some(Form::Commit)
    } else if word == b"abort".as_slice() {
        Some(Form::Abort)
    } else if word == b"tick".as_slice() {
        Some(Form::Tick)
    } else if word == b"rows".as_slice() {
        Some(Form::Rows)
    } else if word == b"digest".as_slice() {
        Some(Form::Digest)
    } else if word == b"quit".as_slice() {
        Some(Form::Quit)
    } else {
        None
    }
}

/// The command on nodes and epochs that a word names.
fn operator_of(word: &[u8]) -> Option<Form>
    ensures { is_some result ≡ is_operator word.now }
{
    if word == b"kill".as_slice() {
        Some(Form::Kill)
    } else if word == b"cut".as_slice() {
        Some(Form::Cut)
    } else if word == b"micro".as_slice() {
        Some(Form::Micro)
    } else if word == b"gcp".as_slice() {
        Some(Form::Gcp)
    } else if word == b"lcp".as_slice() {
        Some(Form::Lcp)
    } else if word == b"view".as_slice() {
        Some(Form::View)
    } else if word == b"crash".as_slice() {
        Some(Form::Crash)
    } else if word == b"restart".as_slice() {
        Some(Form::Restart)
    } else {
        None
    }
}

impl Form {
    /// The word that it begins with.
    pub fn word(self) -> &'static str {
        match self {
            Form::Get => "get",
            Form::GetX => "getx",
            Form::Put => "put",
            Form::Ins => "ins",
            Form::Upd => "upd",
            Form::Del => "del",
            Form::Begin => "begin",
            Form::Commit => "commit",
            Form::Abort => "abort",
            Form::Tick => "tick",
            Form::Rows => "rows",
            Form::Digest => "digest",
            Form::Quit => "quit",
            Form::Kill => "kill",
            Form::Cut => "cut",
            Form::Micro => "micro",
            Form::Gcp => "gcp",
            Form::Lcp => "lcp",
            Form::View => "view",
            Form::Crash => "crash",
            Form::Restart => "restart",
        }
    }

    /// How it is written.
    pub fn usage(self) -> &'static str {
        match self {
            Form::Get => "get K",
            Form::GetX => "getx K",
            Form::Put => "put K V",
            Form::Ins => "ins K V",
            Form::Upd => "upd K V",
            Form::Del => "del K",
            Form::Begin => "begin T N",
            Form::Commit => "commit T",
            Form::Abort => "abort T",
            Form::Tick => "tick C",
            Form::Rows => "rows N",
            Form::Digest => "digest N",
            Form::Quit => "quit",
            Form::Kill => "kill N",
            Form::Cut => "cut A B",
            Form::Micro => "micro",
            Form::Gcp => "gcp",
            Form::Lcp => "lcp",
            Form::View => "view",
            Form::Crash => "crash",
            Form::Restart => "restart",
        }
    }

    /// What stands behind its first word.
    pub fn kinds(self) -> &'static [Kind] {
        match self {
            Form::Get | Form::GetX | Form::Del => &[Kind::Key],
            Form::Put | Form::Ins | Form::Upd => &[Kind::Key, Kind::Value],
            Form::Begin => &[Kind::Name, Kind::Node],
            Form::Commit | Form::Abort => &[Kind::Name],
            Form::Tick => &[Kind::Rounds],
            Form::Kill | Form::Rows | Form::Digest => &[Kind::Node],
            Form::Cut => &[Kind::Node, Kind::Node],
            Form::Quit
            | Form::Micro
            | Form::Gcp
            | Form::Lcp
            | Form::View
            | Form::Crash
            | Form::Restart => &[],
        }
    }

    /// How many of these have to stand there.
    pub fn least(self) -> usize {
        match self {
            Form::Put | Form::Ins | Form::Upd | Form::Begin => 1,
            _ => self.kinds().len(),
        }
    }
}
