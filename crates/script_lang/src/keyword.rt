//! The words that name commands.
ghost use Rattle.std.specs.Prelude.{◌≡◌};
ghost use Rattle.script_lang.specs.Keyword.{keyword_of, operation_of, transaction_word, operator_word, is_in};

/// The kind of an operation.
#[derive(Clone, Copy, Debug, PartialEq, Eq)]
pub enum OpKind {
    Get,
    GetX,
    Put,
    Ins,
    Upd,
    Del,
}

/// What the first word of a line names.
#[derive(Clone, Copy, Debug, PartialEq, Eq)]
pub enum Keyword {
    Operation(OpKind),
    Begin,
    Commit,
    Abort,
    Batch,
    End,
    Kill,
    Cut,
    Tick,
    Micro,
    Gcp,
    Lcp,
    Start,
    Crash,
    Restart,
    Rows,
    Digest,
    View,
    Quit,
}

/// The operation that a word names.
pub fn operation_of(word: &[u8]) -> Option<OpKind>
    ensures { result ≡ operation_of word.now }
{
    if word == b"get".as_slice() {
        Some(OpKind::Get)
    } else if word == b"getx".as_slice() {
        Some(OpKind::GetX)
    } else if word == b"put".as_slice() {
        Some(OpKind::Put)
    } else if word == b"ins".as_slice() {
        Some(OpKind::Ins)
    } else if word == b"upd".as_slice() {
        Some(OpKind::Upd)
    } else if word == b"del".as_slice() {
        Some(OpKind::Del)
    } else {
        None
    }
}

/// What a word names.
pub fn keyword_of(word: &[u8]) -> Option<Keyword>
    ensures { result ≡ keyword_of word.now }
{
    if let Some(kind) = operation_of(word) {
        return Some(Keyword::Operation(kind));
    }
    if let Some(keyword) = transaction_word(word) {
        return Some(keyword);
    }
    operator_word(word)
}

/// What a word names, of the commands on transactions, batches and the session.
fn transaction_word(word: &[u8]) -> Option<Keyword>
    ensures { result ≡ transaction_word word.now }
{
    if word == b"begin".as_slice() {
        Some(Keyword::Begin)
    } else if word == b"commit".as_slice() {
        Some(Keyword::Commit)
    } else if word == b"abort".as_slice() {
        Some(Keyword::Abort)
    } else if word == b"batch".as_slice() {
        Some(Keyword::Batch)
    } else if word == b"end".as_slice() {
        Some(Keyword::End)
    } else if word == b"tick".as_slice() {
        Some(Keyword::Tick)
    } else if word == b"rows".as_slice() {
        Some(Keyword::Rows)
    } else if word == b"digest".as_slice() {
        Some(Keyword::Digest)
    } else if word == b"quit".as_slice() {
        Some(Keyword::Quit)
    } else {
        None
    }
}

/// What a word names, of the commands on nodes and checkpoints.
fn operator_word(word: &[u8]) -> Option<Keyword>
    ensures { result ≡ operator_word word.now }
{
    if word == b"kill".as_slice() {
        Some(Keyword::Kill)
    } else if word == b"cut".as_slice() {
        Some(Keyword::Cut)
    } else if word == b"micro".as_slice() {
        Some(Keyword::Micro)
    } else if word == b"gcp".as_slice() {
        Some(Keyword::Gcp)
    } else if word == b"lcp".as_slice() {
        Some(Keyword::Lcp)
    } else if word == b"start".as_slice() {
        Some(Keyword::Start)
    } else if word == b"crash".as_slice() {
        Some(Keyword::Crash)
    } else if word == b"restart".as_slice() {
        Some(Keyword::Restart)
    } else if word == b"view".as_slice() {
        Some(Keyword::View)
    } else {
        None
    }
}

/// Whether a line may begin so, in a batch or outside.
pub fn is_in(batch: bool, keyword: Keyword) -> bool
    ensures { result ≡ is_in batch keyword }
{
    match keyword {
        Keyword::Begin | Keyword::Kill | Keyword::Micro | Keyword::Gcp | Keyword::Lcp => true,
        Keyword::End => batch,
        _ => !batch,
    }
}
