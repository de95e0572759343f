//! What is told of commands, and of lines that ask a user to do something.
use crate::form::Form;

/// A transaction waits for a lock.
pub const HELD: &str = "\
pending held by @H: the transaction waits for a row that transaction H has
locked. `commit H` or `abort H` gives the row away, and the answer comes. Each
`tick` lets rounds pass; a wait of eight ends its transaction (`aborted 266
time-out`). `abort` works on one that waits, too. An operation without `@T`
doesn't wait: it comes to nothing.
";

/// Something waits for nodes that don't hear each other.
pub const CUT: &str = "\
pending cut A B: nodes A and B don't hear each other. The answer waits until
one of them is left out of the view. Missing heartbeats are noticed in the
fourth round: `tick 4`, and then `view`.
";

/// Something waits for a node that stopped.
pub const NODE: &str = "\
pending node N: the node stopped, and the others haven't agreed on a view
without it yet. `tick 1` lets a round pass; `view` shows who is left.
";

/// The cluster is down.
pub const DOWN: &str = "\
down: each node has stopped. `restart` begins anew, with the rows as they were
in the last epoch that was durable.
";

/// An operation of a transaction.
pub const NAMED: &str = "\
@T OP: an operation of transaction T, which `begin T` has begun: `@1 put a 5`.
OP is get, getx, put, ins, upd or del.
";

/// What is told where no command is named.
pub const ALL: &str = "\
rows           get K   getx K   put K V   ins K V   upd K V   del K
transactions   begin T   @T OP   commit T   abort T   (OP: one of the above)
nodes          view   kill N   cut A B   rows N   digest N
epochs, time   gcp   lcp   micro   tick C   crash   restart
this session   help WORD   quit
K is a key, V a value or nothing, T a transaction's number; N, A and B are
nodes, C rounds. An operation without `@T` is a transaction of its own: behind
its answer stands how that ended.
`help put` tells of one command, `help pending` of answers that wait, and
`help keys` of this console.
";

/// What is told of the console itself.
pub const KEYS: &str = "\
The prompt shows nodes, replicas and fragments, and the transactions that are
open. ^C gives up the line, ^D ends the session as `quit` does, ^\\ at once. A
line that isn't understood costs nothing: what is wrong with it is told, and
the code with which it would have ended a script.
docs/SCRIPT.md is the manual, docs/TUTORIAL.md a first hour.
";

const BEGIN: &str = "\
begin T, begin T N: transaction T begins, at node N or else the least one:
`@T begun N`. Then come `@T put a 1` and others, and `commit T` or `abort T`.
";

const GCP: &str = "\
gcp: closes the current epoch, and makes it durable: `durable E`. What was
committed up to then outlasts a crash.
";

/// What a command does.
pub fn of_form(form: Form) -> &'static str {
    match form {
        Form::Get =>
            "get K: `value V`, or `none`. Locks the row shared until its transaction ends.\n",
        Form::GetX => "getx K: as `get`, and locks the row as a write does.\n",
        Form::Put => "put K V: row K has the value V from now on: `ok`. V may be left out.\n",
        Form::Ins =>
            "ins K V: as `put`, of a new row: `ok`, or `error 630 tuple already existed`.\n",
        Form::Upd =>
            "upd K V: as `put`, of a row that is there, or `error 626 tuple did not exist`.\n",
        Form::Del => "del K: the row is gone: `ok`, or `error 626 tuple did not exist`.\n",
        Form::Begin => BEGIN,
        Form::Commit => "commit T: `@T committed E`, in epoch E: all of T's writes at once.\n",
        Form::Abort => "abort T: `@T aborted by request`: none of T's writes.\n",
        Form::Tick => "tick C: lets C rounds of time pass, 1 to 16. A wait for a lock has eight.\n",
        Form::Rows => "rows N: the committed rows of node N, and their number.\n",
        Form::Digest =>
            "digest N: the SHA-256 of what `rows N` shows: the same at all of its group.\n",
        Form::Quit => "quit: ends the session; so does ^D.\n",
        Form::Kill => "kill N: node N stops at once, and the others take over what it had begun.\n",
        Form::Cut => "\
cut A B: nodes A and B no longer hear each other. Missing heartbeats are
noticed in the fourth round: `tick 4`.
",
        Form::Micro => "micro: closes the current epoch, in memory alone: `closed E`.\n",
        Form::Gcp => GCP,
        Form::Lcp => "\
lcp: writes the rows of each node's disk anew, up to an epoch that is durable:
`checkpoint E`. The journal has its room again, and a restart is short.
",
        Form::Crash => "crash: all nodes stop at once, as by a loss of power.\n",
        Form::Restart => "\
restart: a cluster that is down begins anew, from the last epoch that was
durable: `restarted E`.
",
        Form::View => "view: its number, and the nodes that are its members, the oldest first.\n",
    }
}
