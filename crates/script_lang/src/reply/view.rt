//! Views, in words.
ghost use Rattle.std.specs.Prelude.{◌≡◌, ◌++◌, OnOk};
ghost use Rattle.script_lang.specs.ViewText.{further_nodes, joined_nodes, view_words};

use crate::reply::words::add;
use sig_core::{Member, NoMemory, View};
use std::alloc::Global;

/// Adds the words of a view to a line.
///
/// # Errors
/// `NoMemory`.
pub fn add_view(alloc: Global, view: &View, line: &mut Vec<u8>) -> Result<(), NoMemory>
    ensures { OnOk result (line.new.items ≡ line.old.items ++ view_words view.now) }
{
    add(line, &format!(in alloc; "view {} full ", view.number)?)?;
    add_nodes(alloc, view.full.as_slice(), line)?;
    add(line, " starting ")?;
    add_nodes(alloc, view.starting.as_slice(), line)
}

// Adds the nodes of members, joined by commas; a dash for none.
fn add_nodes(alloc: Global, members: &[Member], line: &mut Vec<u8>) -> Result<(), NoMemory>
    ensures { OnOk result (line.new.items ≡ line.old.items ++ joined_nodes members.now) }
{
    match members.split_first() {
        None => add(line, "-"),
        Some((first, further)) => {
            add(line, &format!(in alloc; "{}", first.node)?)?;
            add_further_nodes(alloc, further, line)
        }
    }
}

// Adds the nodes of members, each behind a comma.
fn add_further_nodes(alloc: Global, members: &[Member], line: &mut Vec<u8>) -> Result<(), NoMemory>
    ensures { OnOk result (line.new.items ≡ line.old.items ++ further_nodes members.now) }
{
    for member in members {
        add(line, &format!(in alloc; ",{}", member.node)?)?;
    }
    Ok(())
}
