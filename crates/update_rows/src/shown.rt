//! Causes, changes and entries, as they are told.
use p4_types::code::Cause;
use p4_types::profiles::ProfileChange;
use p4_types::table::{Change, DigestChange, Entry, EntryAction};
use row_lines::{say, tell};

/// Adds the rule that is broken and its code.
pub fn tell_cause(told: &mut String, cause: Cause) {
    say(told, "rule");
    tell(told, cause.rule.number());
    tell(told, cause.code.number());
}

fn tell_change(told: &mut String, change: &Change) {
    match change {
        Change::InsertEntry(_) | Change::ModifyEntry(_) | Change::DeleteEntry(_) => {
            say(told, "ok");
        }
        Change::ModifyDefault { .. } => say(told, "default"),
        Change::Profile(_) => say(told, "profile"),
        Change::Digest(_) => say(told, "digest"),
        Change::Multicast(_) => say(told, "multicast"),
    }
}

/// Adds what becomes of an update.
pub fn tell_outcome(told: &mut String, outcome: &Result<Change, Cause>) {
    match outcome {
        Ok(change) => tell_change(told, change),
        Err(cause) => tell_cause(told, *cause),
    }
}

/// Adds an entry's number and what it does: the first argument of its action, or to what it leaves the choice.
pub fn tell_entry(told: &mut String, entry: Option<&Entry>) {
    let Some(entry) = entry else {
        say(told, "none");
        return;
    };
    tell(told, entry.seq);
    match &entry.action {
        EntryAction::Call(call) => {
            if let Some(argument) = call.arguments.as_slice().first() {
                say(told, "to");
                tell(told, *argument);
            }
        }
        EntryAction::Member { id, .. } => {
            say(told, "member");
            tell(told, *id);
        }
        EntryAction::Group { id, .. } => {
            say(told, "group");
            tell(told, *id);
        }
        EntryAction::Set { calls, .. } => {
            say(told, "set of");
            tell(told, calls.get().as_slice().len());
        }
    }
}
