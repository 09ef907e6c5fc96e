//! Laws of the grammar.

ghost use Rattle.std.specs.Prelude.{◌≡◌, ◌≤◌, ℕ, List, length};
ghost use Rattle.ll_rights.specs.declared.limits.TheConstants.{DIRECTORY_ENTRIES};
ghost use Rattle.ll_seq.specs.declared.call.Call.{Call};
ghost use Rattle.ll_seq.specs.declared.reply.Entry.{Entry};
ghost use Rattle.ll_seq.specs.declared.reply.Reply.{Reply};
ghost use Rattle.ll_seq.specs.declared.reply.Reply.TheVariants.{Listed};
ghost use Rattle.ll_wire.specs.declared.header.Header.{Header};
ghost use Rattle.ll_wire.specs.Entries.{IsEntry, entry_line, SpellsEntry, SpellsHeader};
ghost use Rattle.ll_wire.specs.Grammar.{SpellsCommand, SpellsReply};
ghost use Rattle.ll_wire.specs.ScheduleLines.{SpellsScheduleLine};
ghost use Rattle.ll_wire.specs.declared.schedule.ScheduleLine.{ScheduleLine};

/// A line spells at most one command, of one client.
pub fn spells_one()
    ensures { (line : List ℕ) (client other_client : ℕ) (call other_call : Call) → SpellsCommand line client call
        → SpellsCommand line other_client other_call → (client ≡ other_client) × (call ≡ other_call) }
{}

/// A line spells at most one reply.
pub fn spells_one_reply()
    ensures { (line : List ℕ) (reply other : Reply) → SpellsReply line reply → SpellsReply line other → reply ≡ other }
{}

/// A line spells at most one entry of a history. In particular, the end of its call is unique.
pub fn spells_one_entry()
    ensures { (line : List ℕ) (entry other : Entry) → SpellsEntry line entry → SpellsEntry line other → entry ≡ other }
{}

/// An entry's line never exceeds the length that is read, unless it lists more names than a directory can have.
pub fn entries_fit()
    ensures { (entry : Entry) → IsEntry entry
        → ((names : List (List ℕ)) → entry.reply ≡ Listed names → length names ≤ DIRECTORY_ENTRIES)
        → SpellsEntry (entry_line entry) entry }
{}

/// A line of a schedule spells at most one step, or the steps of one call.
pub fn spells_one_schedule_line()
    ensures { (line : List ℕ) (value other : ScheduleLine) → SpellsScheduleLine line value
        → SpellsScheduleLine line other → value ≡ other }
{}

/// A line spells at most one header of a history.
pub fn spells_one_header()
    ensures { (line : List ℕ) (header other : Header) → SpellsHeader line header → SpellsHeader line other
        → header ≡ other }
{}
