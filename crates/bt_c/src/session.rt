//! A table that lives between calls, or is in a file, and the replies that can be copied.
ghost use Rattle.std.specs.Prelude.{◌≡◌, ◌≢◌, ◌-◌, ◌++◌, [], Err, IfErr, IfOk, IfSome, IsErrOf, Ok, OnErr, OnOk, None, Some, drop, false, flat_map, length, min, take, true};
ghost use Rattle.std.specs.Option.{MatchOption};
ghost use Rattle.bt_script.specs.Commands.{commands};
ghost use Rattle.bt_shell.specs.Faults.{StopsBetweenReplies, StopsWithinReply, lost_reply};
ghost use Rattle.bt_shell.specs.Runs.{after_commands, refused_count, replies};
ghost use Rattle.bt_table.specs.Standing.{IsConsistent, IsSound};
ghost use Rattle.bt_table.specs.Tables.{Lost};
ghost use Rattle.bt_c.specs.Reasons.{FirstIsRefused};
ghost use Rattle.bt_fault.specs.Commands.{first_reason};
ghost use Rattle.bt_c.specs.Replies.{checked_marks, marks_of};
ghost use Rattle.bt_packed.specs.Questions.{KeepsOrLoses, answer_of, applied_to, no_table, reply_from};
ghost use Rattle.bt_c.specs.Kept.{HasBegun, HasCheckpoint, HasCommitted, HasJoined, HasNoFile, HasRead, HasRun, IsClosed, IsOpened, IsRefused, IsUnread, SameFile, head_with, table_asked};
ghost use Rattle.bt_c.specs.Sessions.{is_lost};

use crate::kept::{
    KeptGroup, KeptOpening, KeptTable, add_to_group, begin_group, begin_opening, commit_group,
    compact_kept, end_opening, read_piece, run_kept, table_in, table_in_group,
};
use crate::reply::{ReplyMark, ReplyMarks};
use bt_engine::alone;
use bt_fault::{Reason, script_reason};
use bt_journal::{Fault as FileFault, HostCall};
use bt_packed::{Fault, Question, ReplyRoom, apply, ask};
use bt_script::{Counted, RunFault};
use bt_shell::{check_commands, run_commands};
use bt_table::Table;
use bt_value::Refusal;
use std::alloc::{AllocError, Global};
use std::mem;

/// The table, if there is one; the replies to the last script, the number of its commands that were refused, and where the reply to each of them ends; the table
/// in a file, if the session was opened with one, or a group of requests to it, or the file while the host reads it; and the calls of the file that the host is to
/// make.
#[derive(Drop)]
pub struct Session {
    pub table: Option<Table>,
    pub text: Vec<u8>,
    pub refused: usize,
    pub marks: Vec<ReplyMark>,
    pub kept: Option<KeptTable>,
    pub group: Option<KeptGroup>,
    pub opening: Option<KeptOpening>,
    pub calls: Vec<HostCall>,
}

// Carries out the commands of a script on a table, appends their replies to a text, and returns the number of refused commands.
fn run_into(
    alloc: Global,
    script: &[u8],
    table: &mut Option<Table>,
    text: &mut Vec<u8>,
    marks: &mut ReplyMarks,
) -> Result<usize, RunFault>
    ensures written { OnOk result (text.new.items ≡ text.old.items ++ replies table.old (commands script.now)) }
    ensures state { OnOk result (table.new ≡ after_commands table.old (commands script.now)) }
    ensures refused { IfOk result (λ count. count ≡ refused_count table.old (commands script.now)) }
    ensures marks { marks.old ≡ [] → OnOk result (marks.new ≡ marks_of table.old (commands script.now)) }
    ensures no_read { IsErrOf result RunFault.Read → ⊥ }
    ensures write { IsErrOf result RunFault.Write → StopsWithinReply (λ bytes. text.new.items ≡ text.old.items ++ bytes) table.old table.new script.now }
    ensures memory { IsErrOf result RunFault.OutOfMemory → StopsBetweenReplies (λ bytes. text.new.items ≡ text.old.items ++ bytes) table.old table.new script.now }
    ensures lost { table.old ≡ Some Lost → (table.new ≡ Some Lost) × (replies table.old (commands script.now) ≡ flat_map lost_reply (commands script.now)) }
    ensures consistent { IfSome table.new IsConsistent }
    ensures kept { IfSome table.old IsSound → OnOk result (IfSome table.new IsSound) }
{
    let mut writer = Counted::new(mem::replace(text, Vec::new(alloc)));
    let counted = run_commands(&alone(alloc), script, table, &mut writer, marks);
    *text = writer.into_inner();
    counted
}

impl Session {
    pub fn new(alloc: Global) -> Session
        ensures table { result.table ≡ None }
        ensures text { result.text.items ≡ [] }
        ensures refused { result.refused ≡ 0 }
        ensures marks { result.marks.items ≡ [] }
        ensures file { HasNoFile result }
    {
        Session {
            table: None,
            text: Vec::new(alloc),
            refused: 0,
            marks: Vec::new(alloc),
            kept: None,
            group: None,
            opening: None,
            calls: Vec::new(alloc),
        }
    }

    /// A session that opens the table in a file, of which nothing was read. If the file is empty, it gets a head with this salt.
    pub fn of_file(alloc: Global, salt: u64) -> Result<Session, FileFault>
        ensures opening { IfOk result (λ session. MatchOption session.opening ⊥ (IsUnread (head_with salt))) }
        ensures file { IfOk result (λ session. IsClosed session × (session.group ≡ None)) }
        ensures table { IfOk result (λ session. session.table ≡ None) }
        ensures text { IfOk result (λ session. session.text.items ≡ []) }
    {
        let opening = begin_opening(alloc, salt)?;
        let mut session = Session::new(alloc);
        session.opening = Some(opening);
        Ok(session)
    }

    /// Adds the next bytes of the file.
    pub fn read_file(&mut self, alloc: Global, piece: &[u8]) -> Result<(), FileFault>
        ensures read { OnOk result (MatchOption self.old.opening ⊥ (λ old. MatchOption self.new.opening ⊥ (λ new. HasRead old new piece.now))) }
        ensures not_opening { self.old.opening ≡ None → IsErrOf result FileFault.Closed }
        ensures failed { OnErr result (self.new.opening ≡ None) }
        ensures file { (self.new.kept ≡ self.old.kept) × (self.new.group ≡ self.old.group) × (self.new.calls ≡ self.old.calls) }
        ensures table { self.new.table ≡ self.old.table }
        ensures text { self.new.text ≡ self.old.text }
        ensures refused { self.new.refused ≡ self.old.refused }
        ensures marks { self.new.marks ≡ self.old.marks }
    {
        let Some(opening) = mem::replace(&mut self.opening, None) else {
            return Err(FileFault::Closed);
        };
        let read = read_piece(alloc, opening, piece)?;
        self.opening = Some(read);
        Ok(())
    }

    /// Opens the table in the file, of which all bytes were read. The replies are emptied.
    pub fn end_file(&mut self, alloc: Global) -> Result<(), FileFault>
        ensures opened { OnOk result (MatchOption self.old.opening ⊥ (λ opening. MatchOption self.new.kept ⊥ (λ kept. IsOpened opening kept self.new.calls.items))) }
        ensures not_opening { self.old.opening ≡ None → IsErrOf result FileFault.Closed }
        ensures failed { OnErr result ((self.new.kept ≡ self.old.kept) × (self.new.calls.items ≡ [])) }
        ensures opening { self.new.opening ≡ None }
        ensures group { self.new.group ≡ self.old.group }
        ensures text { self.new.text.items ≡ [] }
        ensures table { self.new.table ≡ self.old.table }
        ensures refused { self.new.refused ≡ 0 }
        ensures marks { self.new.marks.items ≡ [] }
    {
        self.clear();
        self.calls.clear();
        let Some(opening) = mem::replace(&mut self.opening, None) else {
            return Err(FileFault::Closed);
        };
        let (kept, calls) = end_opening(alloc, opening)?;
        self.kept = Some(kept);
        self.calls = calls;
        Ok(())
    }

    // Empties the replies and their marks, and sets the number of refused commands to 0.
    fn clear(&mut self)
        ensures table { self.new.table ≡ self.old.table }
        ensures text { self.new.text.items ≡ [] }
        ensures refused { self.new.refused ≡ 0 }
        ensures marks { self.new.marks.items ≡ [] }
        ensures file { SameFile self.old self.new }
    {
        self.text.clear();
        self.refused = 0;
        self.marks.clear();
    }

    /// Carries out the commands of a script. Their replies replace the previous ones.
    pub fn run(&mut self, alloc: Global, script: &[u8]) -> Result<(), RunFault>
        ensures written { OnOk result (self.new.text.items ≡ replies self.old.table (commands script.now)) }
        ensures state { OnOk result (self.new.table ≡ after_commands self.old.table (commands script.now)) }
        ensures refused { OnOk result (self.new.refused ≡ refused_count self.old.table (commands script.now)) }
        ensures uncounted { OnErr result (self.new.refused ≡ 0) }
        ensures marks { OnOk result (self.new.marks.items ≡ marks_of self.old.table (commands script.now)) }
        ensures unmarked { OnErr result (self.new.marks.items ≡ []) }
        ensures no_read { IsErrOf result RunFault.Read → ⊥ }
        ensures write { IsErrOf result RunFault.Write → StopsWithinReply (λ bytes. self.new.text.items ≡ bytes) self.old.table self.new.table script.now }
        ensures memory { IsErrOf result RunFault.OutOfMemory → StopsBetweenReplies (λ bytes. self.new.text.items ≡ bytes) self.old.table self.new.table script.now }
        ensures lost { self.old.table ≡ Some Lost → (self.new.table ≡ Some Lost) × (replies self.old.table (commands script.now) ≡ flat_map lost_reply (commands script.now)) }
        ensures consistent { IfSome self.new.table IsConsistent }
        ensures kept { IfSome self.old.table IsSound → OnOk result (IfSome self.new.table IsSound) }
        ensures file { SameFile self.old self.new }
    {
        self.clear();
        let mut log = ReplyMarks {
            marks: mem::replace(&mut self.marks, Vec::new(alloc)),
        };
        self.refused = run_into(alloc, script, &mut self.table, &mut self.text, &mut log)?;
        self.marks = log.marks;
        Ok(())
    }

    // The table that is asked.
    fn table_asked(&self) -> &Option<Table>
        ensures { result.now ≡ table_asked self.now }
    {
        if let Some(group) = &self.group {
            return table_in_group(group);
        }
        match &self.kept {
            Some(kept) => table_in(kept),
            None => &self.table,
        }
    }

    /// Keeps of each command of a script what it would do, by itself, to the table as it is. The replies are emptied.
    pub fn check(&mut self, alloc: Global, script: &[u8]) -> Result<(), AllocError>
        ensures marks { OnOk result (self.new.marks.items ≡ checked_marks (table_asked self.old) (commands script.now)) }
        ensures unmarked { OnErr result (self.new.marks.items ≡ []) }
        ensures table { self.new.table ≡ self.old.table }
        ensures text { self.new.text.items ≡ [] }
        ensures refused { self.new.refused ≡ 0 }
        ensures file { SameFile self.old self.new }
    {
        self.clear();
        let mut log = ReplyMarks {
            marks: mem::replace(&mut self.marks, Vec::new(alloc)),
        };
        check_commands(alloc, script, self.table_asked(), &mut log)?;
        self.marks = log.marks;
        Ok(())
    }

    /// Why the first command of a script would be refused because of its records, on the table as it is.
    pub fn explain(&self, alloc: Global, script: &[u8]) -> Result<Option<Reason>, AllocError>
        ensures reason { IfOk result (λ reason. reason ≡ first_reason (table_asked self.now) (commands script.now)) }
        ensures refused { IfOk result (λ reason. IfSome reason (λ r. FirstIsRefused (table_asked self.now) (commands script.now) r.refusal)) }
    {
        script_reason(alloc, self.table_asked(), script)
    }

    /// Applies packed changes to the table. The replies are emptied.
    pub fn apply(&mut self, alloc: Global, changes: &[u8]) -> Result<(), Fault>
        ensures done { OnOk result (applied_to self.old.table changes.now ≡ Ok self.new.table) }
        ensures fault { IfErr result (λ fault. fault.refusal ≢ Refusal.OutOfMemory → (applied_to self.old.table changes.now ≡ Err fault) × (self.new.table ≡ self.old.table)) }
        ensures memory { IfErr result (λ fault. fault.refusal ≡ Refusal.OutOfMemory → KeepsOrLoses self.old.table self.new.table) }
        ensures certain { self.old.table ≡ None → IsErrOf result no_table }
        ensures text { self.new.text.items ≡ [] }
        ensures refused { self.new.refused ≡ 0 }
        ensures marks { self.new.marks.items ≡ [] }
        ensures consistent { IfSome self.new.table IsConsistent }
        ensures file { SameFile self.old self.new }
    {
        self.clear();
        apply(&alone(alloc), &mut self.table, changes)
    }

    // Takes the memory of the replies, into which the next one is written.
    fn take_room(&mut self, alloc: Global) -> ReplyRoom
        ensures table { self.new.table ≡ self.old.table }
        ensures text { self.new.text.items ≡ [] }
        ensures refused { self.new.refused ≡ 0 }
        ensures marks { self.new.marks.items ≡ [] }
        ensures file { SameFile self.old self.new }
    {
        self.refused = 0;
        self.marks.clear();
        ReplyRoom::of(mem::replace(&mut self.text, Vec::new(alloc)))
    }

    /// Replies to a question in packed bytes.
    pub fn ask(&mut self, alloc: Global, question: Question, bytes: &[u8]) -> Result<(), Fault>
        ensures done { OnOk result (reply_from (answer_of question) (table_asked self.old) bytes.now ≡ Ok self.new.text.items) }
        ensures fault { IfErr result (λ fault. fault.refusal ≢ Refusal.OutOfMemory → reply_from (answer_of question) (table_asked self.old) bytes.now ≡ Err fault) }
        ensures certain { table_asked self.old ≡ None → IsErrOf result no_table }
        ensures no_text { IfErr result (λ _. self.new.text.items ≡ []) }
        ensures table { self.new.table ≡ self.old.table }
        ensures refused { self.new.refused ≡ 0 }
        ensures marks { self.new.marks.items ≡ [] }
        ensures file { SameFile self.old self.new }
    {
        let room = self.take_room(alloc);
        self.text = ask(&alone(alloc), self.table_asked(), question, bytes, room)?;
        Ok(())
    }

    /// Whether the table was lost because memory ran out.
    pub fn is_lost(&self) -> bool
        ensures { result ≡ is_lost (table_asked self.now) }
    {
        match self.table_asked() {
            None => false,
            Some(table) => table.schema().is_err(),
        }
    }

    /// Carries out requests on the table in the file. The frames of their replies are the replies.
    pub fn run_in_file(&mut self, alloc: Global, requests: &[u8]) -> Result<(), FileFault>
        ensures done { OnOk result (MatchOption self.old.kept ⊥ (λ old. MatchOption self.new.kept ⊥ (λ new. HasRun old new requests.now self.new.text.items self.new.calls.items))) }
        ensures not_kept { self.old.kept ≡ None → IsErrOf result FileFault.Closed }
        ensures failed { OnErr result (IsClosed self.new) }
        ensures text { OnErr result (self.new.text.items ≡ []) }
        ensures table { self.new.table ≡ self.old.table }
        ensures group { self.new.group ≡ self.old.group }
        ensures refused { self.new.refused ≡ 0 }
        ensures marks { self.new.marks.items ≡ [] }
    {
        self.clear();
        self.calls.clear();
        let Some(mut kept) = mem::replace(&mut self.kept, None) else {
            return Err(FileFault::Closed);
        };
        let mut replies = mem::replace(&mut self.text, Vec::new(alloc));
        self.calls = run_kept(alloc, &mut kept, requests, &mut replies)?;
        self.text = replies;
        self.kept = Some(kept);
        Ok(())
    }

    /// Replaces the requests in the file by the state. The replies are emptied.
    pub fn compact_file(&mut self, alloc: Global) -> Result<(), FileFault>
        ensures done { OnOk result (MatchOption self.old.kept ⊥ (λ old. MatchOption self.new.kept ⊥ (λ new. HasCheckpoint old new self.new.calls.items))) }
        ensures not_kept { self.old.kept ≡ None → IsErrOf result FileFault.Closed }
        ensures failed { OnErr result (IsClosed self.new) }
        ensures text { self.new.text.items ≡ [] }
        ensures table { self.new.table ≡ self.old.table }
        ensures group { self.new.group ≡ self.old.group }
        ensures refused { self.new.refused ≡ 0 }
        ensures marks { self.new.marks.items ≡ [] }
    {
        self.clear();
        self.calls.clear();
        let Some(mut kept) = mem::replace(&mut self.kept, None) else {
            return Err(FileFault::Closed);
        };
        self.calls = compact_kept(alloc, &mut kept)?;
        self.kept = Some(kept);
        Ok(())
    }

    /// Begins a group of requests to the table in the file. The replies are emptied.
    pub fn begin_group(&mut self, alloc: Global) -> Result<(), FileFault>
        ensures done { OnOk result (MatchOption self.old.kept ⊥ (λ kept. MatchOption self.new.group ⊥ (λ group. HasBegun kept group))) }
        ensures not_kept { self.old.kept ≡ None → IsErrOf result FileFault.Closed × (self.new.group ≡ self.old.group) }
        ensures file { IsClosed self.new }
        ensures text { self.new.text.items ≡ [] }
        ensures table { self.new.table ≡ self.old.table }
        ensures refused { self.new.refused ≡ 0 }
        ensures marks { self.new.marks.items ≡ [] }
    {
        self.clear();
        self.calls.clear();
        let Some(kept) = mem::replace(&mut self.kept, None) else {
            return Err(FileFault::Closed);
        };
        let group = begin_group(alloc, kept)?;
        self.group = Some(group);
        Ok(())
    }

    /// Carries out requests of the group. The frames of their replies are the replies. Returns whether it did: `false` if the requests are not whole frames.
    pub fn add_to_group(&mut self, alloc: Global, requests: &[u8]) -> Result<bool, FileFault>
        ensures done { IfOk result (λ is_done. is_done ≡ true → MatchOption self.old.group ⊥ (λ old. MatchOption self.new.group ⊥ (λ new. HasJoined old new requests.now self.new.text.items))) }
        ensures refused { IfOk result (λ is_done. is_done ≡ false → MatchOption self.old.group ⊥ (λ old. MatchOption self.new.group ⊥ (λ new. IsRefused old new requests.now))) }
        ensures no_group { self.old.group ≡ None → IsErrOf result FileFault.Closed }
        ensures failed { OnErr result (self.new.group ≡ None) }
        ensures text { OnErr result (self.new.text.items ≡ []) }
        ensures kept { self.new.kept ≡ self.old.kept }
        ensures calls { self.new.calls.items ≡ [] }
        ensures table { self.new.table ≡ self.old.table }
        ensures refused_count { self.new.refused ≡ 0 }
        ensures marks { self.new.marks.items ≡ [] }
    {
        self.clear();
        self.calls.clear();
        let Some(mut group) = mem::replace(&mut self.group, None) else {
            return Err(FileFault::Closed);
        };
        let mut replies = mem::replace(&mut self.text, Vec::new(alloc));
        let is_done = add_to_group(alloc, &mut group, requests, &mut replies)?;
        if is_done {
            self.text = replies;
        }
        self.group = Some(group);
        Ok(is_done)
    }

    /// Keeps the requests of the group. The replies are emptied.
    pub fn commit_group(&mut self, alloc: Global) -> Result<(), FileFault>
        ensures done { OnOk result (MatchOption self.old.group ⊥ (λ group. MatchOption self.new.kept ⊥ (λ kept. HasCommitted group kept self.new.calls.items))) }
        ensures no_group { self.old.group ≡ None → IsErrOf result FileFault.Closed }
        ensures failed { OnErr result ((self.new.kept ≡ self.old.kept) × (self.new.calls.items ≡ [])) }
        ensures group { self.new.group ≡ None }
        ensures text { self.new.text.items ≡ [] }
        ensures table { self.new.table ≡ self.old.table }
        ensures refused { self.new.refused ≡ 0 }
        ensures marks { self.new.marks.items ≡ [] }
    {
        self.clear();
        self.calls.clear();
        let Some(group) = mem::replace(&mut self.group, None) else {
            return Err(FileFault::Closed);
        };
        let (kept, calls) = commit_group(alloc, group)?;
        self.kept = Some(kept);
        self.calls = calls;
        Ok(())
    }

    /// Whether a checkpoint of the file is due.
    pub fn is_checkpoint_due(&self) -> bool {
        match &self.kept {
            None => false,
            Some(kept) => kept.is_checkpoint_due(),
        }
    }
}

/// Copies bytes from a place on, as many as there are and as fit, and returns their number.
pub(crate) fn copy_from(bytes: &[u8], from: usize, out: &mut [u8]) -> usize
    ensures bytes { take result out.new ≡ take result (drop from bytes.now) }
    ensures rest { drop result out.new ≡ drop result out.old }
    ensures count { result ≡ min (length bytes.now - from) (length out.old) }
{
    let Some(rest) = bytes.get(from..) else {
        return 0;
    };
    let count = rest.len().min(out.len());
    out[..count].copy_from_slice(&rest[..count]);
    count
}
