//! The calls on a table in a file, whose calls the host makes.
ghost use Rattle.std.specs.Prelude.{◌≡◌, ◌≢◌, ◌-◌, [], IfSome, None, Some, drop, is_some, length, min, option_map, slice_get, take, true, false};
ghost use Rattle.std.specs.Option.{MatchOption};
ghost use Rattle.bt_c.specs.Kept.{HasBegun, HasCheckpoint, HasCommitted, HasJoined, HasRead, HasRun, InFile, IsClosed, IsOpened, IsRefused, IsUnread, bytes_at, call_in_c, head_with};
ghost use Rattle.bt_c.specs.Sessions.{StaysOpen, code_of, session_of};
ghost use Rattle.bt_c.specs.declared.status.Status.TheVariants as status;

use crate::file_call::{CallInC, bytes_at, call_at};
use crate::handle::Handle;
use crate::kept::status_of;
use crate::sent;
use crate::session::{Session, copy_from};
use crate::status::Status;
use std::alloc::Global;

/// Opens a session for the table in a file, which the host has opened, locked and synced, and of which it has read nothing. The session has no other table. An empty
/// file gets a head with a salt, which is a random number.
///
/// The host then passes all bytes of the file to [`betable_keep_read`], in order, and calls [`betable_keep_end_of_file`]. After any other result than `Done` the
/// handle is as it was.
#[unsafe(no_mangle)]
pub extern "C" fn betable_keep_open(alloc: Global, handle: &mut Handle, salt: u64) -> u32
    ensures opened { result ≡ code_of status.Done → MatchOption (session_of handle.new) ⊥ (λ session. MatchOption session.opening ⊥ (IsUnread (head_with salt))) }
    ensures empty { result ≡ code_of status.Done → IfSome (session_of handle.new) (λ session. (session.table ≡ None) × (session.text.items ≡ []) × IsClosed session × (session.group ≡ None)) }
    ensures unchanged { result ≢ code_of status.Done → session_of handle.new ≡ session_of handle.old }
    ensures refused { is_some (session_of handle.old) ≡ true → result ≡ code_of status.AlreadyOpen }
{
    if handle.is_open() {
        return Status::AlreadyOpen.code();
    }
    match Session::of_file(alloc, salt) {
        Ok(opened) => {
            let Ok(session) = Box::new(alloc, opened) else {
                return Status::OutOfMemory.code();
            };
            *handle = sent(Handle::of(session));
            Status::Done.code()
        }
        Err(fault) => status_of(fault).code(),
    }
}

/// Adds the next bytes of the file, and carries out the requests in them.
///
/// After any other result than `Done` the session has no file: it is not opened, and no call of it is to be made. `NotKept`: the session opens no file.
#[unsafe(no_mangle)]
pub extern "C" fn betable_keep_read(alloc: Global, handle: &mut Handle, piece: &[u8]) -> u32
    ensures closed { session_of handle.old ≡ None → (result ≡ code_of status.NotOpen) × (session_of handle.new ≡ None) }
    ensures open { is_some (session_of handle.new) ≡ is_some (session_of handle.old) }
    ensures not_opening { IfSome (session_of handle.old) (λ session. session.opening ≡ None → result ≡ code_of status.NotKept) }
    ensures done { result ≡ code_of status.Done → StaysOpen handle.old handle.new (λ old new. MatchOption old.opening ⊥ (λ before. MatchOption new.opening ⊥ (λ after. HasRead before after piece.now))) }
    ensures failed { result ≢ code_of status.Done → IfSome (session_of handle.new) (λ session. session.opening ≡ None) }
    ensures file { is_some (session_of handle.old) ≡ true → StaysOpen handle.old handle.new (λ old new. (new.kept ≡ old.kept) × (new.group ≡ old.group) × (new.calls ≡ old.calls)) }
    ensures table { is_some (session_of handle.old) ≡ true → StaysOpen handle.old handle.new (λ old new. new.table ≡ old.table) }
{
    let Some(mut session) = handle.take(alloc) else {
        return Status::NotOpen.code();
    };
    let ended = session.read_file(alloc, piece);
    *handle = Handle::of(session);
    match ended {
        Ok(()) => Status::Done.code(),
        Err(fault) => status_of(fault).code(),
    }
}

/// Opens the table in the file, all bytes of which were passed to [`betable_keep_read`]. The replies are emptied.
///
/// `Done`: the host is to make the calls of [`betable_file_call_at`], in order. A crash at any moment leaves a file of the same state. After any other result the
/// session has no file, and no call of it is to be made. `NotKept`: the session opens no file.
#[unsafe(no_mangle)]
pub extern "C" fn betable_keep_end_of_file(alloc: Global, handle: &mut Handle) -> u32
    ensures closed { session_of handle.old ≡ None → (result ≡ code_of status.NotOpen) × (session_of handle.new ≡ None) }
    ensures open { is_some (session_of handle.new) ≡ is_some (session_of handle.old) }
    ensures not_opening { IfSome (session_of handle.old) (λ session. session.opening ≡ None → result ≡ code_of status.NotKept) }
    ensures done { result ≡ code_of status.Done → StaysOpen handle.old handle.new (λ old new. MatchOption old.opening ⊥ (λ opening. MatchOption new.kept ⊥ (λ kept. IsOpened opening kept new.calls.items))) }
    ensures failed { result ≢ code_of status.Done → is_some (session_of handle.old) ≡ true → StaysOpen handle.old handle.new (λ old new. (new.kept ≡ old.kept) × (new.calls.items ≡ [])) }
    ensures read { IfSome (session_of handle.new) (λ session. (session.opening ≡ None) × (session.text.items ≡ [])) }
    ensures table { is_some (session_of handle.old) ≡ true → StaysOpen handle.old handle.new (λ old new. (new.table ≡ old.table) × (new.group ≡ old.group)) }
{
    let Some(mut session) = handle.take(alloc) else {
        return Status::NotOpen.code();
    };
    let ended = session.end_file(alloc);
    *handle = Handle::of(session);
    match ended {
        Ok(()) => Status::Done.code(),
        Err(fault) => status_of(fault).code(),
    }
}

/// Carries out requests on the table in the file: frames, one after the other. The replies are the frames of theirs.
///
/// `Done`: the host is to make the calls of [`betable_file_call_at`], in order, before it uses a reply. A crash at any moment leaves a file of the state before all of
/// the requests, or after all of them. After any other result the session has no table in a file: none of its calls is to be made, and the file has the state of
/// before. Open it again.
#[unsafe(no_mangle)]
pub extern "C" fn betable_keep_run(alloc: Global, handle: &mut Handle, requests: &[u8]) -> u32
    ensures closed { session_of handle.old ≡ None → (result ≡ code_of status.NotOpen) × (session_of handle.new ≡ None) }
    ensures open { is_some (session_of handle.new) ≡ is_some (session_of handle.old) }
    ensures not_kept { IfSome (session_of handle.old) (λ session. session.kept ≡ None → result ≡ code_of status.NotKept) }
    ensures done { result ≡ code_of status.Done → StaysOpen handle.old handle.new (λ old new. InFile (λ before after. HasRun before after requests.now new.text.items new.calls.items) old new) }
    ensures failed { result ≢ code_of status.Done → IfSome (session_of handle.new) (λ session. IsClosed session × (session.text.items ≡ [])) }
    ensures table { is_some (session_of handle.old) ≡ true → StaysOpen handle.old handle.new (λ old new. new.table ≡ old.table) }
{
    let Some(mut session) = handle.take(alloc) else {
        return Status::NotOpen.code();
    };
    let ended = session.run_in_file(alloc, requests);
    *handle = Handle::of(session);
    match ended {
        Ok(()) => Status::Done.code(),
        Err(fault) => status_of(fault).code(),
    }
}

/// Replaces the requests in the file by the state, unless it cannot be compacted now, as while an index is being built. The replies are emptied. Results are those of
/// [`betable_keep_run`].
#[unsafe(no_mangle)]
pub extern "C" fn betable_keep_checkpoint(alloc: Global, handle: &mut Handle) -> u32
    ensures closed { session_of handle.old ≡ None → (result ≡ code_of status.NotOpen) × (session_of handle.new ≡ None) }
    ensures open { is_some (session_of handle.new) ≡ is_some (session_of handle.old) }
    ensures not_kept { IfSome (session_of handle.old) (λ session. session.kept ≡ None → result ≡ code_of status.NotKept) }
    ensures done { result ≡ code_of status.Done → StaysOpen handle.old handle.new (λ old new. InFile (λ before after. HasCheckpoint before after new.calls.items) old new) }
    ensures failed { result ≢ code_of status.Done → IfSome (session_of handle.new) IsClosed }
    ensures unanswered { IfSome (session_of handle.new) (λ session. session.text.items ≡ []) }
    ensures table { is_some (session_of handle.old) ≡ true → StaysOpen handle.old handle.new (λ old new. new.table ≡ old.table) }
{
    let Some(mut session) = handle.take(alloc) else {
        return Status::NotOpen.code();
    };
    let ended = session.compact_file(alloc);
    *handle = Handle::of(session);
    match ended {
        Ok(()) => Status::Done.code(),
        Err(fault) => status_of(fault).code(),
    }
}

/// Begins a group: the requests of [`betable_keep_add`] that follow are kept together by [`betable_keep_commit`], or none of them. The replies are emptied.
///
/// `Done`: there is no call of the file to make. `NotKept`: the session has no table in a file, or is in a group already.
#[unsafe(no_mangle)]
pub extern "C" fn betable_keep_begin(alloc: Global, handle: &mut Handle) -> u32
    ensures closed { session_of handle.old ≡ None → (result ≡ code_of status.NotOpen) × (session_of handle.new ≡ None) }
    ensures open { is_some (session_of handle.new) ≡ is_some (session_of handle.old) }
    ensures not_kept { is_some (session_of handle.old) ≡ true → StaysOpen handle.old handle.new (λ old new. old.kept ≡ None → (result ≡ code_of status.NotKept) × (new.group ≡ old.group)) }
    ensures done { result ≡ code_of status.Done → StaysOpen handle.old handle.new (λ old new. MatchOption old.kept ⊥ (λ kept. MatchOption new.group ⊥ (λ group. HasBegun kept group))) }
    ensures file { IfSome (session_of handle.new) (λ session. IsClosed session × (session.text.items ≡ [])) }
    ensures table { is_some (session_of handle.old) ≡ true → StaysOpen handle.old handle.new (λ old new. new.table ≡ old.table) }
{
    let Some(mut session) = handle.take(alloc) else {
        return Status::NotOpen.code();
    };
    let ended = session.begin_group(alloc);
    *handle = Handle::of(session);
    match ended {
        Ok(()) => Status::Done.code(),
        Err(fault) => status_of(fault).code(),
    }
}

/// Carries out requests of a group: frames, one after the other. The replies are the frames of theirs, and are to be used once the group is kept.
///
/// `Done`: there is no call of the file to make. `Refused`: the requests are not whole frames, and nothing has changed. After any other result there is no group,
/// and the file has the state of before it. Open it again.
#[unsafe(no_mangle)]
pub extern "C" fn betable_keep_add(alloc: Global, handle: &mut Handle, requests: &[u8]) -> u32
    ensures closed { session_of handle.old ≡ None → (result ≡ code_of status.NotOpen) × (session_of handle.new ≡ None) }
    ensures open { is_some (session_of handle.new) ≡ is_some (session_of handle.old) }
    ensures no_group { IfSome (session_of handle.old) (λ session. session.group ≡ None → result ≡ code_of status.NotKept) }
    ensures done { result ≡ code_of status.Done → StaysOpen handle.old handle.new
        (λ old new. MatchOption old.group ⊥ (λ before. MatchOption new.group ⊥ (λ after. HasJoined before after requests.now new.text.items))) }
    ensures refused { result ≡ code_of status.Refused → StaysOpen handle.old handle.new
        (λ old new. MatchOption old.group ⊥ (λ before. MatchOption new.group ⊥ (λ after. IsRefused before after requests.now))) }
    ensures failed { result ≢ code_of status.Done → result ≢ code_of status.Refused → IfSome (session_of handle.new) (λ session. session.group ≡ None) }
    ensures calls { IfSome (session_of handle.new) (λ session. session.calls.items ≡ []) }
    ensures kept { is_some (session_of handle.old) ≡ true → StaysOpen handle.old handle.new (λ old new. (new.kept ≡ old.kept) × (new.table ≡ old.table)) }
{
    let Some(mut session) = handle.take(alloc) else {
        return Status::NotOpen.code();
    };
    let ended = session.add_to_group(alloc, requests);
    *handle = Handle::of(session);
    match ended {
        Ok(true) => Status::Done.code(),
        Ok(false) => Status::Refused.code(),
        Err(fault) => status_of(fault).code(),
    }
}

/// Keeps the requests of a group. The replies are emptied.
///
/// `Done`: the host is to make the calls of [`betable_file_call_at`], in order, before it uses a reply to a request of the group. A crash at any moment leaves a file
/// of the state before all of them, or after all of them. After any other result there is no group, and the file has the state of before it. Open it again.
#[unsafe(no_mangle)]
pub extern "C" fn betable_keep_commit(alloc: Global, handle: &mut Handle) -> u32
    ensures closed { session_of handle.old ≡ None → (result ≡ code_of status.NotOpen) × (session_of handle.new ≡ None) }
    ensures open { is_some (session_of handle.new) ≡ is_some (session_of handle.old) }
    ensures no_group { IfSome (session_of handle.old) (λ session. session.group ≡ None → result ≡ code_of status.NotKept) }
    ensures done { result ≡ code_of status.Done → StaysOpen handle.old handle.new
        (λ old new. MatchOption old.group ⊥ (λ group. MatchOption new.kept ⊥ (λ kept. HasCommitted group kept new.calls.items))) }
    ensures failed { result ≢ code_of status.Done → IfSome (session_of handle.new) (λ session. session.calls.items ≡ []) }
    ensures group { IfSome (session_of handle.new) (λ session. (session.group ≡ None) × (session.text.items ≡ [])) }
    ensures table { is_some (session_of handle.old) ≡ true → StaysOpen handle.old handle.new (λ old new. new.table ≡ old.table) }
{
    let Some(mut session) = handle.take(alloc) else {
        return Status::NotOpen.code();
    };
    let ended = session.commit_group(alloc);
    *handle = Handle::of(session);
    match ended {
        Ok(()) => Status::Done.code(),
        Err(fault) => status_of(fault).code(),
    }
}

/// Whether a checkpoint of the file is due: it has 16 MiB, and twice as many bytes as after the last one.
#[unsafe(no_mangle)]
pub extern "C" fn betable_keep_is_due(alloc: Global, handle: &mut Handle) -> bool
    ensures kept { session_of handle.new ≡ session_of handle.old }
{
    let Some(session) = handle.take(alloc) else {
        return false;
    };
    let is_due = session.is_checkpoint_due();
    *handle = Handle::of(session);
    is_due
}

/// The number of calls of the file that the host is to make: those of the last call on the table in it.
#[unsafe(no_mangle)]
pub extern "C" fn betable_file_call_count(alloc: Global, handle: &mut Handle) -> usize
    ensures count { MatchOption (session_of handle.old) (result ≡ 0) (λ session. result ≡ length session.calls.items) }
    ensures kept { session_of handle.new ≡ session_of handle.old }
{
    let Some(session) = handle.take(alloc) else {
        return 0;
    };
    let count = session.calls.len();
    *handle = Handle::of(session);
    count
}

/// The call of the file at a place, counted from 0. Returns whether there is one.
#[unsafe(no_mangle)]
pub extern "C" fn betable_file_call_at(
    alloc: Global,
    handle: &mut Handle,
    place: usize,
    call: &mut CallInC,
) -> bool
    ensures found { result ≡ true → MatchOption (session_of handle.old) ⊥ (λ session. option_map call_in_c (slice_get session.calls.items place) ≡ Some call.new) }
    ensures none { result ≡ false → IfSome (session_of handle.old) (λ session. slice_get session.calls.items place ≡ None) }
    ensures unchanged { result ≡ false → call.new ≡ call.old }
    ensures kept { session_of handle.new ≡ session_of handle.old }
{
    let Some(session) = handle.take(alloc) else {
        return false;
    };
    let found = call_at(session.calls.as_slice(), place);
    *handle = Handle::of(session);
    match found {
        Some(made) => {
            *call = made;
            true
        }
        None => false,
    }
}

/// Copies the bytes that the call of the file at a place writes, from one of them on, as many as there are and as fit, and returns their number.
#[unsafe(no_mangle)]
pub extern "C" fn betable_copy_file_call(
    alloc: Global,
    handle: &mut Handle,
    place: usize,
    from: usize,
    out: &mut [u8],
) -> usize
    ensures bytes { MatchOption (session_of handle.old) (result ≡ 0) (λ session. take result out.new ≡ take result (drop from (bytes_at session.calls.items place))) }
    ensures rest { drop result out.new ≡ drop result out.old }
    ensures count { MatchOption (session_of handle.old) (result ≡ 0) (λ session. result ≡ min (length (bytes_at session.calls.items place) - from) (length out.old)) }
    ensures kept { session_of handle.new ≡ session_of handle.old }
{
    let Some(session) = handle.take(alloc) else {
        return 0;
    };
    let count = copy_from(bytes_at(session.calls.as_slice(), place), from, out);
    *handle = Handle::of(session);
    count
}
