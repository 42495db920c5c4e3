//! A table in a file, whose calls the host makes.
ghost use Rattle.std.specs.Prelude.{◌≡◌, IfOk, false, true};
ghost use Rattle.bt_journal.specs.Stores.{group_state, state_in};
ghost use Rattle.bt_c.specs.Kept.{HasBegun, HasCheckpoint, HasCommitted, HasJoined, HasRead, HasRun, IsOpened, IsRefused, IsUnread, head_with, status_of};

use crate::status::Status;
use bt_durable::{OnceService, ServiceMachine};
use bt_engine::{ENGINE, FORMAT, LocalService};
use bt_file::OrderedFile;
use bt_journal::{Fault, Group, Head, HostCall, Opening, Store};
use bt_table::Table;
use std::alloc::Global;

/// A table in a file, whose calls the host makes, and what is known of requests.
pub type KeptTable = Store<OrderedFile, ServiceMachine<'static, (), OnceService<LocalService>>>;

/// A group of requests to such a table, which are kept together.
pub type KeptGroup = Group<OrderedFile, ServiceMachine<'static, (), OnceService<LocalService>>>;

/// A file of such a table that the host reads in order to open it.
pub type KeptOpening = Opening<OrderedFile, ServiceMachine<'static, (), OnceService<LocalService>>>;

/// Begins to open a file. If it is empty, it gets a head with this salt.
pub(crate) fn begin_opening(alloc: Global, salt: u64) -> Result<KeptOpening, Fault>
    ensures { IfOk result (λ opening. IsUnread (head_with salt) opening) }
{
    let head = Head {
        format: FORMAT,
        engine: ENGINE,
        salt,
    };
    let service = OnceService::new(alloc, LocalService::new(alloc))?;
    let machine = ServiceMachine::new(alloc, &(), service);
    Ok(Opening::new(alloc, OrderedFile::new(alloc), head, machine))
}

/// Adds the next bytes of the file, and carries out the requests that are whole.
pub(crate) fn read_piece(
    alloc: Global,
    opening: KeptOpening,
    piece: &[u8],
) -> Result<KeptOpening, Fault>
    ensures { IfOk result (λ read. HasRead opening.entry read piece.now) }
{
    let mut bytes = Vec::new(alloc);
    bytes.extend_from_slice(piece)?;
    match opening.read(alloc, &bytes) {
        Ok(read) => Ok(read),
        Err((fault, _disk)) => Err(fault),
    }
}

/// Opens the file, of which all bytes were read. Returns the calls that the host is to make too.
pub(crate) fn end_opening(
    alloc: Global,
    opening: KeptOpening,
) -> Result<(KeptTable, Vec<HostCall>), Fault>
    ensures { IfOk result (λ opened. IsOpened opening.entry opened.0 opened.1.items) }
{
    match opening.end(alloc) {
        Ok(store) => {
            let mut kept = store;
            let calls = kept.take_calls();
            Ok((kept, calls))
        }
        Err((fault, _disk)) => Err(fault),
    }
}

/// Carries out requests, and replaces the bytes of `replies` by the frames of their replies. Returns the calls that the host is to make before it uses them. At
/// `Err`, open the file again.
pub(crate) fn run_kept(
    alloc: Global,
    kept: &mut KeptTable,
    requests: &[u8],
    replies: &mut Vec<u8>,
) -> Result<Vec<HostCall>, Fault>
    ensures { IfOk result (λ calls. HasRun kept.old kept.new requests.now replies.new.items calls.items) }
{
    kept.run(alloc, requests, replies)?;
    Ok(kept.take_calls())
}

/// Replaces the requests in the file by the state, unless it cannot be compacted now. Returns the calls that the host is to make. At `Err`, open the file again.
pub(crate) fn compact_kept(alloc: Global, kept: &mut KeptTable) -> Result<Vec<HostCall>, Fault>
    ensures { IfOk result (λ calls. HasCheckpoint kept.old kept.new calls.items) }
{
    let _is_done = kept.checkpoint(alloc)?;
    Ok(kept.take_calls())
}

/// Begins a group of requests.
pub(crate) fn begin_group(alloc: Global, kept: KeptTable) -> Result<KeptGroup, Fault>
    ensures { IfOk result (λ group. HasBegun kept.entry group) }
{
    match kept.begin(alloc) {
        Ok(group) => Ok(group),
        Err((fault, _disk)) => Err(fault),
    }
}

/// Carries out requests of a group, and replaces the bytes of `replies` by the frames of their replies. Returns whether it did: `false` if the requests are not
/// whole frames, and then nothing has changed. At `Err`, open the file again.
pub(crate) fn add_to_group(
    alloc: Global,
    group: &mut KeptGroup,
    requests: &[u8],
    replies: &mut Vec<u8>,
) -> Result<bool, Fault>
    ensures done { IfOk result (λ is_done. is_done ≡ true → HasJoined group.old group.new requests.now replies.new.items) }
    ensures refused { IfOk result (λ is_done. is_done ≡ false → IsRefused group.old group.new requests.now) }
{
    group.run(alloc, requests, replies)
}

/// Keeps the requests of a group. Returns the calls that the host is to make before it acknowledges them. At `Err`, open the file again.
pub(crate) fn commit_group(
    alloc: Global,
    group: KeptGroup,
) -> Result<(KeptTable, Vec<HostCall>), Fault>
    ensures { IfOk result (λ kept. HasCommitted group.entry kept.0 kept.1.items) }
{
    match group.commit(alloc) {
        Ok(store) => {
            let mut kept = store;
            let calls = kept.take_calls();
            Ok((kept, calls))
        }
        Err((fault, _disk)) => Err(fault),
    }
}

/// The table in a file.
pub(crate) fn table_in(kept: &KeptTable) -> &Option<Table>
    ensures { result.now ≡ (state_in kept.now).0 }
{
    kept.machine().service().service().table()
}

/// The table in a file after the requests of a group so far.
pub(crate) fn table_in_group(group: &KeptGroup) -> &Option<Table>
    ensures { result.now ≡ (group_state group.now).0 }
{
    group.machine().service().service().table()
}

/// The result of a call that failed. The disk, which only adds calls to a list, fails if an allocation does.
pub(crate) fn status_of(fault: Fault) -> Status
    ensures { result ≡ status_of fault }
{
    match fault {
        Fault::OutOfMemory | Fault::Failed => Status::OutOfMemory,
        Fault::TooLong => Status::FileTooLong,
        Fault::Closed => Status::NotKept,
        Fault::NotAJournal => Status::NotATable,
        Fault::OtherFormat => Status::OtherFormat,
        Fault::OtherEngine => Status::OtherEngine,
        Fault::Damaged => Status::Damaged,
    }
}
