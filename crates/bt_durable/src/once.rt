//! Requests that run once.
ghost use Rattle.std.specs.Int.{from_le_bytes, w64, w128};
ghost use Rattle.std.specs.Prelude.{◌≡◌, ◌<◌, ◌≤◌, ◌^◌, ◌++◌, ◌||◌, [], ◌∷◌, IfNone, IfOk, IfSome, None, OnOk, Some, false, is_some, length, nat_eq, nat_le, option_map, true};
ghost use Rattle.std.specs.Map.{lookup};
ghost use Rattle.bt_frame.specs.Frames.{frame};
ghost use Rattle.bt_durable.specs.Once as requests;
ghost use Rattle.bt_durable.specs.Once.{RequestsRunOnce, is_compacted_once, most_known, sum_of};
ghost use Rattle.bt_durable.specs.Payloads.{after_payload};
ghost use Rattle.bt_durable.specs.Repeated.{once_leaves, others_leave};

use bt_frame::{Arrival, CompactService, Reply, Service, add_frame};
use bt_journal::sum_after;
use lru::LruCache;
use std::alloc::{AllocError, Global};
use std::marker::Model;
use std::num::NonZeroUsize;

// The kind of a request that runs once.
const ONCE: u8 = 12;

// The kind of a request that notes what is known of another one.
const KNOWN: u8 = 15;

// The kind of the reply to a request that was carried out.
const DONE: u8 = 0;

// The kind of the reply to what is no request.
const INVALID: u8 = 2;

// How many requests are known.
const MOST_KNOWN: usize = 100_000;

// The number of bytes of an id.
const ID_SIZE: usize = 16;

// The number of bytes before the payload of the reply, in what a payload has of a request that is known: an id, a sum and a kind.
const KNOWN_SIZE: usize = 25;

// What is known of a request that ran.
#[derive(Drop)]
struct KnownRequest {
    sum: u64,
    kind: u8,
    payload: Vec<u8>,
}

impl Model for KnownRequest {
    ghost use Rattle.bt_durable.specs.Once.{Known};

    ghost Value = { Known };

    ghost view = { λ k. (k.sum, k.kind, k.payload.items) };
}

// A request that runs once.
#[derive(Drop)]
struct OnceRequest<'a> {
    id: u128,
    kind: u8,
    payload: &'a [u8],
}

// The id that the first bytes encode.
fn id_at(bytes: &[u8]) -> u128
    requires { ID_SIZE ≤ length bytes.now }
    ensures { result ≡ from_le_bytes w128 bytes.now }
{
    u128::from_le_bytes([
        bytes[0], bytes[1], bytes[2], bytes[3], bytes[4], bytes[5], bytes[6], bytes[7], bytes[8],
        bytes[9], bytes[10], bytes[11], bytes[12], bytes[13], bytes[14], bytes[15],
    ])
}

// The request in a payload, if it is long enough.
fn request_in(payload: &[u8]) -> Option<OnceRequest<'_>>
    ensures { option_map (λ request. (request.id, request.kind, request.payload.now)) result ≡ requests.request_in payload.now }
{
    if payload.len() <= ID_SIZE {
        return None;
    }
    Some(OnceRequest {
        id: id_at(payload),
        kind: payload[ID_SIZE],
        payload: &payload[ID_SIZE + 1..],
    })
}

// The number that the first bytes encode.
fn number_at(bytes: &[u8]) -> u64
    requires { 8 ≤ length bytes.now }
    ensures { result ≡ from_le_bytes w64 bytes.now }
{
    u64::from_le_bytes([
        bytes[0], bytes[1], bytes[2], bytes[3], bytes[4], bytes[5], bytes[6], bytes[7],
    ])
}

// What a payload encodes of a request that ran, if it is long enough.
fn known_in(alloc: Global, payload: &[u8]) -> Result<Option<(u128, KnownRequest)>, AllocError>
    ensures { IfOk result (λ found. found ≡ requests.known_in payload.now) }
{
    if payload.len() < KNOWN_SIZE {
        return Ok(None);
    }
    let mut reply = Vec::new(alloc);
    reply.extend_from_slice(&payload[KNOWN_SIZE..])?;
    let known = KnownRequest {
        sum: number_at(&payload[ID_SIZE..]),
        kind: payload[KNOWN_SIZE - 1],
        payload: reply,
    };
    Ok(Some((id_at(payload), known)))
}

// The payload that encodes what is known of the request with an id.
fn known_payload(alloc: Global, id: u128, known: &KnownRequest) -> Result<Vec<u8>, AllocError>
    ensures payload { IfOk result (λ payload. payload.items ≡ requests.known_payload (id, known.now)) }
    ensures kept { OnOk result (requests.known_in (requests.known_payload (id, known.now)) ≡ Some (id, known.now)) }
{
    let mut payload = Vec::new(alloc);
    payload.extend_from_slice(&id.to_le_bytes())?;
    payload.extend_from_slice(&known.sum.to_le_bytes())?;
    payload.push(known.kind)?;
    payload.extend_from_slice(known.payload.as_slice())?;
    Ok(payload)
}

// Adds the frame of what is known of the request with an id.
fn add_known(
    bytes: &mut Vec<u8>,
    alloc: Global,
    id: u128,
    known: &KnownRequest,
) -> Result<(), AllocError>
    ensures added { OnOk result (bytes.new.items ≡ bytes.old.items ++ frame requests.known_kind (requests.known_payload (id, known.now))) }
    ensures kept { OnOk result (requests.known_in (requests.known_payload (id, known.now)) ≡ Some (id, known.now)) }
    ensures fits { OnOk result (length (requests.known_payload (id, known.now)) < 2 ^ 64) }
{
    let payload = known_payload(alloc, id, known)?;
    add_frame(bytes, KNOWN, payload.as_slice())
}

// The frames of all that is known.
fn known_frames(alloc: Global, cache: &LruCache<u128, KnownRequest>) -> Result<Vec<u8>, AllocError>
    ensures frames { IfOk result (λ bytes. bytes.items ≡ requests.known_frames cache.now.entries) }
    ensures kept { OnOk result (requests.AreKept cache.now.entries) }
{
    let mut bytes = Vec::new(alloc);
    let mut rest = cache.iter();
    'entries: while let Some((id, known)) = rest.next() {
        add_known(&mut bytes, alloc, *id, known)?;
    }
    Ok(bytes)
}

// A reply in the memory of some bytes, to what changes nothing.
fn reply_of(kind: u8, payload: &[u8], room: Vec<u8>) -> Result<Reply, AllocError>
    ensures kind { IfOk result (λ reply. reply.kind ≡ kind) }
    ensures payload { IfOk result (λ reply. reply.payload.items ≡ payload.now) }
    ensures changes { IfOk result (λ reply. reply.is_change ≡ false) }
{
    let mut text = room;
    text.clear();
    text.extend_from_slice(payload)?;
    Ok(Reply {
        kind,
        payload: text,
        is_change: false,
    })
}

impl KnownRequest {
    // The reply to the request again. The sum is that of what is asked now.
    fn reply_again(&self, sum: u64, room: Vec<u8>) -> Result<Reply, AllocError>
        ensures reply { IfOk result (λ reply. (reply.kind, reply.payload.items) ≡ requests.reply_again sum self.now) }
        ensures changes { IfOk result (λ reply. reply.is_change ≡ false) }
    {
        if self.sum == sum {
            reply_of(self.kind, self.payload.as_slice(), room)
        } else {
            reply_of(INVALID, "RequestReused".as_bytes(), room)
        }
    }
}

/// A service that runs a request with an id once. A contract sees the service, and what is known of requests by their ids, the last one first.
///
/// A request of kind 12 has an id of sixteen bytes, the kind of what it asks in one byte, and the payload of that. If a request with this id ran before, it gets the
/// same reply, and nothing runs. The last 100,000 requests are known. The reply is invalid (kind 2) with the name `RequestReused` if another request had the id, and
/// with `NoRequestId` if the payload is too short.
#[derive(Drop)]
pub struct OnceService<S: Drop> {
    alloc: Global,
    service: S,
    known: LruCache<u128, KnownRequest>,
}

impl<S: Drop> Model for OnceService<S> {
    ghost use Rattle.bt_durable.specs.Once.{OnceState, most_known};
    ghost use Rattle.std.specs.Prelude.{◌≡◌};

    ghost Value = { OnceState S };

    ghost view = { λ o. (o.service, o.known.entries) };

    ghost invariant = { λ o. o.known.cap ≡ most_known };
}

impl<S: Drop> OnceService<S> {
    /// A service, and no request is known.
    pub fn new(alloc: Global, service: S) -> Result<Self, AllocError>
        ensures { IfOk result (λ made. made ≡ (service, [])) }
    {
        let known = LruCache::sparse(alloc, NonZeroUsize::new(MOST_KNOWN).unwrap())?;
        Ok(OnceService {
            alloc,
            service,
            known,
        })
    }

    /// The service.
    pub fn service(&self) -> &S
        ensures { result.now ≡ self.now.0 }
    {
        &self.service
    }
}

// Runs a request whose id is not known, and stores its reply.
fn run_first<X, S: Service<X> + Drop>(
    once: &mut OnceService<S>,
    context: &X,
    request: &OnceRequest<'_>,
    sum: u64,
    room: Vec<u8>,
) -> Result<Reply, AllocError>
    requires ready { S.accepts context.now }
    requires new { lookup (nat_eq request.now.id) once.old.1 ≡ None }
    ensures state { OnOk result (once.new ≡ (requests.run_first S.after S.reply once.old sum (request.now.id, request.now.kind, request.now.payload.now)).0) }
    ensures reply { IfOk result (λ reply. (reply.kind, reply.payload.items)
        ≡ (requests.run_first S.after S.reply once.old sum (request.now.id, request.now.kind, request.now.payload.now)).1) }
    ensures changes { IfOk result (λ reply. reply.is_change ≡ true) }
{
    let arrival = Arrival::Frame(request.kind);
    let reply = once
        .service
        .exchange(context, arrival, request.payload, room)?;
    let mut payload = Vec::new(once.alloc);
    payload.extend_from_slice(reply.payload.as_slice())?;
    let known = KnownRequest {
        sum,
        kind: reply.kind,
        payload,
    };
    once.known.put(request.id, known)?;
    Ok(Reply {
        kind: reply.kind,
        payload: reply.payload,
        is_change: true,
    })
}

// Runs the request in a payload, unless its id is known.
#[tactic(auto, using(crate::proofs::RepeatedRequests::run_once_each))]
fn run_once<X, S: Service<X> + Drop>(
    once: &mut OnceService<S>,
    context: &X,
    payload: &[u8],
    room: Vec<u8>,
) -> Result<Reply, AllocError>
    requires ready { S.accepts context.now }
    ensures state { OnOk result (once.new ≡ (requests.run_once S.after S.reply once.old (sum_of payload.now) (requests.request_in payload.now)).0) }
    ensures reply { IfOk result (λ reply. (reply.kind, reply.payload.items)
        ≡ (requests.run_once S.after S.reply once.old (sum_of payload.now) (requests.request_in payload.now)).1) }
    ensures changes { IfOk result (λ reply. reply.is_change ≡ (requests.run_once S.after S.reply once.old (sum_of payload.now) (requests.request_in payload.now)).2) }

    // It runs once, and has the same reply each time.
    ensures once { RequestsRunOnce S.after S.reply S.changes }
{
    let Some(request) = request_in(payload) else {
        return reply_of(INVALID, "NoRequestId".as_bytes(), room);
    };
    let sum = sum_after(0, &payload[ID_SIZE..]);
    if let Some(known) = once.known.peek(&request.id) {
        return known.reply_again(sum, room);
    }
    run_first(once, context, &request, sum, room)
}

// Whether an entry with this id cannot be noted.
fn is_refused<S: Drop>(once: &OnceService<S>, id: u128) -> bool
    ensures { result ≡ (nat_le most_known (length once.now.1) || is_some (lookup (nat_eq id) once.now.1)) }
{
    once.known.len() >= MOST_KNOWN || once.known.contains(&id)
}

// Adds an entry as that of the oldest request.
#[tactic(auto, using(crate::proofs::KnownRequests::put_oldest))]
fn add_oldest<S: Drop>(
    once: &mut OnceService<S>,
    id: u128,
    known: KnownRequest,
) -> Result<(), AllocError>
    requires allowed { (nat_le most_known (length once.old.1) || is_some (lookup (nat_eq id) once.old.1)) ≡ false }
    ensures { OnOk result (once.new ≡ (once.old.0, once.old.1 ++ (id, known) ∷ [])) }
{
    once.known.put(id, known)?;
    once.known.demote(&id);
    Ok(())
}

// Notes an entry, unless it cannot be noted.
fn note_entry<S: Drop>(
    once: &mut OnceService<S>,
    id: u128,
    known: KnownRequest,
    room: Vec<u8>,
) -> Result<Reply, AllocError>
    ensures state { OnOk result (once.new ≡ (requests.noted once.old (Some (id, known))).0) }
    ensures reply { IfOk result (λ reply. (reply.kind, reply.payload.items) ≡ (requests.noted once.old (Some (id, known))).1) }
    ensures changes { IfOk result (λ reply. reply.is_change ≡ (requests.noted once.old (Some (id, known))).2) }
{
    if is_refused(once, id) {
        return reply_of(INVALID, "RequestReused".as_bytes(), room);
    }
    add_oldest(once, id, known)?;
    let mut reply = reply_of(DONE, &[], room)?;
    reply.is_change = true;
    Ok(reply)
}

// Notes what a payload has of a request that ran, as that of the oldest one.
fn note_known<S: Drop>(
    once: &mut OnceService<S>,
    payload: &[u8],
    room: Vec<u8>,
) -> Result<Reply, AllocError>
    ensures state { OnOk result (once.new ≡ (requests.noted once.old (requests.known_in payload.now)).0) }
    ensures reply { IfOk result (λ reply. (reply.kind, reply.payload.items) ≡ (requests.noted once.old (requests.known_in payload.now)).1) }
    ensures changes { IfOk result (λ reply. reply.is_change ≡ (requests.noted once.old (requests.known_in payload.now)).2) }
{
    match known_in(once.alloc, payload)? {
        Some((id, known)) => note_entry(once, id, known, room),
        None => reply_of(INVALID, "NoRequestId".as_bytes(), room),
    }
}

/// Compacts the service, and returns the frames of requests that lead to it and to what is known of requests. `None` if it cannot be compacted now, or if memory
/// ran out; nothing has changed then.
pub(crate) fn compact_once<X, S: CompactService<X> + Drop>(
    once: &mut OnceService<S>,
    context: &X,
) -> Option<Vec<u8>>
    requires ready { S.Service.accepts context.now }
    ensures compacted { IfSome result (λ _. is_compacted_once S.CompactService.is_compacted once.old once.new) }
    ensures restores { IfSome result (λ payload. after_payload (requests.once_after S.Service.after S.Service.reply S.Service.changes)
        (requests.once_reply S.Service.after S.Service.reply S.Service.changes) (S.Service.blank, []) payload.items ≡ once.new) }
    ensures unchanged { IfNone result (once.new ≡ once.old) }
{
    // A cache never has two entries with one id, nor more of them than it takes.
    let _count = once.known.len();
    let Ok(frames) = known_frames(once.alloc, &once.known) else {
        return None;
    };
    let all = once.service.compact(context, frames)?;
    Some(all)
}

impl<X, S: Service<X> + Drop> Service<X> for OnceService<S> {
    ghost accepts = { S.accepts };

    ghost blank = { (S.blank, []) };

    ghost after = { requests.once_after S.after S.reply S.changes };

    ghost reply = { requests.once_reply S.after S.reply S.changes };

    ghost changes = { requests.once_changes S.after S.reply S.changes };

    ghost same = { once_leaves S.after S.reply S.changes S.same };

    ghost idle = { others_leave S.after S.reply S.changes S.idle };

    fn exchange(
        &mut self,
        context: &X,
        arrival: Arrival,
        payload: &[u8],
        room: Vec<u8>,
    ) -> Result<Reply, AllocError> {
        match arrival {
            Arrival::Frame(kind) if kind == ONCE => run_once(self, context, payload, room),
            Arrival::Frame(kind) if kind == KNOWN => note_known(self, payload, room),
            _ => self.service.exchange(context, arrival, payload, room),
        }
    }

    fn refuse(&self, arrival: Arrival, room: Vec<u8>) -> Result<Reply, AllocError> {
        self.service.refuse(arrival, room)
    }
}
