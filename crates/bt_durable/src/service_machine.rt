//! A service as the machine of a store.
ghost use Rattle.std.specs.Prelude.{◌≡◌, IfOk, List, OnOk, ℕ};
ghost use Rattle.bt_frame.specs.Services.{IsNoRequest};
ghost use Rattle.bt_durable.specs.Joined.{AreFrames, after_both, after_none, are_requests, both_are_frames, none_are_frames};
ghost use Rattle.bt_durable.specs.Once.{is_compacted_once};
ghost use Rattle.bt_durable.specs.Payloads.{after_payload, payload_changes, replies_to, requests};

use crate::groups::frames_in;
use crate::once::{OnceService, compact_once};
use bt_frame::{Arrival, CompactService, Reply, Service, serve};
use bt_journal::{Compact, Join, Machine};
use bt_script::Counted;
use std::alloc::{AllocError, Global};
use std::marker::Model;
use std::mem;

// Carries out the requests of a payload. The replies are written into the memory of some bytes. Returns them, and whether a request may have changed the service.
fn serve_payload<X, S: Service<X>>(
    alloc: Global,
    service: &mut S,
    context: &X,
    payload: &[u8],
    room: Vec<u8>,
) -> Result<(Vec<u8>, bool), AllocError>
    requires ready { S.accepts context.now }
    ensures after { OnOk result (service.new ≡ after_payload S.after S.reply service.old payload.now) }
    ensures replies { IfOk result (λ run. run.0.items ≡ replies_to S.after S.reply service.old payload.now) }
    ensures changes { IfOk result (λ run. run.1 ≡ payload_changes S.after S.reply S.changes service.old payload.now) }
{
    let mut text = room;
    text.clear();
    let mut reader = Counted::new(payload);
    let mut writer = Counted::new(text);
    match serve(alloc, service, context, u64::MAX, &mut reader, &mut writer) {
        Ok(is_change) => Ok((writer.into_inner(), is_change)),
        // A slice is read, and a vector written to, if there is memory.
        Err(_fault) => Err(AllocError),
    }
}

/// A service, and what each of its calls takes. A payload is a run of frames, and its answer is the frames of their replies. A contract sees the service.
#[derive(Drop)]
pub struct ServiceMachine<'a, X, S: Service<X> + Drop> {
    alloc: Global,
    context: &'a X,
    service: S,
}

impl<'a, X, S: Service<X> + Drop> Model for ServiceMachine<'a, X, S> {
    ghost Value = { S };

    ghost view = { λ m. m.service };

    ghost invariant = { λ m. S.accepts m.context.now };
}

impl<'a, X, S: Service<X> + Drop> ServiceMachine<'a, X, S> {
    /// A service with what its calls take.
    pub fn new(alloc: Global, context: &'a X, service: S) -> Self
        requires ready { S.accepts context.now }
        ensures { result ≡ service }
    {
        ServiceMachine {
            alloc,
            context,
            service,
        }
    }

    /// The service.
    pub fn service(&self) -> &S
        ensures { result.now ≡ self.now }
    {
        &self.service
    }

    // The reply to what arrived and is no request, in the memory of some bytes.
    pub(crate) fn refuse(&self, arrival: Arrival, room: Vec<u8>) -> Result<Reply, AllocError>
        requires refused { IsNoRequest arrival }
        ensures { IfOk result (λ made. (payload : List ℕ) → (made.kind, made.payload.items) ≡ S.reply self.now arrival payload) }
    {
        self.service.refuse(arrival, room)
    }
}

impl<'a, X, S: Service<X> + Drop> Machine for ServiceMachine<'a, X, S> {
    ghost blank = { S.blank };

    ghost after = { after_payload S.after S.reply };

    ghost answer_to = { replies_to S.after S.reply };

    ghost changes = { payload_changes S.after S.reply S.changes };

    fn run(&mut self, payload: &[u8], answer: &mut Vec<u8>) -> Result<bool, AllocError> {
        let room = mem::replace(answer, Vec::new(self.alloc));
        let (replies, is_change) = serve_payload(
            self.alloc,
            &mut self.service,
            self.context,
            payload,
            room,
        )?;
        *answer = replies;
        Ok(is_change)
    }
}

impl<'a, X, S: Service<X> + Drop> Join for ServiceMachine<'a, X, S> {
    ghost is_part = { AreFrames };

    ghost can_join = { λ payload. are_requests (requests payload) };

    ghost none_is_part = { none_are_frames };

    ghost both_are_part = { both_are_frames };

    ghost after_none = { after_none S.after S.reply };

    ghost after_both = { after_both S.after S.reply };

    fn part_of(&self, alloc: Global, payload: &[u8]) -> Result<Option<Vec<u8>>, AllocError> {
        frames_in(alloc, payload)
    }
}

impl<'a, X, S: CompactService<X> + Drop> Compact for ServiceMachine<'a, X, OnceService<S>> {
    ghost is_compacted = { is_compacted_once S.CompactService.is_compacted };

    fn compact(&mut self, _alloc: Global) -> Option<Vec<u8>> {
        compact_once(&mut self.service, self.context)
    }
}
