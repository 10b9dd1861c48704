//! The bytes of a request as they come.

ghost use Rattle.std.specs.Prelude.{◌≡◌, ◌≤◌, ◌+◌, ℕ, true, false, List, [], ◌++◌, length, drop, min, None, MatchOption, IfOk, OnOk};
ghost use Rattle.rule_table.specs.declared.fault.FaultKind.{FaultKind as TheKind};
ghost use Rattle.b2_types.specs.Fault.{plain};
ghost use Rattle.http_edge.specs.declared.cut.Cut.TheVariants.{Head as HeadCut};
ghost use Rattle.http_edge.specs.declared.head.Head.{Head as TheHead};
ghost use Rattle.http_edge.specs.Cut.{IsCut};
ghost use Rattle.http_edge.specs.Length.{is_upload};
ghost use Rattle.conn_table.specs.declared.incoming.Stage.TheVariants.{Seeking, Closed};
ghost use Rattle.conn_talk.specs.Asked.{Asked, nothing, refused, begun, complete, IsRead, IsAsked, goes_on, head_of, rest_of, with_more};
ghost use Rattle.conn_talk.specs.Acts.{body_acts};
ghost use Rattle.conn_table.specs.Incoming.{IsGathering, IsHeld, HasFlags, SameFlags, IsReading, IsWaiting, IsSought, Gives, holds_bytes};

use b2_base::{Blob, Memory, Or};
use b2_types::Fault;
use conn_talk::Act;
use http_edge::{Cut, Head, cut_head, read_head};
use rule_table::{CallName, FaultKind};
use std::alloc::Global;
use std::mem;

/// So many requests stand before the last one of a connection.
const LAST_REQUEST: u32 = 999;

/// The most bytes after a request that are held while its reply is pending.
pub const MOST_HELD: usize = 65_536;

/// How far a request has come.
#[derive(Clone, Copy, Debug, PartialEq, Eq)]
pub(crate) enum Stage {
    /// The end of its head is not among so many bytes.
    Seeking(usize),
    /// The body of a call comes.
    Gathering,
    /// So many bytes of the body of an upload are still to come.
    Uploading(u64),
    /// It is whole. Whether the bytes after it are held.
    Complete(bool),
    /// The bytes that come do nothing.
    Closed,
}

/// What is kept of the bytes of a request: its head until that is whole, then the body of a call,
/// and at last the bytes after it. The body of an upload is handed on as it comes.
#[derive(Drop)]
pub(crate) struct Incoming {
    /// The requests before it on its connection.
    pub(crate) before: u32,
    pub(crate) stage: Stage,
    pub(crate) bytes: Vec<u8>,
    /// The head of a call whose body comes.
    pub(crate) head: Option<Head>,
    /// An act told that its client asks for another request.
    pub(crate) stay: bool,
    /// An act told that an upload begins.
    pub(crate) upload: bool,
}

fn is_upload(name: CallName) -> bool
    ensures { result ≡ is_upload name }
{
    match name {
        CallName::UploadFile | CallName::UploadPart => true,
        _ => false,
    }
}

// A copy of the bytes from this place on.
fn tail(alloc: Global, bytes: &[u8], at: usize) -> Result<Vec<u8>, Memory>
    requires { at ≤ length bytes.now }
    ensures { IfOk result (λ v. v.items ≡ drop at bytes.now) }
{
    Ok(bytes[at..].to_vec(alloc)?)
}

// So many of the bytes are of the body.
fn part_len(left: u64, len: usize) -> usize
    ensures { result ≡ min left len }
{
    if left < len as u64 {
        left as usize
    } else {
        len
    }
}

// The acts, and then one of these bytes of a body, if there are any.
fn with_body(alloc: Global, mut acts: Vec<Act>, body: &[u8]) -> Result<Vec<Act>, Memory>
    ensures { IfOk result (λ all. all.items ≡ acts.items ++ body_acts body.now) }
{
    if !body.is_empty() {
        let body = Blob::copy(alloc, body)?;
        acts.push(Act::Body(body))?;
    }
    Ok(acts)
}

// The head of a request before which so many stand on its connection.
fn limited(mut head: Head, before: u32) -> Head
    ensures { result ≡ head_of before head.request head.route }
{
    head.request.stay &= before < LAST_REQUEST;
    head
}

impl Incoming {
    /// A request of which nothing came, after so many.
    pub(crate) fn new(alloc: Global) -> Incoming
        ensures { IsReading 0 [] nothing result }
    {
        Incoming {
            before: 0,
            stage: Stage::Seeking(0),
            bytes: Vec::new(alloc),
            head: None,
            stay: false,
            upload: false,
        }
    }

    /// More bytes come of a request that has no answer.
    pub(crate) fn piece(&mut self, alloc: Global, bytes: &[u8]) -> Result<Vec<Act>, Memory>
        requires { IsSought self.old.stage self.old.bytes.items }
        ensures { (before : ℕ) (got : List ℕ) (told : Asked) → IsReading before got told self.old
            → IfOk result (λ acts. Gives before (got ++ bytes.now) told [] acts.items self.new) }
    {
        match self.stage {
            Stage::Seeking(seen) => self.seek(alloc, seen, bytes),
            Stage::Gathering => self.gather_more(alloc, bytes),
            Stage::Uploading(left) => self.upload(alloc, left, bytes, Vec::new(alloc)),
            Stage::Complete(_) => {
                self.hold(bytes)?;
                Ok(Vec::new(alloc))
            }
            Stage::Closed => Ok(Vec::new(alloc)),
        }
    }

    // Bytes of the head come.
    fn seek(&mut self, alloc: Global, seen: usize, bytes: &[u8]) -> Result<Vec<Act>, Memory>
        requires { IsSought (Seeking seen) self.old.bytes.items }
        ensures { (before : ℕ) → HasFlags before nothing self.old → self.old.head ≡ None
            → IfOk result (λ acts. Gives before (self.old.bytes.items ++ bytes.now) nothing
            [] acts.items self.new) }
    {
        self.bytes.extend_from_slice(bytes)?;
        match cut_head(&self.bytes, seen) {
            Cut::Head(end) => self.read(alloc, end),
            Cut::NotYet => {
                self.stage = Stage::Seeking(self.bytes.len());
                Ok(Vec::new(alloc))
            }
            Cut::TooLong => self.refuse(alloc, Fault::plain(FaultKind::LongHead)),
        }
    }

    // The head has so many bytes.
    fn read(&mut self, alloc: Global, end: usize) -> Result<Vec<Act>, Memory>
        requires { IsCut self.old.bytes.items (HeadCut end) }
        ensures { (before : ℕ) → HasFlags before nothing self.old → self.old.head ≡ None
            → IfOk result (λ acts. Gives before self.old.bytes.items nothing
            [] acts.items self.new) }
    {
        let head = match read_head(alloc, &self.bytes[..end]) {
            Ok(head) => head,
            Err(Or::Fault(fault)) => return self.refuse(alloc, fault),
            Err(Or::Memory) => return Err(Memory),
        };
        let rest = tail(alloc, &self.bytes, end)?;
        let head = limited(head, self.before);
        self.start(alloc, head, rest)
    }

    // The form of the request is refused.
    fn refuse(&mut self, alloc: Global, fault: Fault) -> Result<Vec<Act>, Memory>
        ensures { (before : ℕ) (got : List ℕ) (kind : TheKind) → HasFlags before nothing self.old
            → self.old.head ≡ None → fault ≡ plain kind → IsAsked before got (refused kind)
            → IfOk result (λ acts. Gives before got nothing [] acts.items self.new) }
    {
        self.close();
        Ok(vec![in alloc; Act::Refuse(fault)]?)
    }

    // A head came, and these bytes after it.
    fn start(&mut self, alloc: Global, head: Head, rest: Vec<u8>) -> Result<Vec<Act>, Memory>
        ensures { (before : ℕ) (got : List ℕ) → HasFlags before nothing self.old
            → self.old.head ≡ None → IsRead before got head rest.items
            → IfOk result (λ acts. Gives before got nothing [] acts.items self.new) }
    {
        if !is_upload(head.route.name) {
            self.bytes = rest;
            return self.gather(alloc, head);
        }
        self.bytes = Vec::new(alloc);
        self.stay = head.request.stay;
        self.upload = true;
        let left = head.request.length;
        let acts = vec![in alloc; Act::Begin(head)]?;
        self.upload(alloc, left, &rest, acts)
    }

    // Bytes come of an upload of which so many are still to come, after these acts.
    fn upload(
        &mut self,
        alloc: Global,
        left: u64,
        bytes: &[u8],
        acts: Vec<Act>,
    ) -> Result<Vec<Act>, Memory>
        ensures { (before : ℕ) (got : List ℕ) (head : TheHead) (came : List ℕ)
            → HasFlags before (begun head came) self.old → self.old.head ≡ None
            → self.old.bytes.items ≡ []
            → IsRead before got head (came ++ bytes.now) → is_upload head.route.name ≡ true
            → length came + left ≡ head.request.length
            → IfOk result (λ all. Gives before got (begun head came)
            acts.items all.items self.new) }
    {
        let count = part_len(left, bytes.len());
        let (body, rest) = bytes.split_at(count);
        let mut acts = with_body(alloc, acts, body)?;
        let left = left - count as u64;
        if left > 0 {
            self.stage = Stage::Uploading(left);
            return Ok(acts);
        }
        acts.push(Act::End)?;
        self.complete(rest)?;
        Ok(acts)
    }

    // Bytes of the body of a call come.
    fn gather_more(&mut self, alloc: Global, bytes: &[u8]) -> Result<Vec<Act>, Memory>
        ensures { (before : ℕ) (got : List ℕ) → HasFlags before nothing self.old
            → MatchOption self.old.head ⊥ (λ h. IsGathering before got h self.old.bytes.items)
            → IfOk result (λ acts. Gives before (got ++ bytes.now) nothing
            [] acts.items self.new) }
    {
        let Some(head) = mem::replace(&mut self.head, None) else {
            return Ok(Vec::new(alloc));
        };
        self.bytes.extend_from_slice(bytes)?;
        self.gather(alloc, head)
    }

    // The bytes that are kept came after the head of a call.
    fn gather(&mut self, alloc: Global, head: Head) -> Result<Vec<Act>, Memory>
        ensures { (before : ℕ) (got : List ℕ) → HasFlags before nothing self.old
            → self.old.head ≡ None → IsRead before got head self.old.bytes.items
            → is_upload head.route.name ≡ false
            → IfOk result (λ acts. Gives before got nothing [] acts.items self.new) }
    {
        let need = head.request.length;
        if (self.bytes.len() as u64) < need {
            self.head = Some(head);
            self.stage = Stage::Gathering;
            return Ok(Vec::new(alloc));
        }
        let need = need as usize;
        let rest = tail(alloc, &self.bytes, need)?;
        let mut body = mem::replace(&mut self.bytes, Vec::new(alloc));
        body.truncate(need);
        self.stay = head.request.stay;
        self.complete(&rest)?;
        Ok(vec![in alloc; Act::Whole(head, Blob::of(body))]?)
    }

    // The request is whole, and these bytes came after it.
    fn complete(&mut self, rest: &[u8]) -> Result<(), Memory>
        ensures held { (head : TheHead) (body : List ℕ) → self.old.bytes.items ≡ []
            → self.old.stay ≡ head.request.stay
            → OnOk result (IsHeld (complete head body rest.now)
            self.new.stage self.new.bytes.items) }
        ensures flags { SameFlags self.old self.new }
    {
        self.stage = Stage::Complete(self.stay);
        self.hold(rest)
    }

    /// Bytes come after a whole request, or do nothing.
    pub(crate) fn hold(&mut self, bytes: &[u8]) -> Result<(), Memory>
        ensures held { (told : Asked) → IsHeld told self.old.stage self.old.bytes.items
            → OnOk result (IsHeld (with_more told bytes.now)
            self.new.stage self.new.bytes.items) }
        ensures flags { SameFlags self.old self.new }
    {
        if !self.goes_on() {
            return Ok(());
        }
        if MOST_HELD.saturating_sub(self.bytes.len()) < bytes.len() {
            self.bytes.clear();
            self.stage = Stage::Complete(false);
            return Ok(());
        }
        self.bytes.extend_from_slice(bytes)?;
        Ok(())
    }

    // All bytes that come do nothing.
    fn close(&mut self)
        ensures stage { self.new.stage ≡ Closed }
        ensures bytes { self.new.bytes.items ≡ [] }
        ensures flags { SameFlags self.old self.new }
    {
        self.stage = Stage::Closed;
        self.bytes.clear();
    }

    /// The request is answered.
    pub(crate) fn answer(&mut self)
        ensures { (before : ℕ) (got : List ℕ) (told : Asked) → IsReading before got told self.old
            → IsWaiting before told self.new }
    {
        match self.stage {
            Stage::Complete(_) => {}
            _ => {
                self.head = None;
                self.close();
            }
        }
    }

    /// Whether the connection may stay open after the reply.
    pub(crate) fn goes_on(&self) -> bool
        ensures { result ≡ holds_bytes self.now.stage }
    {
        match self.stage {
            Stage::Complete(says) => says,
            _ => false,
        }
    }

    /// The reply was sent whole, and the bytes that are held are those of the next request.
    pub(crate) fn next(&mut self)
        ensures { (before : ℕ) (told : Asked) → IsWaiting before told self.old
            → goes_on told ≡ true
            → IsReading (before + 1) (rest_of told) nothing self.new }
    {
        self.before = self.before.saturating_add(1);
        self.stage = Stage::Seeking(0);
        self.head = None;
        self.stay = false;
        self.upload = false;
    }
}
