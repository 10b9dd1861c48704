//! The store as what answers requests.

ghost use Rattle.std.specs.Prelude.{◌≡◌, ◌<◌, ℕ, List, [], IfOk, length};
ghost use Rattle.b2_model.specs.Run.{Progress};
ghost use Rattle.http_edge.specs.Reply.{reply_of};
ghost use Rattle.request_acts.specs.Answering.{IsServedHead, IsAnswer, IsText, Uploads, Contents};
ghost use Rattle.b2_server.specs.Answer.{IsCall, IsTold};
ghost use Rattle.b2_server.specs.Store.{IsAt, IsQuiet};

use crate::store::FirstStore;
use api_json::authorize_call;
use b2_base::{Blob, ConnNum, Memory, Or};
use b2_types::{AnswerOf, Shown};
use http_edge::Head;
use request_acts::{Answering, End, Reply, reply_text};
use rule_table::CallName;
use std::alloc::Global;

// The bytes that answer. It takes the answer, so that no other function lets one go.
fn text_of(alloc: Global, answer: AnswerOf<Blob>, stay: bool) -> Result<Blob, Memory>
    requires { IsText answer }
    ensures text { IfOk result (λ text. text ≡ reply_of answer stay) }
    ensures some { IfOk result (λ text. 0 < length text) }
{
    reply_text(alloc, &answer, stay)
}

impl FirstStore {
    fn authorize_answer(
        &mut self,
        alloc: Global,
        reading: u64,
        head: &Head,
    ) -> Result<AnswerOf<Blob>, Memory>
        requires named { head.now.route.name ≡ CallName.AuthorizeAccount }
        ensures told { IfOk result (λ told. (P : Progress (List ℕ)) → IsAt self.old P.state P.words
            → IsTold self.new P reading head.now told) }
        ensures text { IfOk result IsText }
    {
        let call = authorize_call(alloc, head.route.version, &head.request)?;
        let account = match self.authorize(alloc, reading, &call) {
            Ok(account) => account,
            Err(Or::Memory) => return Err(Memory),
            Err(Or::Fault(fault)) => return Ok(AnswerOf::Refused(fault)),
        };
        Ok(AnswerOf::Json(Shown::Account(account)))
    }

    // What the machine answers to the call that the request is.
    fn told(&mut self, alloc: Global, reading: u64, head: &Head) -> Result<AnswerOf<Blob>, Memory>
        requires { IsServedHead head.now }
        ensures told { IfOk result (λ told. (P : Progress (List ℕ)) → IsAt self.old P.state P.words
            → IsTold self.new P reading head.now told) }
        ensures text { IfOk result IsText }
    {
        match head.route.name {
            CallName::AuthorizeAccount => self.authorize_answer(alloc, reading, head),
            _ => unreachable!(),
        }
    }

    // The bytes that answer the request.
    fn reply(&mut self, alloc: Global, reading: u64, head: &Head) -> Result<Reply, Memory>
        requires { IsServedHead head.now }
        ensures answer { IfOk result (λ reply. (P : Progress (List ℕ)) (c : ℕ) (body : List ℕ)
            (ups : Uploads) (outs : Contents) → IsQuiet self.old P.state P.words ups outs
            → IsAnswer IsCall (IsQuiet self.new) ups outs P reading c head.now body reply) }
        ensures some { IfOk result (λ reply. 0 < length reply.text) }
        ensures none { IfOk result (λ reply. reply.len ≡ 0) }
    {
        let answer = self.told(alloc, reading, head)?;
        let text = text_of(alloc, answer, head.request.stay)?;
        Ok(Reply { text, len: 0 })
    }
}

impl Answering for FirstStore {
    ghost use Rattle.b2_server.specs.Answer.{IsCall, IsUpload};
    ghost use Rattle.b2_server.specs.Store.{IsQuiet};

    ghost call = { IsCall };

    ghost upload = { IsUpload };

    ghost at = { IsQuiet };

    // No call that is served sends a content.
    fn answer(
        &mut self,
        alloc: Global,
        reading: u64,
        _c: ConnNum,
        head: &Head,
        _body: &[u8],
    ) -> Result<Reply, End> {
        let reply = self.reply(alloc, reading, head)?;
        Ok(reply)
    }

    // No call that is served is an upload.
    fn begin(
        &mut self,
        _alloc: Global,
        _reading: u64,
        _c: ConnNum,
        _head: &Head,
    ) -> Result<Option<Blob>, End> {
        Ok(None)
    }

    fn piece(&mut self, _alloc: Global, _c: ConnNum, _bytes: &[u8]) -> Result<(), End> {
        Ok(())
    }

    fn end(
        &mut self,
        _alloc: Global,
        _reading: u64,
        _c: ConnNum,
        _stay: bool,
    ) -> Result<Option<Blob>, End> {
        Ok(None)
    }

    fn lost(&mut self, _alloc: Global, _reading: u64, _c: ConnNum) -> Result<(), End> {
        Ok(())
    }

    fn read_out(
        &mut self,
        alloc: Global,
        _c: ConnNum,
        _from: u64,
        _most: usize,
    ) -> Result<Blob, End> {
        Ok(Blob::of(Vec::new(alloc)))
    }

    fn finish_out(&mut self, _alloc: Global, _c: ConnNum) -> Result<(), End> {
        Ok(())
    }
}
