//! What holds of heads, and of the bytes that come on a connection.

ghost use Rattle.std.specs.Prelude.{◌≡◌, ◌++◌, ℕ, List, take, drop};
ghost use Rattle.rule_table.specs.declared.fault.FaultKind.{FaultKind as TheKind};
ghost use Rattle.call_paths.specs.declared.routes.Route.{Route as TheRoute};
ghost use Rattle.wire_forms.specs.declared.request.Request.{Request as TheRequest};
ghost use Rattle.http_edge.specs.declared.cut.Cut.TheVariants.{Head};
ghost use Rattle.http_edge.specs.Cut.{IsCut};
ghost use Rattle.http_edge.specs.Request.{IsRequest, IsHeadFault};
ghost use Rattle.http_edge.specs.Received.{Received, malformed, announced, whole, with_body, IsReceived, HasRequest};

/// A head is that of one request for one call, or there is one reason why it is for none.
pub fn one_request()
    ensures request { (bytes : List ℕ) (r q : TheRequest) (a b : TheRoute) → IsRequest bytes r a
        → IsRequest bytes q b → (r ≡ q) × (a ≡ b) }
    ensures fault { (bytes : List ℕ) (a b : TheKind) → IsHeadFault bytes a → IsHeadFault bytes b
        → a ≡ b }
    ensures either { (bytes : List ℕ) (r : TheRequest) (a : TheRoute) (kind : TheKind)
        → IsRequest bytes r a → IsHeadFault bytes kind → ⊥ }
{}

/// The bytes that came come to one thing.
pub fn one_received()
    ensures { (bytes : List ℕ) (a b : Received) → IsReceived bytes a → IsReceived bytes b → a ≡ b }
{}

/// What came stays what it is, whatever comes after it: a whole head is that of the same request, and with
/// its body it is the same whole request; a refused form stays refused.
pub fn received_as_it_comes()
    ensures head { (bytes more : List ℕ) (r : TheRequest) (a : TheRoute) → HasRequest bytes r a
        → HasRequest (bytes ++ more) r a }
    ensures whole { (bytes more body : List ℕ) (r : TheRequest) (a : TheRoute)
        → IsReceived bytes (whole r a body) → IsReceived (bytes ++ more) (whole r a body) }
    ensures malformed { (bytes more : List ℕ) (kind : TheKind) → IsReceived bytes (malformed kind)
        → IsReceived (bytes ++ more) (malformed kind) }
    ensures announced { (bytes : List ℕ) (r : TheRequest) (a : TheRoute)
        → IsReceived bytes (announced r a) → HasRequest bytes r a }
    ensures of_whole { (bytes body : List ℕ) (r : TheRequest) (a : TheRoute)
        → IsReceived bytes (whole r a body) → HasRequest bytes r a }
    ensures after { (bytes : List ℕ) (end : ℕ) (r : TheRequest) (a : TheRoute)
        → IsCut bytes (Head end) → IsRequest (take end bytes) r a
        → IsReceived bytes (with_body r a (drop end bytes)) }
{}
