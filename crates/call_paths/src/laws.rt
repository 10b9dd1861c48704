//! What holds of paths and routes.

ghost use Rattle.std.specs.Prelude.{◌≡◌, ℕ, List, true, Option, Some, MatchOption};
ghost use Rattle.rule_table.specs.declared.fault.FaultKind.{FaultKind as TheKind};
ghost use Rattle.call_paths.specs.declared.routes.Route.{Route as TheRoute};
ghost use Rattle.call_paths.specs.Path.{IsDownloadOf, IsPath, IsRouted, IsRouteFault};

/// A path is that of one call, under one version, and names one thing; a download's has its two parts in
/// one way.
pub fn one_path()
    ensures route { (path : List ℕ) (a b : TheRoute) → IsPath path a → IsPath path b → a ≡ b }
    ensures parts { (path bucket name other more : List ℕ) → IsDownloadOf path bucket name
        → IsDownloadOf path other more → (bucket ≡ other) × (name ≡ more) }
{}

/// What reads paths reads each back as the route that it was written for.
pub fn path_read_back()
    ensures { (path : List ℕ) (route : TheRoute) (found : Option TheRoute) → IsPath path route
        → MatchOption found ((r : TheRoute) → IsPath path r → ⊥) (IsPath path)
        → found ≡ Some route }
{}

/// A request is for one call, or there is one reason why it is for none.
pub fn one_route()
    ensures call { (method path : List ℕ) (a b : TheRoute) → IsRouted method path a
        → IsRouted method path b → a ≡ b }
    ensures fault { (method path : List ℕ) (a b : TheKind) → IsRouteFault method path a
        → IsRouteFault method path b → a ≡ b }
    ensures either { (method path : List ℕ) (a : TheRoute) (b : TheKind) → IsRouted method path a
        → IsRouteFault method path b → ⊥ }
{}
