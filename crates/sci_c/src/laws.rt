//! Laws on answers, each the contract of a function that does nothing: an answer that a line awaits comes from the node that
//! its state says it asked, if the state says one.

ghost use Rattle.std.specs.Prelude.{◌≡◌, ℕ, Some, true, IfSome, unwrap_or};
ghost use Rattle.sci_words.specs.declared.{event.AskKind.{AskKind}, operation.Op.{Op}};
ghost use Rattle.sci_packets.specs.declared.body.Body.{Body};
ghost use Rattle.sci_cache.specs.{Asking.{asked_node, asking}, Performing.{performing}, Serving.{serving}, State.{CacheState, waits}};
ghost use Rattle.sci_c.specs.Asked.{told_asked};

/// A request goes to the node that its line then has asked.
pub fn requests_go_to_the_asked_node()
    ensures { (home : ℕ) (state : CacheState) (kind : AskKind) → IfSome (asking state kind)
        (λ asked. asked_node home asked.next ≡ Some (unwrap_or asked.to home)) }
{}

/// A line that awaits an answer has asked the same node after it has served a request.
pub fn serving_keeps_the_asked_node()
    ensures { (home n : ℕ) (state : CacheState) (body : Body) → waits state ≡ true → IfSome (serving state n body)
        (λ served. told_asked home served.0 ≡ told_asked home state) }
{}

/// A line has asked the same node after an operation.
pub fn performing_keeps_the_asked_node()
    ensures { (home : ℕ) (state : CacheState) (op : Op) → IfSome (performing state op)
        (λ done. asked_node home done.next ≡ asked_node home state) }
{}
