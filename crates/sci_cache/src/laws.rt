//! Laws of the tables, each the contract of a function that does nothing.

ghost use Rattle.std.specs.Prelude.{◌≡◌, ℕ, true, false, Option, Some, None, IfSome};
ghost use Rattle.sci_words.specs.declared.{event.AskKind.{AskKind}, operation.Op.{Op}};
ghost use Rattle.sci_packets.specs.declared.body.Body.{Body, TheVariants.{Busy, Purged, Rolled}};
ghost use Rattle.sci_cache.specs.{State.{CacheState, waits}, Asking.{asking}, Accepting.{accepting, settled}};
ghost use Rattle.sci_cache.specs.Serving.{serving, serving_cread, serving_purge, serving_roll, serving_setback};
ghost use Rattle.sci_cache.specs.{Performing.{performing}, Member.{link_of}};

/// An ask changes no link.
pub fn asking_keeps_link()
    ensures { (state : CacheState) (kind : AskKind) →
        IfSome (asking state kind) (λ asked. link_of asked.next ≡ link_of state) }
{}

/// An operation changes no link.
pub fn performing_keeps_link()
    ensures { (state : CacheState) (op : Op) →
        IfSome (performing state op) (λ done. link_of done.next ≡ link_of state) }
{}

/// A node that joins before an entry leaves the entry's link as it was.
pub fn joining_keeps_link()
    ensures { (state : CacheState) (n : ℕ) (answer : Option Body) →
        link_of (settled (serving_cread state n).0 answer) ≡ link_of (settled state answer) }
{}

/// A purged line tells its link, and is no member from then on.
pub fn purging_ends_a_membership()
    ensures told { (state : CacheState) (link : Option ℕ) → (serving_purge state).1 ≡ Purged link →
        link_of state ≡ Some link }
    ensures gone { (state : CacheState) (link : Option ℕ) (answer : Option Body) →
        (serving_purge state).1 ≡ Purged link → link_of (settled (serving_purge state).0 answer) ≡ None }
{}

/// An entry that lets node n leave linked to n, and links to the entry behind n from then on.
pub fn rolling_passes_a_link_on()
    ensures before { (state : CacheState) (n : ℕ) (link : Option ℕ) →
        (serving_roll state n link).1 ≡ Rolled → link_of state ≡ Some (Some n) }
    ensures after { (state : CacheState) (n : ℕ) (link : Option ℕ) →
        (serving_roll state n link).1 ≡ Rolled →
        link_of (serving_roll state n link).0 ≡ Some link }
{}

/// What an entry learns of the one before it changes no link.
pub fn telling_keeps_link()
    ensures { (state : CacheState) (n before : ℕ) (answer : Option Body) →
        link_of (settled (serving_setback state n before).0 answer) ≡ link_of (settled state answer) }
{}

/// An ask is made only if no answer is awaited, and awaits one.
pub fn asking_begins_a_wait()
    ensures { (state : CacheState) (kind : AskKind) →
        IfSome (asking state kind) (λ asked. (waits state ≡ false) × (waits asked.next ≡ true)) }
{}

/// An answer is taken only if one is awaited, and then none is.
pub fn accepting_ends_a_wait()
    ensures { (state : CacheState) (answer : Body) →
        IfSome (accepting state answer) (λ next. (waits state ≡ true) × (waits next ≡ false)) }
{}

/// A request that is served changes nothing about whether an answer is awaited.
pub fn serving_keeps_a_wait()
    ensures { (state : CacheState) (n : ℕ) (request : Body) →
        IfSome (serving state n request) (λ served. waits served.0 ≡ waits state) }
{}

/// A request that is answered busy changes nothing.
pub fn busy_changes_nothing()
    ensures { (state : CacheState) (n : ℕ) (request : Body) →
        IfSome (serving state n request) (λ served. served.1 ≡ Busy → served.0 ≡ state) }
{}
