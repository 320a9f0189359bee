//! Laws of the policy, each the contract of a function that does nothing. They hold on every node, reached or not.

ghost use Rattle.std.specs.Prelude.{◌≡◌, ◌≢◌, ◌<◌, ◌≤◌, ◌+◌, ◌%◌, ℕ, Bool, Some, IfSome, false, true};
ghost use Rattle.sci_words.specs.declared.{limits.TheConstants.{MAX_LINES}, event.AskKind.{AskKind, TheVariants.{Claim, Clear, Wback}}};
ghost use Rattle.sci_packets.specs.declared.body.Body.TheVariants.{Cread};
ghost use Rattle.sci_cache.specs.{Cache.{Letter}, Kinds.{has_fresh_sharers, has_sharers, joins}};
ghost use Rattle.sci_core.specs.Node.{NodeOf, lines_of};
ghost use Rattle.sci_policy.specs.declared.{decision.Decision.TheVariants.{Serve}, policy.TheConstants.{PATIENCE}, want.Want.TheVariants.{Ask}};
ghost use Rattle.sci_policy.specs.Lines.{can_be_due, can_drain, has_pending, is_head, least, oldest, serial_on, state_on};
ghost use Rattle.sci_policy.specs.Policy.{PolicyOf, awaits_home, decided, has, kept_by, next_policy, next_wanted, still_draining};

/// The least line of which something is true is one of them, and stands before all others.
pub fn the_least_line_comes_first()
    ensures fits { (node : NodeOf) (test : ℕ → Bool)
        → IfSome (least node test) (λ line. (line < lines_of node) × (test line ≡ true)) }
    ensures first { (node : NodeOf) (test : ℕ → Bool) (other : ℕ)
        → other < lines_of node → test other ≡ true
        → (line : ℕ) × ((least node test ≡ Some line) × (line ≤ other)) }
{}

/// Of the lines with an operation pending, and of which something is true, the oldest is one, and its operation's serial is
/// the least of theirs.
pub fn the_oldest_has_the_least_serial()
    ensures fits { (node : NodeOf) (test : ℕ → Bool)
        → IfSome (oldest node test) (λ line. (line < lines_of node)
        × ((has_pending node line ≡ true) × (test line ≡ true))) }
    ensures least { (node : NodeOf) (test : ℕ → Bool) (other : ℕ)
        → other < lines_of node → has_pending node other ≡ true → test other ≡ true
        → (line : ℕ) × ((oldest node test ≡ Some line)
        × (serial_on node line ≤ serial_on node other)) }
{}

/// While a line joins a list, the node wants no Claim, Clear or Wback, of that line or another. So nothing that another node
/// might wait for is sent behind its Cread.
pub fn joins_come_first()
    ensures { (policy : PolicyOf) (node : NodeOf) (joining line : ℕ) (kind : AskKind)
        → joining < lines_of node → joins (state_on node joining) ≡ true
        → next_wanted policy node ≡ Some (Ask line kind)
        → (kind ≢ Claim) × (kind ≢ Clear) × (kind ≢ Wback) }
{}

/// A draining line purges its list, or is the head of a list with a next entry, which it can purge.
pub fn draining_lines_can_purge()
    ensures { (policy : PolicyOf) (node : NodeOf) (line : ℕ)
        → has (next_policy policy node).draining line ≡ true
        → can_drain (state_on node line) ≡ true }
{}

/// A due line claims its list, or is the head of a fresh list with a next entry, which it can claim.
pub fn due_lines_can_claim()
    ensures { (policy : PolicyOf) (node : NodeOf) (line : ℕ)
        → has (next_policy policy node).due line ≡ true
        → can_be_due (state_on node line) ≡ true }
{}

/// A due line stays due while it is the head of a fresh list with a next entry, or claims. So a Claim that finds its lane
/// full is wanted again, before anything that the node's operations want.
pub fn due_lines_stay_due()
    ensures { (policy : PolicyOf) (node : NodeOf) (line : ℕ)
        → line < MAX_LINES → has policy.due line ≡ true
        → can_be_due (state_on node line) ≡ true
        → has (next_policy policy node).due line ≡ true }
{}

/// Patience ends at each 64th call of `next`, whatever can be performed. Then each line is marked that has a list which others may
/// wait for: it is draining if it is Head with a next entry, and due if it is the head of a fresh list with one. So no other line
/// that a node works on keeps it from giving up such a list.
pub fn patience_always_ends()
    ensures counts { (policy : PolicyOf) (node : NodeOf) → policy.patience < PATIENCE
        → (next_policy policy node).patience ≡ (policy.patience + 1) % PATIENCE }
    ensures drains { (policy : PolicyOf) (node : NodeOf) (line : ℕ)
        → policy.patience + 1 ≡ PATIENCE → line < MAX_LINES
        → has_sharers (state_on node line) ≡ true
        → has (next_policy policy node).draining line ≡ true }
    ensures claims { (policy : PolicyOf) (node : NodeOf) (line : ℕ)
        → policy.patience + 1 ≡ PATIENCE → line < MAX_LINES
        → has_fresh_sharers (state_on node line) ≡ true
        → has (next_policy policy node).due line ≡ true }
{}

/// In the turn of 64 in which the count of turns is 0, a Head that was used, and that isn't draining, is given to the next node
/// that asks, though a maker waits for it. So a node that always has one more store to a line doesn't keep it from the others.
pub fn used_lines_are_given_away()
    ensures { (policy : PolicyOf) (node : NodeOf) (request : Letter)
        → policy.turns ≡ 0 → is_head (state_on node request.line) ≡ true
        → has policy.used request.line ≡ true
        → still_draining policy node request.line ≡ false → decided policy node request ≡ Serve }
{}

/// A request that is kept is a Cread of another node.
pub fn only_creads_of_others_are_kept()
    ensures { (policy : PolicyOf) (node : NodeOf) (request : Letter)
        → kept_by policy node request ≡ true
        → (request.body ≡ Cread) × (request.source ≢ node.cache.me) }
{}

/// In the turn of 64 in which the count of turns is 0, only requests about a line that awaits its home's word are kept.
pub fn kept_requests_are_let_go()
    ensures { (policy : PolicyOf) (node : NodeOf) (request : Letter)
        → policy.turns ≡ 0 → kept_by policy node request ≡ true
        → awaits_home (state_on node request.line) ≡ true }
{}
