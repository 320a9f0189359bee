//! Laws of the home's table, each the contract of a function that does nothing.

ghost use Rattle.std.specs.Prelude.{◌≡◌, ℕ, Some, IfSome};
ghost use Rattle.sci_packets.specs.declared.body.Body.{Body, TheVariants.{Mread, Fread, Wbok, Wbno}};
ghost use Rattle.sci_home.specs.{declared.state.HomeState.{HomeState}, Serving.{home_serving, head_of}};

/// A reader becomes the head of the list.
pub fn a_reader_becomes_the_head()
    ensures write { (state : HomeState) (n : ℕ) →
        IfSome (home_serving state n Mread) (λ served. head_of served.0 ≡ Some n) }
    ensures read { (state : HomeState) (n : ℕ) →
        IfSome (home_serving state n Fread) (λ served. head_of served.0 ≡ Some n) }
{}

/// A wish to write, to leave or to give contents back is granted to the head alone.
pub fn only_the_head_is_granted()
    ensures { (state : HomeState) (n : ℕ) (request : Body) →
        IfSome (home_serving state n request) (λ served. served.1 ≡ Wbok → head_of state ≡ Some n) }
{}

/// A wish that is not granted changes nothing.
pub fn a_refusal_changes_nothing()
    ensures { (state : HomeState) (n : ℕ) (request : Body) →
        IfSome (home_serving state n request) (λ served. served.1 ≡ Wbno → served.0 ≡ state) }
{}
