//! Laws of the lanes, each the contract of a function that does nothing.

ghost use Rattle.std.specs.Prelude.{◌≡◌, ℕ, List};
ghost use Rattle.sci_core.specs.Reached.{IsReached};
ghost use Rattle.sci_lanes.specs.{Shown.{Shows, Whole}, declared.view.View.{View}};

/// Words and views show one state: whatever two states of a machine's size they show, the two are the same.
pub fn words_show_one_state()
    ensures { (x y : Whole) (words : List ℕ) (views : List View) →
        IsReached x.core → IsReached y.core → x.core.size ≡ y.core.size →
        Shows x words views → Shows y words views → x.core ≡ y.core }
{}
