//! How many steps on words a turn may make.

ghost use Rattle.std.specs.Prelude.{◌≡◌, ◌+◌, Some, None, IfOk, IsErr};
ghost use Rattle.sci_station.specs.Budgets.{HasLess};

/// How many more steps on words a turn may make: as many as it likes if there is no limit.
#[derive(Clone, Copy)]
pub struct Budget {
    pub left: Option<u32>,
}

/// A turn has made as many steps as it may.
#[derive(Clone, Copy)]
pub struct Spent;

impl Budget {
    /// Allows one step more. Refused, unchanged, if the turn has made as many as it may.
    pub fn spend(&mut self) -> Result<(), Spent>
        ensures one { IfOk result (λ _. HasLess 1 self.old.left self.new.left) }
        ensures spent { IsErr result → self.old.left ≡ Some 0 }
        ensures same { IsErr result → self.new ≡ self.old }
    {
        match self.left {
            None => Ok(()),
            Some(left) => self.spend_of(left),
        }
    }

    /// Allows one step more of those that are left, as `spend` does. Cold, so that the code of a turn without a limit stands
    /// in one piece: a step is made for each look and each word.
    #[cold]
    #[inline(never)]
    fn spend_of(&mut self, left: u32) -> Result<(), Spent>
        requires left { self.old.left ≡ Some left }
        ensures one { IfOk result (λ _. HasLess 1 self.old.left self.new.left) }
        ensures spent { IsErr result → left ≡ 0 }
        ensures same { IsErr result → self.new ≡ self.old }
    {
        if left == 0 {
            return Err(Spent);
        }
        self.left = Some(left - 1);
        Ok(())
    }
}
