//! Views of a marking: what can be read and assigned.
ghost use Rattle.std.specs.Prelude.{◌≡◌, ◌<◌, ◌≤◌};
ghost use Rattle.san_expr.specs.View.{ViewState, ReadsCell, assigned};

use san_base::MAX_TOKENS;

/// A view of a marking: a number for each cell. Reading may note what was read.
pub trait Marked {
    ghost view_state: { Self → ViewState };

    /// The view's own value of a cell, else the first one that was read of it.
    fn read(&mut self, place: u32) -> u32
        requires { place < (view_state self.old).places }
        ensures { ReadsCell (view_state self.old) (view_state self.new) place result };
}

/// A view whose cells can be assigned.
pub trait Cells: Marked {
    /// The cell's own value from now on.
    fn set(&mut self, place: u32, value: u32)
        requires place { place < (Self.view_state self.old).places }
        requires value { value ≤ MAX_TOKENS }
        ensures { Self.view_state self.new ≡ assigned (Self.view_state self.old) place value };
}
