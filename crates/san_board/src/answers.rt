//! Which answers of a board are a worker's last.

ghost use Rattle.std.specs.Prelude.{◌≡◌};
ghost use Rattle.san_speculation.specs.Boards.{is_over, is_refused};

use san_base::NoMemory;
use san_core::Redoing;
use san_speculation::Publishing;

/// Whether a publication found no memory.
pub(crate) fn is_refused(done: &Publishing) -> bool
    ensures { result ≡ is_refused done.now }
{
    match done {
        Publishing::Published => false,
        Publishing::Late(_) => false,
        Publishing::NoMemory(_) => true,
    }
}

/// Whether no piece was made anew.
pub(crate) fn is_over(done: Result<Redoing, NoMemory>) -> bool
    ensures { result ≡ is_over done }
{
    match done {
        Ok(Redoing::Redone) => false,
        Ok(Redoing::Ended) => true,
        Ok(Redoing::Rested) => true,
        Err(_) => true,
    }
}
