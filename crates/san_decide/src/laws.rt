//! Laws: which values an evaluation and a piece depend on.

ghost use Rattle.std.specs.Prelude.{List, Option, ℕ};
ghost use Rattle.san_decide.specs.Booked.{BookIsLawful, EveryCoreFollows};
ghost use Rattle.san_decide.specs.Decided.{Decides, ReadsDecide};
ghost use Rattle.san_expr.specs.Effect.{effects_of};
ghost use Rattle.san_expr.specs.Value.{value_of};
ghost use Rattle.san_expr.specs.declared.expr.Expr.{Expr};
ghost use Rattle.san_expr.specs.declared.stmt.Stmt.{Stmt};
ghost use Rattle.san_leaf.specs.Blocks.{made_of};
ghost use Rattle.san_net.specs.Accepted.{IsAccepted};
ghost use Rattle.san_net.specs.Completion.{completion_of};
ghost use Rattle.san_net.specs.First.{first_of};
ghost use Rattle.san_net.specs.Laid.{IsNetwork};
ghost use Rattle.san_net.specs.Network.{Network};
ghost use Rattle.san_net.specs.declared.activity.Activity.{Activity};
ghost use Rattle.san_net.specs.declared.atomic.Atomic.{Atomic};
ghost use Rattle.san_net.specs.declared.part.Part.{Part};

/// Two markings that are equal in the cells at which an evaluation looks give it one answer, the
/// same cells that are looked at and assigned, and the same assigned values.
pub fn looked_cells_decide()
    ensures expressions { (e : Expr) → Decides (value_of e) }
    ensures statements { (body : List Stmt) → Decides (effects_of body) }
    ensures completions { (u : ℕ) (a : Activity) → Decides (completion_of u a) }
    ensures tests { (a : Atomic) → Decides (first_of a) }
    ensures pieces { (draw : ℕ → ℕ → ℕ) (p : Part) (fired : Option ℕ) (cases : List ℕ)
        → Decides (made_of draw p fired cases) }
{}

/// Over all shared values that agree with what a piece read, the same piece comes about, and reads
/// the same.
pub fn what_a_piece_reads_decides_it()
    ensures { (p : Part) → IsAccepted p.atomic → ReadsDecide p }
{}

/// The committed part of a network's run is as the book asks, with pieces that log just what they
/// read.
pub fn a_run_is_booked()
    ensures { (n : Network) → IsNetwork n → BookIsLawful n }
{}

/// Whatever steps are done to a core that was opened over a start of a run, what it has committed
/// follows the run.
pub fn every_core_follows_its_run()
    ensures { (n : Network) → IsNetwork n → EveryCoreFollows n }
{}
