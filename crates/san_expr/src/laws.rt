//! Laws: which cells an evaluation has to do with, and what the view of a whole marking is.
ghost use Rattle.std.specs.Prelude.{◌≡◌, ℕ, ℤ, List, Result, length};
ghost use Rattle.san_base.specs.declared.ending.Trap.{Trap};
ghost use Rattle.san_expr.specs.Concerns.{Concerns, AssignsNothing};
ghost use Rattle.san_expr.specs.Delay.{delay_of};
ghost use Rattle.san_expr.specs.Effect.{effects_of};
ghost use Rattle.san_expr.specs.Meets.{Evaluates, Meets, marking_of};
ghost use Rattle.san_expr.specs.Mentions.{mentions, stmts_mention, dist_mentions};
ghost use Rattle.san_expr.specs.Value.{value_of};
ghost use Rattle.san_expr.specs.View.{ViewState, Agrees, OwnsAll, plain};
ghost use Rattle.san_expr.specs.declared.dist.Dist.{Dist};
ghost use Rattle.san_expr.specs.declared.expr.Expr.{Expr};
ghost use Rattle.san_expr.specs.declared.stmt.Stmt.{Stmt};

/// An evaluation has to do with the mentioned cells alone: no other is looked at or assigned, and
/// two markings that are equal on them give one meaning.
#[tactic(auto, using(crate::proofs::ConcernLemmas::value_concerns, crate::proofs::ConcernLemmas::statements_concern, crate::proofs::ConcernLemmas::delay_concerns))]
pub fn mentioned_cells_decide()
    ensures expressions { (e : Expr) → Concerns (mentions e) (value_of e) }
    ensures statements { (body : List Stmt) → Concerns (stmts_mention body) (effects_of body) }
    ensures delays { (d : Dist) (u : ℕ) → Concerns (dist_mentions d) (delay_of d u) }
{}

/// Expressions and delays assign nothing.
#[tactic(auto, using(crate::proofs::WholeLemmas::value_reads, crate::proofs::WholeLemmas::delay_reads))]
pub fn evaluations_assign_nothing()
    ensures expressions { (e : Expr) → AssignsNothing (value_of e) }
    ensures delays { (d : Dist) (u : ℕ) → AssignsNothing (delay_of d u) }
{}

/// A view whose every cell is its own has one marking only: what is said of every marking that
/// agrees with it is said of that one.
#[tactic(auto, using(crate::proofs::WholeLemmas::whole_is_one, crate::proofs::WholeLemmas::plain_whole, crate::proofs::WholeLemmas::plain_is, crate::proofs::WholeLemmas::plain_evaluates, crate::proofs::WholeLemmas::plain_meets))]
pub fn whole_views_have_one_marking()
    ensures one { (s : ViewState) → OwnsAll s → (m n : List ℕ) → Agrees s m → Agrees s n → marking_of s m ≡ marking_of s n }
    ensures plain { (values : List ℕ) → OwnsAll (plain values) }
    ensures marking { (values m : List ℕ) → length m ≡ length values → marking_of (plain values) m ≡ values }
    ensures value { (values left : List ℕ) (e : Expr) (r : Result ℤ Trap) → Evaluates (plain values) (plain left) (value_of e) r → ((value_of e values).answer ≡ r) × (left ≡ values) }
    ensures effect { (values left : List ℕ) (body : List Stmt) (r : Result (Unit {0}) Trap) → Meets (plain values) (plain left) (effects_of body) r → ((effects_of body values).answer ≡ r) × (left ≡ (effects_of body values).left) }
{}
