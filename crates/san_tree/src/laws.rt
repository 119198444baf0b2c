//! Laws of homes, shares and paths.

ghost use Rattle.std.specs.Prelude.{◌≡◌, ℕ, List, take};
ghost use Rattle.std.specs.List.{All};
ghost use Rattle.san_tree.specs.Places.{node_at, home, reached, shares_of, NamesOnce, SharesApart, Keeps};
ghost use Rattle.san_tree.specs.Instances.{instances, LeadsTo};
ghost use Rattle.san_tree.specs.declared.node.Node.{Node};

/// Two places of one leaf have two homes.
pub fn homes_apart()
    ensures { (nodes : List Node) → ((n : ℕ) → SharesApart (node_at nodes n)) → (root : ℕ) → (path : List ℕ) → (p : ℕ) → (q : ℕ) → home nodes root path p ≡ home nodes root path q → p ≡ q }
{}

/// What sharing keeps, as initial values, is at a home what it is at the leaf.
pub fn homes_keep()
    ensures { (nodes : List Node) → (shown : ℕ → ℕ → List ℕ) → Keeps nodes shown → (root : ℕ) → (path : List ℕ) → (p : ℕ) → let h = home nodes root path p in shown (reached nodes root (take h.depth path)) h.place ≡ shown (reached nodes root path) p }
{}

/// Where no share has two places of one child, a node shares the places of a child apart.
pub fn shares_apart()
    ensures { (node : Node) → All NamesOnce (shares_of node) → SharesApart node }
{}

/// The path of each leaf leads to a node of its atomic.
pub fn paths_lead()
    ensures { (nodes : List Node) → (root : ℕ) → All (LeadsTo nodes root) (instances nodes root) }
{}
