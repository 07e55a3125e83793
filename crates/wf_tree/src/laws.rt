//! Laws of marks and next steps, each the contract of a function that does nothing.

ghost use Rattle.std.specs.Prelude.{◌≡◌, ◌≢◌, ◌↔◌, ◌∷◌, ◌++◌, ℕ, true, false, List};
ghost use Rattle.std.specs.List.{All};
ghost use Rattle.wf_machine.specs.declared.definition.Branch.{Branch};
ghost use Rattle.wf_machine.specs.declared.definition.Node.{Node};
ghost use Rattle.wf_machine.specs.declared.walking.Mark.{Mark};
ghost use Rattle.wf_machine.specs.declared.walking.Next.{Next};
ghost use Rattle.wf_machine.specs.Marks.{next_of_each, next_of_node, next_of_nodes, node_mark};
ghost use Rattle.wf_machine.specs.Sight.{Seen};
ghost use Rattle.wf_tree.specs.Laws.{IsDone, can_be_taken, next_before, next_of_branch};

/// A list of nodes is done exactly where each of its nodes is.
pub fn a_list_is_done_with_its_nodes()
    ensures { (f : List Seen) (i : ℕ) (behind : Next) (nodes : List Node)
        → (next_of_nodes f i behind nodes ≡ Next.Done) ↔ All (IsDone f i) nodes }
{}

/// The next step of a list is that of its first node that isn't done.
pub fn the_first_open_node_asks()
    ensures { (f : List Seen) (i : ℕ) (behind : Next) (before : List Node) (n : Node) (rest : List Node)
        → All (IsDone f i) before → node_mark f i n.index n.kind ≢ Mark.Done
        → next_of_nodes f i behind (before ++ n ∷ rest) ≡ next_of_node f i (next_before f i behind before) n.index n.kind }
{}

/// The branches of a FORK_JOIN are done exactly where each of them is. Else the first that can go on does.
pub fn branches_run_beside_one_another()
    ensures done { (f : List Seen) (i : ℕ) (branches : List Branch)
        → (next_of_each f i branches ≡ Next.Done) ↔ All (λ b. next_of_branch f i b ≡ Next.Done) branches }
    ensures first { (f : List Seen) (i : ℕ) (before : List Branch) (b : Branch) (rest : List Branch)
        → All (λ x. can_be_taken (next_of_branch f i x) ≡ false) before → can_be_taken (next_of_branch f i b) ≡ true
        → next_of_each f i (before ++ b ∷ rest) ≡ next_of_branch f i b }
{}
