//! Laws of the grammar.

ghost use Rattle.std.specs.Prelude.{◌≡◌, ◌≢◌, ℕ, ◌+◌, List, [], ◌∷◌, codes, length, None};
ghost use Rattle.je_base.specs.declared.pos.Pos.{Pos as Place};
ghost use Rattle.je_tokens.specs.declared.token.Token.{Token as AnyToken};
ghost use Rattle.je_tokens.specs.declared.token.TokenKind.TheVariants as kind;
ghost use Rattle.je_tree.specs.declared.operators.UnaryOp.TheVariants as unary_op;
ghost use Rattle.je_tree.specs.Depth.{block_depth, expr_depth, FitsDepth};
ghost use Rattle.je_tree.specs.Faults.{FirstUnexpected};
ghost use Rattle.je_tree.specs.FragmentGrammar.{IsFragment};
ghost use Rattle.je_tree.specs.Lawful.{IsIdentifier, IsLawful, IsLawfulStmt};
ghost use Rattle.je_tree.specs.Names.{block_names, dotted_length};
ghost use Rattle.je_tree.specs.Nodes.{block_nodes};
ghost use Rattle.je_tree.specs.declared.plans.MethodPlan.{MethodPlan as AnyPlan};
ghost use Rattle.je_tree.specs.declared.plans.Rule.{Rule as AnyRule};
ghost use Rattle.je_tree.specs.Plans.{IsPath, IsLawfulRule, IsLawfulPlan};
ghost use Rattle.je_tree.specs.Sample.{tokens, from_the_left, from_the_right, column, token_at};
ghost use Rattle.je_tree.specs.Sample.{in_a_block, block_of_one, minus, next_int, one};
ghost use Rattle.je_tree.specs.Tree.{Expr as AnyExpr, Block as AnyBlock, Local as AnyLocal};
ghost use Rattle.je_tree.specs.Tree.{paren, unary, index, if_only, local};

/// A difference is read from the left, and not from the right.
pub fn differences_go_from_the_left()
    ensures left { IsFragment tokens from_the_left }
    ensures right { IsFragment tokens from_the_right → ⊥ }
    ensures nodes { block_nodes from_the_left ≡ 9 }
{}

/// An empty text is unexpected at its end, and one that begins with `}` at that token.
pub fn first_faults()
    ensures empty { FirstUnexpected [] (column 1) (column 1) }
    ensures brace { FirstUnexpected (token_at 0 1 (kind.Mark (codes "}")) ∷ tokens) (column 20)
        (column 1) }
{}

/// There is one first fault of a list of tokens, at one position.
pub fn one_first_fault()
    ensures one { (list : List AnyToken) (last pos other : Place) → FirstUnexpected list last pos →
        FirstUnexpected list last other → pos ≡ other }
{}

/// The limits at small texts: `{ a - b - 1; }` is six nodes deep and has two names. A block in a
/// block is one deeper, and parentheses are not.
pub fn limits()
    ensures depth { block_depth from_the_left ≡ 6 }
    ensures names { length (block_names from_the_left) ≡ 2 }
    ensures nested { (b : AnyBlock) → block_depth (in_a_block b) ≡ block_depth b + 1 }
    ensures parentheses { (pos : Place) (more : ℕ) (e : AnyExpr) →
        expr_depth (paren pos more e) ≡ expr_depth e }
    ensures deepest { (b : AnyBlock) → block_depth b ≡ 200 →
        FitsDepth b × (FitsDepth (in_a_block b) → ⊥) }
    ensures dots { (pos other : Place) → dotted_length (record { text = codes "ab"; pos = pos } ∷
        record { text = codes "c"; pos = other } ∷ []) ≡ 4 }
{}

/// What is lawful: identifiers that are no reserved words, the number next above the greatest of
/// its type where the `-` in front of it is a prefix, and declarations that stand in a block.
pub fn lawful_forms()
    ensures sample { IsLawful from_the_left }
    ensures word { IsIdentifier (codes "a$1") }
    ensures reserved { IsIdentifier (codes "if") → ⊥ }
    ensures digit { IsIdentifier (codes "1a") → ⊥ }
    ensures next { (pos other : Place) →
        IsLawful (block_of_one (unary pos unary_op.Minus (next_int other))) }
    ensures indexed { (pos other : Place) →
        IsLawful (block_of_one (unary pos unary_op.Minus (index (next_int other) one))) }
    ensures alone { (pos : Place) → IsLawful (block_of_one (next_int pos)) → ⊥ }
    ensures in_parentheses { (pos other : Place) → IsLawful
        (block_of_one (unary pos unary_op.Minus (paren pos 0 (next_int other)))) → ⊥ }
    ensures difference { (pos : Place) → IsLawful (block_of_one (minus one (next_int pos))) → ⊥ }
    ensures branch { (pos : Place) (e : AnyExpr) (declared : AnyLocal) →
        IsLawfulStmt (if_only pos e (local declared)) → ⊥ }
{}

/// What is lawful of plans: a constructor has no new body, a rule that has parameters names a
/// class, and so does a catch, by identifiers.
pub fn lawful_plans()
    ensures constructor { (p : AnyPlan) → IsLawfulPlan p → p.name ≡ codes "<init>" →
        p.body ≡ None }
    ensures parameters { (r : AnyRule) → IsLawfulRule r → r.params ≢ None → r.class_name ≢ None }
    ensures path { IsPath (codes "a/b") }
    ensures empty { IsPath [] → ⊥ }
{}
