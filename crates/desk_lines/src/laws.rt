//! Laws of what is wrong with lines. Each is a function without a parameter whose contract is the law;
//! it does nothing.

ghost use Rattle.std.specs.Prelude.{◌≡◌, ◌↔◌, ℕ, List, ◌∷◌, IsSome, Err, codes, map};
ghost use Rattle.json_requests.specs.declared.bad.BadLine.TheVariants as bad;
ghost use Rattle.json_requests.specs.Kinds.{Kind, line_members, members_of};
ghost use Rattle.json_requests.specs.Requests.{request_in};
ghost use Rattle.desk_lines.specs.Flaws.{flaw_in, member_word, parts_of};

/// Something is wrong with a line just where it is JSON and no request.
pub fn a_line_has_a_flaw_where_it_is_no_request()
    ensures { (line : List ℕ) → (request_in line ≡ Err bad.NotARequest) ↔ IsSome (flaw_in line) }
{}

/// The members that are looked at are those that a line of the kind may have, in their order.
pub fn each_member_of_a_kind_is_looked_at()
    ensures { (kind : Kind) → codes "ask" ∷ map member_word (parts_of kind)
        ≡ line_members (members_of kind) }
{}
