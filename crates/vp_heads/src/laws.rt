//! Theorems about request heads. Each is the contract of a function that does nothing.

ghost use Rattle.std.specs.Prelude.{◌≡◌, ℕ, List};
ghost use Rattle.matchit.specs.Rows.{RowsOf};
ghost use Rattle.matchit.specs.Router.{RouteOf};
ghost use Rattle.vp_heads.specs.declared.routes.Page.{Page};
ghost use Rattle.vp_heads.specs.declared.request.Request.{Request};
ghost use Rattle.vp_heads.specs.Requests.{IsRequestFor, OurRoutesHaveNoStill};

/// The bytes of a head determine the request.
pub fn heads_are_unique()
    ensures { (routes : RowsOf (RouteOf Page)) (names : List (List ℕ)) (bytes : List ℕ) (a b : Request)
        → IsRequestFor routes names bytes a
        → IsRequestFor routes names bytes b
        → a ≡ b }
{}

/// By the four routes of `router` no head requests a WebP file.
pub fn our_routes_have_no_still()
    ensures { OurRoutesHaveNoStill }
{}
