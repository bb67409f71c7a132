//! Theorems about the exit status of `vp8 serve`, and about the connections that it serves.

ghost use Rattle.std.specs.Prelude.{◌≡◌, ◌⊎◌, ℕ, List, None, Err, Ok, false, true};
ghost use Rattle.vp_base.specs.Counted.{HasFailed};
ghost use Rattle.vp_hub.specs.Hub.{HubState};
ghost use Rattle.vp_hub.specs.Work.{Hub};
ghost use Rattle.vp_hub.specs.Sessions.{IsSession, IsTurnedAway};
ghost use Rattle.vp_app.specs.Serving.{IsServed};
ghost use Rattle.vp_app.specs.Program.{status_by_service};
ghost use Rattle.vp_app.specs.declared.service.ServiceFault.{ServiceFault};

/// A connection that is served to its end was turned away or had a session.
#[tactic(auto, using(crate::proofs::ProgramLemmas::is_session))]
pub fn served_connections_have_sessions()
    ensures { (number : ℕ) (s : HubState) → IsServed number s (Ok tt) → IsTurnedAway number s s (Ok tt)
        ⊎ ((old new : Hub) × (old.state ≡ s) × (new.state ≡ s) × ((read : List ℕ) × (failures : ℕ)
        × IsSession number old new (Ok tt) read None None None (HasFailed 0 failures))) }
{}

/// `vp8 serve` has exit status 1 if a connection has a fault, or if serving itself has one.
pub fn statuses_of_serve()
    ensures well { status_by_service (Ok true) ≡ 0 }
    ensures ill { status_by_service (Ok false) ≡ 1 }
    ensures fault { (fault : ServiceFault) → status_by_service (Err fault) ≡ 1 }
{}
