//! How an exchange is served.

ghost use Rattle.std.specs.Prelude.{⊤, [], ◌∷◌, None, Some};
ghost use Rattle.http_requests.specs.Exchanges.{IsExchange, ended};
ghost use Rattle.http_requests.specs.Heard.{HasCome};
ghost use Rattle.desk_http.specs.Served.{IsServed};
ghost use Rattle.desk_http.specs.declared.fault.HttpFault.TheVariants as fault;
ghost use Rattle.desk_http.specs.declared.served.Served.{Served};

/// An exchange whose request isn't read on changes nothing, and nothing is written; one that has a
/// response was handled or refused.
pub fn examples_of_exchanges_that_are_served()
    ensures unread { HasCome None None IsExchange ended
        → IsServed ⊤ (λ request answer. ⊥) None None (Some []) (Some []) (Err fault.Read) }
    ensures changed { IsServed ⊥ (λ request answer. ⊤) None None (Some []) (Some [])
        (Err fault.Read) → ⊥ }
    ensures written { IsServed ⊤ (λ request answer. ⊤) None None (Some []) (Some (0 ∷ []))
        (Err fault.Read) → ⊥ }
    ensures unhandled { (served : Served) → IsServed ⊥ (λ request answer. ⊥) None None (Some [])
        (Some []) (Ok served) → ⊥ }
{}
