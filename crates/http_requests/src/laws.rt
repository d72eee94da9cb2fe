//! Laws of exchanges. Each is a function without a parameter whose contract is the law; it does
//! nothing.

ghost use Rattle.std.specs.Prelude.{◌≡◌, ◌≢◌, ◌++◌, ℕ, List};
ghost use Rattle.http_requests.specs.Exchanges.{Exchange, IsExchange, ended};

/// The same bytes never come to two different things.
pub fn an_exchange_has_one_outcome()
    ensures { (bytes : List ℕ) (x y : Exchange) → IsExchange bytes x → IsExchange bytes y → x ≡ y }
{}

/// What bytes come to stays the same whatever follows them, unless they end too soon.
pub fn an_outcome_stays_whatever_follows()
    ensures { (bytes more : List ℕ) (x : Exchange) → IsExchange bytes x → x ≢ ended
        → IsExchange (bytes ++ more) x }
{}
