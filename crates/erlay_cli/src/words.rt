//! The words of exchanges.

ghost use Rattle.std.specs.Prelude.{None, ◌≡◌, ◌≢◌, IfSome, map};
ghost use Rattle.std.specs.String.{string_bytes};
ghost use Rattle.erlay_cli.specs.Exchanges.{HasExchange, HasNoExchange, role_word};

use node_rules::Role;
use std::marker::Model;

/// What the words `sync` and `serve` ask for.
#[derive(Drop)]
pub(crate) struct Exchange<'a> {
    /// An opener connects and begins a round; an accepter waits for one.
    pub role: Role,
    pub address: &'a str,
    /// The name of the pool file.
    pub pool: &'a str,
    /// The name that the pool is saved under.
    pub out: &'a str,
}

impl<'a> Model for Exchange<'a> {
    ghost use Rattle.erlay_cli.specs.Exchanges.{Exchange};

    ghost Value = { Exchange };

    ghost view = { λ x. record { role = x.role; address = x.address.now; pool = x.pool.now; out = x.out.now } };
}

/// What the words ask for, where they ask for an exchange.
pub(crate) fn exchange_of(words: &[String]) -> Option<Exchange<'_>>
    ensures some { IfSome result (λ x. HasExchange (map string_bytes words.now) x) }
    ensures none { result ≡ None → HasNoExchange (map string_bytes words.now) }
{
    let [word, address, pool, out] = words else {
        return None;
    };
    match role_of(word) {
        Some(role) => Some(Exchange {
            role,
            address,
            pool,
            out,
        }),
        None => None,
    }
}

/// The role that a word names.
fn role_of(word: &str) -> Option<Role>
    ensures some { IfSome result (λ role. word.now ≡ role_word role) }
    ensures none { result ≡ None → (role : Role) → word.now ≢ role_word role }
{
    match word {
        "sync" => Some(Role::Opener),
        "serve" => Some(Role::Accepter),
        _ => None,
    }
}
