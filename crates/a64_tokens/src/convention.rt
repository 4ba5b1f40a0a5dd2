//! The names of calling conventions and of keys, also where a return may have none.

ghost use Rattle.std.specs.Prelude.{List, [], map};
ghost use Rattle.a64_tokens.specs.declared.convention.TheConstants.{CONVENTION_HOMES, CONVENTIONS, KEY_HOMES, KEYS};
ghost use Rattle.a64_tokens.specs.Conventions.{api_key_text, convention_text, key_text};
ghost use Rattle.a64_tokens.specs.Found.{convention_found, key_found};
ghost use Rattle.a64_tokens.specs.Reads.{Reads, Always};

use crate::named::{Named, Row};
use a64_base::{APIKey, CallConv};

/// For each remainder of a hash, the row of the name that has it.
pub static CONVENTION_HOMES: [u8; 32] = [
    1, 0, 0, 0, 0, 0, 0, 0, 0, 0, 0, 0, 0, 0, 0, 0, 2, 0, 0, 0, 0, 0, 0, 0, 0, 0, 0, 0, 0, 0, 0, 0,
];

/// The calling conventions.
pub static CONVENTIONS: [Row<CallConv>; 3] = [
    (b"SystemV", &[], CallConv::SystemV),
    (b"Tail", &[], CallConv::Tail),
    (b"AppleAarch64", &[], CallConv::AppleAarch64),
];

impl Named for CallConv {
    ghost text = { convention_text };

    ghost kinds_of = { λ _. [] };

    ghost homes = { CONVENTION_HOMES };

    ghost rows = { λ _. map (λ row. row.2) CONVENTIONS };

    fn home_table() -> &'static [u8] {
        &CONVENTION_HOMES
    }

    fn row_table(_class: u8) -> &'static [Row<CallConv>] {
        &CONVENTIONS
    }

    ghost found = { convention_found };
}

/// For each remainder of a hash, the row of the name that has it.
pub static KEY_HOMES: [u8; 8] = [3, 0, 1, 4, 0, 2, 0, 0];

/// The keys, and a dash for none.
pub static KEYS: [Row<Option<APIKey>>; 5] = [
    (b"-", &[], None),
    (b"AZ", &[], Some(APIKey::AZ)),
    (b"ASP", &[], Some(APIKey::ASP)),
    (b"BZ", &[], Some(APIKey::BZ)),
    (b"BSP", &[], Some(APIKey::BSP)),
];

impl Named for Option<APIKey> {
    ghost text = { key_text };

    ghost kinds_of = { λ _. [] };

    ghost homes = { KEY_HOMES };

    ghost rows = { λ _. map (λ row. row.2) KEYS };

    fn home_table() -> &'static [u8] {
        &KEY_HOMES
    }

    fn row_table(_class: u8) -> &'static [Row<Option<APIKey>>] {
        &KEYS
    }

    ghost found = { key_found };
}

/// The key that the token names.
#[tactic(auto, using(std::proofs::lemmas::Slice::Eq::text_from_reads))]
pub fn read_api_key(token: &[u8]) -> Option<APIKey>
    ensures { Reads Always api_key_text token.now result }
{
    match token {
        b"AZ" => Some(APIKey::AZ),
        b"BZ" => Some(APIKey::BZ),
        b"ASP" => Some(APIKey::ASP),
        b"BSP" => Some(APIKey::BSP),
        _ => None,
    }
}
